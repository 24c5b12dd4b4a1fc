// What the programs share: a count with its noun, and the front of what they are given to read.

#![tactic(auto)]

ghost use Rattle.std.specs.Prelude.{IfOk, IfSome, Some, take, [], ◌++◌, ◌==◌, if◌then◌else◌, codes};
ghost use Rattle.std.specs.Fmt.{decimal};
ghost use Rattle.std.specs.Io.{StartsWith};

use std::alloc::Global;
use std::io::{ErrorKind, Read};
use std::{fmt, io};

// A count with its noun, which takes an s unless the count is 1.
#[derive(Clone, Copy)]
pub struct Count<'a> {
    pub count: u32,
    pub noun: &'a str,
}

impl fmt::Display for Count<'_> {
    ghost output = { λ c. Some (decimal c.count ++ codes " " ++ c.noun.now ++ (if c.count == 1 then [] else codes "s")) };

    fn fmt<W: fmt::Write>(&self, f: &mut fmt::Formatter<W>) -> fmt::Result {
        let plural = if self.count == 1 { "" } else { "s" };
        write!(f, "{} {}{plural}", self.count, self.noun)
    }
}

// The front of what a reader has, at most so many bytes. A read that fails ends it, as the input's end does; only memory that runs out is an
// error.
pub fn read_front<R: Read + Drop>(alloc: Global, reader: R, most: u64) -> io::Result<Vec<u8>>
    ensures { IfOk result (λ bytes. IfSome (R.remaining reader) (λ xs. StartsWith (take most xs) bytes.items)) }
{
    let mut bytes = Vec::new(alloc);
    match reader.take(most).read_to_end(&mut bytes) {
        Err(e) if e.kind() == ErrorKind::OutOfMemory => Err(e),
        _ => Ok(bytes),
    }
}
