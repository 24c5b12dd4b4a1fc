// The desk script, version 2: its head, its limits, its operations with their fields, and why playing one may end.
ghost use Rattle.std.specs.Prelude.{◌≡◌, ◌+◌, ◌++◌, ◌<◌, ◌≤◌, length, take, slice_index, OnOk, OnErr, IfOk, Some};
ghost use Rattle.std.specs.Int.{w16, w32, from_le_bytes};
ghost use Rattle.std.specs.Iterator.{at_most};
ghost use Rattle.program_replay.specs.Lent.{lent};
ghost use Rattle.program_replay.specs.ScriptError.{last_line};

use rules::Form;
use std::fmt;

// The bytes "DSK2".
const MAGIC: u32 = 843797316;

// The most bytes of a script.
pub const LONGEST_SCRIPT: usize = 1048576;

// The most bytes of a memory, and of a buffer that a desk is saved into.
const LONGEST_MEMORY: u32 = 65536;

// ---- operations

// An operation of a script, with its fields.
#[derive(Clone, Copy)]
pub enum Operation<'a> {
    Poke {
        address: usize,
        bytes: &'a [u8],
    },
    Write {
        offset: u32,
        value: u32,
    },
    Read {
        offset: u32,
    },
    Run {
        allowance: u16,
    },
    Record {
        index: u32,
    },
    Answer {
        is_good: bool,
        allowance: u16,
    },
    State,
    // a run, and an answer, that are lent zeros of another length
    RunElsewhere {
        allowance: u16,
        length: usize,
    },
    AnswerElsewhere {
        is_good: bool,
        allowance: u16,
        length: usize,
    },
    Save {
        form: Form,
        length: usize,
    },
    Load {
        file: &'a [u8],
    },
    Move {
        file: &'a [u8],
        length: usize,
    },
}

// Why a script cannot be played on.
#[derive(Clone, Copy)]
pub enum ScriptError {
    Truncated,
    BadScript,
    UnknownTag(u8),
}

impl fmt::Display for ScriptError {
    ghost output = { λ e. Some (last_line e) };

    fn fmt<W: fmt::Write>(&self, f: &mut fmt::Formatter<W>) -> fmt::Result {
        match self {
            ScriptError::Truncated => write!(f, "truncated"),
            ScriptError::BadScript => write!(f, "bad script"),
            ScriptError::UnknownTag(tag) => write!(f, "unknown tag {tag}"),
        }
    }
}

// ---- fields

// A length of memory that a script gives, if it is not too long.
fn judged(n: u32) -> Result<usize, ScriptError>
    ensures ok { OnOk result (n ≤ 65536) }
    ensures value { IfOk result (λ size. size ≡ n) }
    ensures err { OnErr result (65536 < n) }
{
    if n > LONGEST_MEMORY {
        return Err(ScriptError::BadScript);
    }
    Ok(n as usize)
}

// Refuses a script of so many bytes, if they are too many.
fn fits(n: usize) -> Result<(), ScriptError>
    ensures ok { OnOk result (n ≤ 1048576) }
    ensures err { OnErr result (1048576 < n) }
{
    if n > LONGEST_SCRIPT {
        return Err(ScriptError::BadScript);
    }
    Ok(())
}

// What is left of a script. As an iterator it gives the operations in order. One that cannot be read ends the play: what stands behind it
// would be read as if it began there.
#[derive(Clone, Copy)]
pub struct Script<'a> {
    rest: &'a [u8],
}

impl<'a> Script<'a> {
    // What stands behind the head of a script, and how long the memory is that its device is made for. Magic and memory length are read before
    // the magic is judged, and the whole head before the length is: its last word says which wishes the writer knew, and nobody asks for it.
    pub fn open(bytes: &'a [u8]) -> Result<(Script<'a>, usize), ScriptError>
        ensures script { OnOk result (length bytes.now ≤ 1048576) }
        ensures memory { IfOk result (λ opened. opened.1 ≤ 65536) }
    {
        fits(bytes.len())?;
        let mut script = Script { rest: bytes };
        let magic = script.word()?;
        let length = script.word()?;
        if magic != MAGIC {
            return Err(ScriptError::BadScript);
        }
        script.word()?;
        Ok((script, judged(length)?))
    }

    // The next bytes, so many.
    fn bytes(&mut self, n: usize) -> Result<&'a [u8], ScriptError>
        ensures ok { IfOk result (λ bytes. bytes.now ++ self.new.rest.now ≡ self.old.rest.now) }
        ensures long { IfOk result (λ bytes. length bytes.now ≡ n) }
        ensures err { OnErr result (self.new.rest.now ≡ self.old.rest.now) }
    {
        let (bytes, rest) = self.rest.split_at_checked(n).ok_or(ScriptError::Truncated)?;
        self.rest = rest;
        Ok(bytes)
    }

    // The next bytes of a number.
    fn chunk<const N: usize>(&mut self) -> Result<[u8; N], ScriptError>
        ensures ok { IfOk result (λ bytes. bytes ++ self.new.rest.now ≡ self.old.rest.now) }
        ensures front { IfOk result (λ bytes. bytes ≡ take N self.old.rest.now) }
        ensures left { OnOk result (length self.new.rest.now + N ≡ length self.old.rest.now) }
        ensures err { OnErr result (self.new.rest.now ≡ self.old.rest.now) }
    {
        let (bytes, rest) = self
            .rest
            .split_first_chunk::<N>()
            .ok_or(ScriptError::Truncated)?;
        self.rest = rest;
        Ok(*bytes)
    }

    // The next number of one byte.
    fn byte(&mut self) -> Result<u8, ScriptError>
        ensures number { IfOk result (λ n. n ≡ slice_index self.old.rest.now 0) }
        ensures left { length self.new.rest.now ≤ length self.old.rest.now }
    {
        Ok(u8::from_le_bytes(self.chunk()?))
    }

    // The next number of two bytes.
    fn half(&mut self) -> Result<u16, ScriptError>
        ensures number { IfOk result (λ n. n ≡ from_le_bytes w16 (take 2 self.old.rest.now)) }
        ensures left { length self.new.rest.now ≤ length self.old.rest.now }
    {
        Ok(u16::from_le_bytes(self.chunk()?))
    }

    // The next number of four bytes.
    fn word(&mut self) -> Result<u32, ScriptError>
        ensures number { IfOk result (λ n. n ≡ from_le_bytes w32 (take 4 self.old.rest.now)) }
        ensures left { length self.new.rest.now ≤ length self.old.rest.now }
    {
        Ok(u32::from_le_bytes(self.chunk()?))
    }

    // The next bytes, with their number before them.
    fn counted(&mut self) -> Result<&'a [u8], ScriptError>
        ensures { length self.new.rest.now ≤ length self.old.rest.now }
    {
        let n = self.word()?;
        self.bytes(n as usize)
    }

    // A poke's place and bytes.
    fn poke(&mut self) -> Result<Operation<'a>, ScriptError>
        ensures { length self.new.rest.now ≤ length self.old.rest.now }
    {
        let address = self.word()? as usize;
        let bytes = self.counted()?;
        Ok(Operation::Poke { address, bytes })
    }

    // A write's register and value.
    fn write(&mut self) -> Result<Operation<'a>, ScriptError>
        ensures { length self.new.rest.now ≤ length self.old.rest.now }
    {
        let offset = self.word()?;
        let value = self.word()?;
        Ok(Operation::Write { offset, value })
    }

    // Whether the host's answer is good, and what it may run on.
    fn answer(&mut self) -> Result<(bool, u16), ScriptError>
        ensures { length self.new.rest.now ≤ length self.old.rest.now }
    {
        let is_good = self.byte()? == 1;
        let allowance = self.half()?;
        Ok((is_good, allowance))
    }

    // The length of a memory or a buffer.
    fn length(&mut self) -> Result<usize, ScriptError>
        ensures size { IfOk result (λ size. size ≤ 65536) }
        ensures left { length self.new.rest.now ≤ length self.old.rest.now }
    {
        let length = self.word()?;
        judged(length)
    }

    // A move's buffer and file; the file is read before the length is judged.
    fn movement(&mut self) -> Result<Operation<'a>, ScriptError>
        ensures size { IfOk result (λ operation. lent operation ≤ 65536) }
        ensures left { length self.new.rest.now ≤ length self.old.rest.now }
    {
        let length = self.word()?;
        let file = self.counted()?;
        let length = judged(length)?;
        Ok(Operation::Move { file, length })
    }

    // The operation of a tag from 8 on: one that is lent memory of its own, or is about a saved desk.
    fn later_operation(&mut self, tag: u8) -> Result<Operation<'a>, ScriptError>
        ensures size { IfOk result (λ operation. lent operation ≤ 65536) }
        ensures left { length self.new.rest.now ≤ length self.old.rest.now }
    {
        match tag {
            8 => {
                let allowance = self.half()?;
                let length = self.length()?;
                Ok(Operation::RunElsewhere { allowance, length })
            }
            9 => {
                let (is_good, allowance) = self.answer()?;
                let length = self.length()?;
                Ok(Operation::AnswerElsewhere {
                    is_good,
                    allowance,
                    length,
                })
            }
            10 => Ok(Operation::Save {
                form: Form::One,
                length: self.length()?,
            }),
            11 => Ok(Operation::Load {
                file: self.counted()?,
            }),
            12 => Ok(Operation::Save {
                form: Form::Two,
                length: self.length()?,
            }),
            13 => self.movement(),
            _ => Err(ScriptError::UnknownTag(tag)),
        }
    }

    // The operation of this tag, with the fields that stand next.
    fn operation(&mut self, tag: u8) -> Result<Operation<'a>, ScriptError>
        ensures { length self.new.rest.now ≤ length self.old.rest.now }
    {
        match tag {
            1 => self.poke(),
            2 => self.write(),
            3 => Ok(Operation::Read {
                offset: self.word()?,
            }),
            4 => Ok(Operation::Run {
                allowance: self.half()?,
            }),
            5 => Ok(Operation::Record {
                index: self.word()?,
            }),
            6 => {
                let (is_good, allowance) = self.answer()?;
                Ok(Operation::Answer { is_good, allowance })
            }
            7 => Ok(Operation::State),
            _ => self.later_operation(tag),
        }
    }
}

impl<'a> Iterator for Script<'a> {
    type Item = Result<Operation<'a>, ScriptError>;

    ghost remaining = { λ s. at_most (length s.rest.now) };

    fn next(&mut self) -> Option<Result<Operation<'a>, ScriptError>> {
        let (tag, rest) = self.rest.split_first()?;
        self.rest = rest;
        Some(self.operation(*tag))
    }
}
