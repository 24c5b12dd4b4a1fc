// What differs between two dumps: reads the length of the first, the first and the second from standard input, and prints the report. One pass
// over both: a cursor goes from packet to packet.
#![tactic(auto)]

ghost use Rattle.std.specs.Prelude.{◌≡◌, ◌+◌, ◌≤◌, ◌++◌, length, IfSome, Some, codes};
ghost use Rattle.std.specs.Fmt.{decimal};

use diff_calls::{next_at, onward, pair_at, parts};
use program_lines::read_front;
use refusals::number;
use rules::{Class, Cursor, RefusedStream};
use std::{fmt, io};

// The most bytes of a stream, and so of offsets in a packet and of packets.
const LONGEST: usize = 65536;

// The most bytes of an input, and one more: a longer input has a stream that is too long.
const ROOM: u64 = 131077;

// ---- the questions

// The line of a stream that is refused, the first or the second, and the number of the rule that it breaks.
#[derive(Clone, Copy)]
struct Refused {
    code: u32,
    stream: u32,
}

impl fmt::Display for Refused {
    ghost output = { λ r. Some (codes "refused=" ++ decimal r.code ++ codes " stream=" ++ decimal r.stream) };

    fn fmt<W: fmt::Write>(&self, f: &mut fmt::Formatter<W>) -> fmt::Result {
        write!(f, "refused={} stream={}", self.code, self.stream)
    }
}

// Where two streams part, and a cursor at their first packets.
fn begin(first: &[u8], second: &[u8]) -> Result<(Option<usize>, Cursor), RefusedStream> {
    Ok((parts(first, second)?, diff_calls::start(first, second)?))
}

// The differing offsets of the packets at a cursor, with commas between them.
#[derive(Clone, Copy)]
struct Offsets<'a> {
    first: &'a [u8],
    second: &'a [u8],
    cursor: Cursor,
}

impl fmt::Display for Offsets<'_> {
    fn fmt<W: fmt::Write>(&self, f: &mut fmt::Formatter<W>) -> fmt::Result {
        let mut from = 0usize;
        for k in 0..LONGEST {
            let Some(j) = next_at(self.first, self.second, self.cursor, from) else {
                return Ok(());
            };
            let comma = if k == 0 { "" } else { "," };
            write!(f, "{comma}{j}")?;
            from = j.saturating_add(1);
        }
        Ok(())
    }
}

// ---- the report

// A line for each packet index, to the end of the longer stream.
fn say_pairs(rt: &impl Print, first: &[u8], second: &[u8], start: Cursor) {
    let mut cursor = start;
    for i in 0..LONGEST {
        let _ = match pair_at(first, second, cursor).class {
            Class::Neither => return,
            Class::Equal => println!(rt; "{i} equal"),
            Class::SameOpcode => {
                let offsets = Offsets {
                    first,
                    second,
                    cursor,
                };
                println!(rt; "{i} same_opcode offsets={offsets}")
            }
            Class::OtherOpcode => println!(rt; "{i} other_opcode"),
            Class::OnlyFirst => println!(rt; "{i} only_first"),
            Class::OnlySecond => println!(rt; "{i} only_second"),
        };
        cursor = onward(first, second, cursor);
    }
}

// The first packet index that is not equal, and the line of each pair; or the refusal.
fn report(rt: &impl Print, first: &[u8], second: &[u8]) {
    match begin(first, second) {
        Err(refused) => {
            let line = Refused {
                code: number(refused.why),
                stream: refused.which,
            };
            let _ = println!(rt; "{line}");
        }
        Ok((parting, cursor)) => {
            let _ = match parting {
                None => println!(rt; "first=none"),
                Some(i) => println!(rt; "first={i}"),
            };
            say_pairs(rt, first, second, cursor);
        }
    }
}

// ---- the input

// How much of an input is read.
fn input_room() -> u64
    ensures { 131077 ≡ result }
{
    ROOM
}

// The two streams of an input; none where it ends too early, or where one of them is too long.
fn streams(input: &[u8]) -> Option<(&[u8], &[u8])>
    ensures whole { IfSome result (λ both. length both.0.now + length both.1.now + 4 ≡ length input.now) }
    ensures first { IfSome result (λ both. length both.0.now ≤ LONGEST) }
    ensures second { IfSome result (λ both. length both.1.now ≤ LONGEST) }
{
    let (length, rest) = input.split_first_chunk::<4>()?;
    let (first, second) = rest.split_at_checked(u32::from_le_bytes(*length) as usize)?;
    if first.len() > LONGEST || second.len() > LONGEST {
        return None;
    }
    Some((first, second))
}

// A line that cannot be printed is passed over; the run goes on to its end, and the status is 0 all the same.
fn say_difference(rt: &impl Print, input: &[u8]) {
    match streams(input) {
        Some((first, second)) => report(rt, first, second),
        None => {
            let _ = println!(rt; "bad input");
        }
    }
}

fn main(rt: HostRuntime) -> io::Result<()> {
    let input = read_front(rt.alloc(), rt.reader(), input_room())?;
    say_difference(&rt, input.as_slice());
    Ok(())
}
