// What the exports say, in numbers: a value beside an answer, what a run spent, a record in five words; and the number of the layout of what a
// host lends.
#![tactic(auto)]

ghost use Rattle.std.specs.Prelude.{◌≡◌, ◌≤◌, ◌<◌};
ghost use Rattle.rules.specs.Calls.{ended_number};
ghost use Rattle.std.specs.Result.{result_unwrap_or};
ghost use Rattle.call_errors.specs.Answers.{answer_of};
ghost use Rattle.export_numbers.specs.Numbers.{record_words, said_beside, said_long, said_spent};
ghost use Rattle.export_numbers.specs.Layout.{layout_number};

use call_errors::{CallError, answer};
use device_memory_calls::{NOTHING_SPENT, Spent};
use rules::{Ended, Record};
use widths::{u16_to_word, u32_to_word};

// An answer stands above the four bytes of the value beside it.
const ABOVE_VALUE: u64 = 4294967296;

// An answer stands above the seven bytes of the length beside it.
const ABOVE_LENGTH: u64 = 72057594037927936;

// How a run ended stands above its answer, and the units above that.
const ABOVE_ANSWER: u64 = 256;

const ABOVE_ENDED: u64 = 65536;

// A value, and 2^32 times the answer that it stands beside.
pub fn beside(value: u32, answer: u32) -> u64
    ensures { result ≡ said_beside value answer }
{
    u32_to_word(value) + ABOVE_VALUE * u32_to_word(answer)
}

// A length that may be no u32, and 2^56 times the answer that it stands beside.
pub fn beside_long(length: u64, answer: u32) -> u64
    requires { (length < 72057594037927936) × (answer < 256) }
    ensures { result ≡ said_long length answer }
{
    length + ABOVE_LENGTH * u32_to_word(answer)
}

// What a call gives in one number: its value, 0 beside a refusal, and 2^32 times its answer.
pub fn said_value(x: Result<u32, CallError>) -> u64
    ensures { result ≡ said_beside (result_unwrap_or x 0) (answer_of x) }
{
    beside(x.unwrap_or(0), answer(x))
}

// Idle 0, waiting 1, paused 2.
fn number_of(ended: Ended) -> u64
    ensures { (result ≡ ended_number ended) × (result ≤ 2) }
{
    match ended {
        Ended::Idle => 0,
        Ended::Waiting => 1,
        Ended::Paused => 2,
    }
}

// What was spent in one number: the call's answer, 2^8 times how it ended and 2^16 times the units.
pub fn said(x: Result<Spent, CallError>) -> u64
    ensures { result ≡ said_spent x }
{
    let spent = x.unwrap_or(NOTHING_SPENT);
    let ended = number_of(spent.ended);
    let units = u16_to_word(spent.units);
    u32_to_word(answer(x)) + (ABOVE_ANSWER * ended + ABOVE_ENDED * units)
}

// Says a record: kind, handle, id, GPA, length.
pub fn say_record(said: &mut [u64; 5], range: Record)
    ensures { said.new ≡ record_words range }
{
    let all = &said[..];
    let kind = u32_to_word(range.kind);
    let handle = u32_to_word(range.handle);
    let id = u32_to_word(range.id);
    said[0] = kind;
    said[1] = handle;
    said[2] = id;
    said[3] = range.gpa;
    said[4] = range.length;
}

// The layout: version 3, of 36 words of numbers, 256 of entries, 768 of each table of resources, 512 of each table of tokens and 320 of
// records.
const LAYOUT: u64 = 3468915218055168320;

// The layout's number.
pub fn layout() -> u64
    ensures { result ≡ layout_number }
{
    LAYOUT
}
