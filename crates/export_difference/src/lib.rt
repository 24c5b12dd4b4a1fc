// What the exports about two dumps say, in numbers: an answer beside one word, a pair in five words, a cursor in two.
#![tactic(auto)]

ghost use Rattle.std.specs.Prelude.{◌≡◌, [], ◌∷◌};
ghost use Rattle.rules.specs.Judging.{error_number};
ghost use Rattle.export_difference.specs.Numbers.{class_number, said_is, said_none, said_refused, Says, checked_said, place_said, found_said, class_said, cursor_in, cursor_words, pair_words, SaysStart};

use refusals::number;
use rules::{Class, Cursor, Pair, RefusedStream};
use widths::{u32_to_word, usize_to_word, word_to_usize};

// The answers: what was asked for is said, or there is none.
const IS: u32 = 0;

const NONE: u32 = 1;

// The number of a class.
fn class_number(class: Class) -> u64
    ensures { result ≡ class_number class }
{
    match class {
        Class::Equal => 0,
        Class::SameOpcode => 1,
        Class::OtherOpcode => 2,
        Class::OnlyFirst => 3,
        Class::OnlySecond => 4,
        Class::Neither => 5,
    }
}

fn say(said: &mut [u64; 1], value: u64)
    ensures { said.new ≡ value ∷ [] }
{
    let all = &said[..];
    said[0] = value;
}

// Says that there is none.
fn say_none(said: &mut [u64; 1]) -> u32
    ensures { Says said_none result said.new }
{
    say(said, 0);
    NONE
}

// Says a number that was asked for.
fn say_number(said: &mut [u64; 1], value: usize) -> u32
    ensures { Says (said_is value) result said.new }
{
    say(said, usize_to_word(value));
    IS
}

// Says a refusal: which stream it is, beside the number of the rule that it breaks.
fn say_refused(said: &mut [u64; 1], refused: RefusedStream) -> u32
    ensures { Says (said_refused (error_number refused.why) refused.which) result said.new }
{
    say(said, u32_to_word(refused.which));
    number(refused.why)
}

// Says whether two streams are valid.
pub fn say_checked(said: &mut [u64; 1], x: Result<(), RefusedStream>) -> u32
    ensures { Says (checked_said x) result said.new }
{
    match x {
        Ok(()) => say_number(said, 0),
        Err(refused) => say_refused(said, refused),
    }
}

fn say_class_number(said: &mut [u64; 1], x: Class) -> u32
    ensures { Says (said_is (class_number x)) result said.new }
{
    say(said, class_number(x));
    IS
}

// Says how the packets with an index compare.
pub fn say_class(said: &mut [u64; 1], x: Result<Class, RefusedStream>) -> u32
    ensures { Says (class_said x) result said.new }
{
    match x {
        Ok(class) => say_class_number(said, class),
        Err(refused) => say_refused(said, refused),
    }
}

// Says a place, or that there is none.
pub fn say_place(said: &mut [u64; 1], x: Option<usize>) -> u32
    ensures { Says (place_said x) result said.new }
{
    match x {
        Some(i) => say_number(said, i),
        None => say_none(said),
    }
}

// Says a place that was asked for: where two streams part, or the next differing offset.
pub fn say_found(said: &mut [u64; 1], x: Result<Option<usize>, RefusedStream>) -> u32
    ensures { Says (found_said x) result said.new }
{
    match x {
        Ok(o) => say_place(said, o),
        Err(refused) => say_refused(said, refused),
    }
}

// The cursor in two words.
pub fn cursor_in(words: &[u64; 2]) -> Cursor
    ensures { result ≡ cursor_in words.now }
{
    Cursor {
        first: word_to_usize(words[0]),
        second: word_to_usize(words[1]),
    }
}

// Puts a cursor in two words.
pub fn put_cursor(words: &mut [u64; 2], cursor: Cursor)
    ensures { words.new ≡ cursor_words cursor }
{
    let all = &words[..];
    let first = usize_to_word(cursor.first);
    let second = usize_to_word(cursor.second);
    words[0] = first;
    words[1] = second;
}

// Says how a walk begins; a refusal leaves the cursor's words.
pub fn say_start(
    cursor: &mut [u64; 2],
    said: &mut [u64; 1],
    x: Result<Cursor, RefusedStream>,
) -> u32
    ensures { SaysStart x cursor.old result cursor.new said.new }
{
    match x {
        Ok(k) => {
            put_cursor(cursor, k);
            say_number(said, 0)
        }
        Err(refused) => say_refused(said, refused),
    }
}

// Says a pair: the number of its class, then place and size of each packet.
pub fn say_pair(said: &mut [u64; 5], x: Pair)
    ensures { said.new ≡ pair_words x }
{
    let all = &said[..];
    let class = x.class;
    let number = class_number(class);
    let first = usize_to_word(x.first);
    let firstsize = usize_to_word(x.firstsize);
    let second = usize_to_word(x.second);
    let secondsize = usize_to_word(x.secondsize);
    said[0] = number;
    said[1] = first;
    said[2] = firstsize;
    said[3] = second;
    said[4] = secondsize;
}
