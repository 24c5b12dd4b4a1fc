// A line made of a pattern and numbers: each byte of the pattern is written as it is, and each of its marks as the next number.
// `%` is a number in decimal, `#` its eight hexadecimal digits, `~` a word as a signed number in decimal.
#![tactic(auto)]

ghost use Rattle.std.specs.Prelude.{◌≡◌, ◌+◌, ◌≤◌, suc, length, get_or};
ghost use Rattle.rules.specs.Layouts.{signed};
ghost use Rattle.rules.specs.Text.{signed_decimal};
ghost use Rattle.text_numbers.specs.Writing.{Puts};
ghost use Rattle.text_filling.specs.Filling.{less_than_zero, takes as Takes-of, piece, filled};

use text_numbers::{put_decimal, put_hex};

// The first word that is negative as a signed number, and the last.
const FIRST_NEGATIVE: u64 = 2147483648;

const LAST_WORD: u64 = 4294967295;

// By how much a word from 2^31 on is below 0 as a signed number; a number beyond the last word counts as the last.
fn below_zero(word: u64) -> u64
    ensures { result ≡ less_than_zero word }
{
    LAST_WORD.saturating_sub(word) + 1
}

// Writes a word as a signed number.
fn put_signed(out: &mut [u8], at: usize, word: u64) -> usize
    requires { at + length (signed_decimal (signed word)) ≤ length out.old }
    ensures { Puts at (signed_decimal (signed word)) out.old result out.new }
{
    if word < FIRST_NEGATIVE {
        return put_decimal(out, at, word);
    }
    out[at] = b'-';
    put_decimal(out, at + 1, below_zero(word))
}

// How many numbers a byte of a pattern takes.
fn takes(c: u8) -> usize
    ensures { result ≡ Takes-of c }
{
    match c {
        b'%' | b'#' | b'~' => 1,
        _ => 0,
    }
}

// Writes what a byte of a pattern says, and gives the place behind it.
fn put_piece(out: &mut [u8], at: usize, c: u8, v: u64) -> usize
    requires { at + length (piece c v) ≤ length out.old }
    ensures { Puts at (piece c v) out.old result out.new }
{
    match c {
        b'%' => put_decimal(out, at, v),
        b'#' => put_hex(out, at, 8, v),
        b'~' => put_signed(out, at, v),
        _ => {
            out[at] = c;
            at + 1
        }
    }
}

// The number at a place, 0 behind the last.
fn number_at(numbers: &[u64], i: usize) -> u64
    ensures { result ≡ get_or numbers.now i 0 }
{
    numbers.get(i).copied().unwrap_or(0)
}

// Writes a pattern with its numbers, and gives the place behind it.
pub fn fill(out: &mut [u8], at: usize, pattern: &[u8], numbers: &[u64]) -> usize
    requires { at + length (filled pattern.now numbers.now) ≤ length out.old }
    ensures { Puts at (filled pattern.now numbers.now) out.old result out.new }
{
    let mut end = at;
    let mut next: usize = 0;
    for &c in pattern {
        let taken = takes(c);
        if taken == 0 {
            out[end] = c;
            end += 1;
            continue;
        }
        end = put_piece(out, end, c, number_at(numbers, next));
        next += taken;
    }
    end
}
