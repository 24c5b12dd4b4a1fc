// The totals of a month (02, wish 13) as 26 words, in the published order: accepted, refused with 10 to 30, units, bytes read and bytes
// written, which are sums, and the largest write. Any 26 words are some totals.
#![tactic(auto)]

ghost use Rattle.std.specs.Prelude.{◌≡◌, true, not, ◌+◌, take, get_or};
ghost use Rattle.rules.specs.Lists.{over};
ghost use Rattle.rules.specs.Month.{small, below, joined, added};
ghost use Rattle.call_errors.specs.Answers.{answer_of};
ghost use Rattle.month_totals.specs.Views.{totals_in, Zeroes, Merges};

use call_errors::CallError;
use widths::{beyond, u32_to_usize};

pub type TotalsWords = [u64; 26];

pub const WORDS: usize = 26;

// The words that are sums.
const SUMS: usize = 25;

// ---- places, after those of accepted and of the errors

pub const UNITS: usize = 22;

pub const READ: usize = 23;

pub const WRITTEN: usize = 24;

pub const LARGEST: usize = 25;

// 2^64 - 1, the greatest total.
const MOST: u64 = 18446744073709551615;

// Whether the sum of two numbers would reach 2^64: the one test of that limit. The sum itself is not made.
pub fn reaches(a: u64, b: u64) -> bool
    ensures { result ≡ not (small (a + b)) }
{
    beyond(a, b, MOST)
}

// Makes the totals of no submissions, whatever the words were.
pub fn zero(totals: &mut TotalsWords)
    ensures { Zeroes totals.new }
{
    *totals = [0; WORDS];
}

// Whether every sum of two totals stays below 2^64.
fn fit(a: &TotalsWords, b: &TotalsWords) -> bool
    ensures { result ≡ below (joined (totals_in a.now) (totals_in b.now)) }
{
    a[..SUMS]
        .iter()
        .zip(&b[..SUMS])
        .all(|(x, y)| !reaches(*x, *y))
}

// Adds the sums of the second totals, which fit, to those of the first.
fn add(a: &mut TotalsWords, b: &TotalsWords)
    requires { below (joined (totals_in a.old) (totals_in b.now)) ≡ true }
    ensures { a.new ≡ over 0 (added (take 25 a.old) (take 25 b.now)) a.old }
{
    for i in 0..SUMS {
        a[i] += b[i];
    }
}

// Adds the second totals to the first, but too much where a sum would reach 2^64; then the first are unchanged.
pub fn merge(a: &mut TotalsWords, b: &TotalsWords) -> Result<(), CallError>
    ensures { Merges a.old (totals_in b.now) (answer_of result) a.new }
{
    if !fit(a, b) {
        return Err(CallError::TooMuch);
    }
    add(a, b);
    a[LARGEST] = a[LARGEST].max(b[LARGEST]);
    Ok(())
}

// The total at a place of the published order, 0 past the last.
pub fn total(totals: &TotalsWords, i: u32) -> u64
    ensures { result ≡ get_or totals.now i 0 }
{
    totals.get(u32_to_usize(i)).copied().unwrap_or(0)
}
