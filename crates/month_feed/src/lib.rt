// Feeds a finished submission to the totals of a month (02, wish 13): its error, its units and its records, which are the first rows of a table.
#![tactic(auto)]

ghost use Rattle.std.specs.Prelude.{◌≡◌, true, ◌≤◌, ◌<◌};
ghost use Rattle.rules.specs.Numbers.{most, writes};
ghost use Rattle.kept_resources.specs.Views.{records_of};
ghost use Rattle.rules.specs.Month.{sum, greatest, every, length_in, listed_kind, good_feed};
ghost use Rattle.call_errors.specs.Answers.{answer_of};
ghost use Rattle.month_totals.specs.Views.{totals_in, Feeds};
ghost use Rattle.month_feed.specs.Views.{finished, within, good_error, only, place_of};

use call_errors::CallError;
use kept_records::{Records, record_row};
use month_totals::{LARGEST, READ, TotalsWords, UNITS, WORDS, WRITTEN, merge, reaches};
use rules::Record;
use rules::numbers::{BACKS, CLIPS, READS, WRITES};
use widths::{u32_to_usize, u32_to_word};

const FIRST_ERROR: u32 = 10;

const LAST_ERROR: u32 = 30;

// An error's number less the place of the word that counts it.
const BEFORE_PLACE: u32 = 9;

const MOST_RECORDS: u32 = 64;

// ---- records

fn is_listed(c: Record) -> bool
    ensures { result ≡ listed_kind c }
{
    matches!(c.kind, BACKS..=CLIPS)
}

// Whether every record is of a listed kind.
fn all_listed(records: &Records, count: usize) -> bool
    requires { count ≤ most }
    ensures { result ≡ every listed_kind (records_of count records.now) }
{
    (0..count).all(|i| is_listed(record_row(records, i)))
}

// The length of a record of this kind, 0 of any other.
fn length_of(kind: u32, c: Record) -> u64
    ensures { result ≡ length_in kind c }
{
    if c.kind == kind { c.length } else { 0 }
}

// The bytes of all records of a kind, if they stay below 2^64.
fn bytes(records: &Records, count: usize, kind: u32) -> Result<u64, CallError>
    requires { count ≤ most }
    ensures { result ≡ within (sum (length_in kind) (records_of count records.now)) }
{
    let mut total: u64 = 0;
    for i in 0..count {
        let n = length_of(kind, record_row(records, i));
        if reaches(total, n) {
            return Err(CallError::TooMuch);
        }
        total += n;
    }
    Ok(total)
}

// The largest write of one record.
fn largest(records: &Records, count: usize) -> u64
    requires { count ≤ most }
    ensures { result ≡ greatest (length_in writes) (records_of count records.now) }
{
    let mut top: u64 = 0;
    for i in 0..count {
        top = top.max(length_of(WRITES, record_row(records, i)));
    }
    top
}

// ---- a submission

// Whether none of the four causes of 10 holds. No row is read where there are too many.
fn is_good(error: u32, count: u32, records: &Records) -> bool
    ensures { result ≡ good_feed (finished error 0 count records.now) }
{
    match error {
        0 => count <= MOST_RECORDS && all_listed(records, u32_to_usize(count)),
        FIRST_ERROR..=LAST_ERROR => count == 0,
        _ => false,
    }
}

// The place of the word that counts submissions with this error, or accepted ones.
fn place(error: u32) -> usize
    requires { good_error error ≡ true }
    ensures { (result ≡ place_of error) × (result < 22) }
{
    if error == 0 {
        0
    } else {
        u32_to_usize(error - BEFORE_PLACE)
    }
}

// The totals of one submission.
fn single(error: u32, units: u32, read: u64, written: u64, top: u64) -> TotalsWords
    requires { good_error error ≡ true }
    ensures { totals_in result ≡ only error units read written top }
{
    let mut one: TotalsWords = [0; WORDS];
    let at = place(error);
    one[at] = 1;
    one[UNITS] = u32_to_word(units);
    one[READ] = read;
    one[WRITTEN] = written;
    one[LARGEST] = top;
    one
}

// Feeds one submission. A bad feed is one with an unlisted error or kind, more than 64 records, or records beside an error; else it is too
// much if a total would reach 2^64. Refused, it counts nothing.
pub fn feed(
    totals: &mut TotalsWords,
    error: u32,
    units: u32,
    count: u32,
    records: &Records,
) -> Result<(), CallError>
    ensures { Feeds totals.old (finished error units count records.now) (answer_of result) totals.new }
{
    if !is_good(error, count, records) {
        return Err(CallError::BadFeed);
    }
    let n = u32_to_usize(count);
    let read = bytes(records, n, READS)?;
    let written = bytes(records, n, WRITES)?;
    let one = single(error, units, read, written, largest(records, n));
    merge(totals, &one)
}
