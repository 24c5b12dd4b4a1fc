// The month in numbers (02, wish 13), over totals that the host owns: 26 words in the published order, which is accepted, refused with 10 to 30,
// units, bytes read, bytes written and the largest write. Any 26 words are some totals; `zelezmut_month_make` makes those of no submissions.
ghost use Rattle.std.specs.Prelude.{◌≡◌, get_or};
ghost use Rattle.month_totals.specs.Views.{totals_in, Zeroes, Merges, Feeds};
ghost use Rattle.month_feed.specs.Views.{finished};

use call_errors::answer;
use kept_records::Records;
use month_totals::TotalsWords;

// Makes the totals of no submissions.
pub fn zelezmut_month_make(totals: &mut TotalsWords)
    ensures { Zeroes totals.new }
{
    month_totals::zero(totals);
}

// Feeds a finished submission: its error, its units, and as its records the first rows of a table, each of five words in the order of
// `zelezmut_record`. The table may be the device's own, as it is while the submission waits, or one that the host has filled; only kind and
// length are read. Answers 0; 10 for an unlisted error or kind, more than 64 records, or records beside an error; else 9 if a total would
// reach 2^64. Refused, it counts nothing.
pub fn zelezmut_month_feed(
    totals: &mut TotalsWords,
    error: u32,
    units: u32,
    count: u32,
    records: &Records,
) -> u32
    ensures { Feeds totals.old (finished error units count records.now) result totals.new }
{
    answer(month_feed::feed(totals, error, units, count, records))
}

// Adds the totals of another part of the month. Answers 0, or 9 if a sum would reach 2^64; then the totals are unchanged.
pub fn zelezmut_month_merge(totals: &mut TotalsWords, other: &TotalsWords) -> u32
    ensures { Merges totals.old (totals_in other.now) result totals.new }
{
    answer(month_totals::merge(totals, other))
}

// The total at a place of the published order, 0 past the last.
pub fn zelezmut_month_total(totals: &TotalsWords, i: u32) -> u64
    ensures { result ≡ get_or totals.now i 0 }
{
    month_totals::total(totals, i)
}
