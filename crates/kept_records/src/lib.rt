// A record as a row of five words: kind, handle, id, GPA, length.
#![tactic(auto)]

ghost use Rattle.std.specs.Prelude.{◌≡◌, ◌+◌, ◌≤◌, ◌<◌};
ghost use Rattle.rules.specs.Numbers.{most};
ghost use Rattle.rules.specs.Lists.{pushed};
ghost use Rattle.rows.specs.Rows.{row_at};
ghost use Rattle.kept_resources.specs.Views.{record_of, records_of};

use rules::Record;
use widths::u32_to_word;

// A table of records, 64 rows.
pub type Records = [u64; 320];

// The words of a record.
pub const WORDS: usize = 5;

// The record of row i.
pub fn record_row(records: &Records, i: usize) -> Record
    requires { i < most }
    ensures { result ≡ record_of (row_at 5 records.now i) }
{
    let b = WORDS * i;
    Record {
        kind: words::low32(records[b]),
        handle: words::low32(records[b + 1]),
        id: words::low32(records[b + 2]),
        gpa: records[b + 3],
        length: records[b + 4],
    }
}

// One record more, after `made` others.
pub fn push_record(records: &mut Records, made: usize, c: Record)
    requires { made < most }
    ensures { records_of (made + 1) records.new ≡ pushed (records_of made records.old) c }
{
    let all = &records[..];
    let b = WORDS * made;
    records[b] = u32_to_word(c.kind);
    records[b + 1] = u32_to_word(c.handle);
    records[b + 2] = u32_to_word(c.id);
    records[b + 3] = c.gpa;
    records[b + 4] = c.length;
}
