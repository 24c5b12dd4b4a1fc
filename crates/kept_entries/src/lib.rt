// An entry as the guest's table has it and as a kept row of four words: id, flags, gpa, end.
#![tactic(auto)]

ghost use Rattle.std.specs.Prelude.{◌≡◌, ◌+◌, ◌-◌, ◌≤◌, ◌<◌, length};
ghost use Rattle.rules.specs.Layouts.{entry, entry_size};
ghost use Rattle.rules.specs.Numbers.{most};
ghost use Rattle.rules.specs.Table.{entry_id};
ghost use Rattle.rows.specs.Rows.{row_at};
ghost use Rattle.rows.specs.Keys.{place_of};
ghost use Rattle.kept_entries.specs.Views.{RowRead, entries_of};

use rules::Entry;

// A table of entries, 64 rows.
pub type Entries = [u64; 256];

// The words of a kept entry.
pub const WORDS: usize = 4;

// How far it is from one place up to another: nothing if that is below.
fn up_to(from: u64, to: u64) -> u64
    ensures { (result ≡ to - from) × (from + result < 18446744073709551616) }
{
    if to < from { 0 } else { to - from }
}

// The kept entry of row i. Its range ends below 2^64, whatever words stand there.
pub fn entry_row(entries: &Entries, i: usize) -> Entry
    requires { i < most }
    ensures { RowRead (row_at 4 entries.now i) result }
{
    let b = WORDS * i;
    let gpa = entries[b + 2];
    Entry {
        id: words::low32(entries[b]),
        flags: words::low32(entries[b + 1]),
        gpa,
        size: up_to(gpa, entries[b + 3]),
    }
}

// The place of the kept entry that has an id, if one has it.
pub fn find_entry(entries: &Entries, kept: usize, id: u32) -> Option<usize>
    requires { kept ≤ most }
    ensures { result ≡ place_of entry_id id (entries_of kept entries.now) }
{
    rows_finding::find_row(entries, WORDS, kept, id)
}

// Reads each field of an entry once.
pub fn entry_at(mem: &[u8], at: usize) -> Entry
    requires { at + entry_size ≤ length mem.now }
    ensures { result ≡ entry mem.now at }
{
    Entry {
        id: words::u32_at(mem, at),
        flags: words::u32_at(mem, at + 4),
        gpa: words::u64_at(mem, at + 8),
        size: words::u64_at(mem, at + 16),
    }
}
