// One entry of a table: read once, judged, and kept as a row of four words: id, flags, gpa, end.
// The kept rows are what later packets resolve their ids against.
ghost use Rattle.std.specs.Prelude.{◌≡◌, ◌+◌, ◌-◌, ◌≤◌, ◌<◌};
ghost use Rattle.rules.specs.Layouts.{entry};
ghost use Rattle.rules.specs.Lists.{pushed};
ghost use Rattle.rules.specs.Numbers.{most};
ghost use Rattle.rules.specs.Table.{entry_rules, take_entry};
ghost use Rattle.kept_entries.specs.Views.{entries_of, taken_of};
ghost use Rattle.table_entries.specs.Entry.{sound as sound-entry};

use kept_entries::{Entries, WORDS, entry_at, find_entry};
use rules::numbers::MOST_ROWS;
use rules::{Entry, Refusal, Table};
use table_header::header::{ENTRY_SIZE, entry_offset};
use widths::{beyond, u32_to_word};

// Whether an entry is good by itself: it has an id and bytes, and they lie within memory.
pub fn sound(memory: u64, e: Entry) -> bool
    ensures { result ≡ sound-entry memory e }
{
    if e.id == 0 {
        return false;
    }
    if e.size == 0 {
        return false;
    }
    !beyond(e.gpa, e.size, memory)
}

// Judges an entry that was read, after `kept` that were kept.
pub fn judge_entry(memory: u64, e: Entry, entries: &Entries, kept: usize) -> Result<(), Refusal>
    requires { kept ≤ most }
    ensures { result ≡ entry_rules memory (entries_of kept entries.now) e }
{
    if !sound(memory, e) {
        return Err(Refusal::BadEntry);
    }
    if find_entry(entries, kept, e.id).is_some() {
        return Err(Refusal::TwiceInTable);
    }
    Ok(())
}

// Keeps an entry after `kept` others.
fn push_entry(entries: &mut Entries, kept: usize, e: Entry)
    requires { (kept < most) × (e.gpa + e.size < 18446744073709551616) }
    ensures { entries_of (kept + 1) entries.new ≡ pushed (entries_of kept entries.old) e }
{
    // costs nothing, and says how many words there are
    let all = &entries[..];
    let b = WORDS * kept;
    entries[b] = u32_to_word(e.id);
    entries[b + 1] = u32_to_word(e.flags);
    entries[b + 2] = e.gpa;
    entries[b + 3] = e.gpa + e.size;
}

// One step: judges the entry after the `kept` kept ones, over the memory lent at this step, and keeps it if it is fine.
pub fn take_entry(mem: &[u8], t: Table, entries: &mut Entries, kept: usize) -> Result<(), Refusal>
    requires { kept ≤ most }
    ensures { taken_of result kept entries.new ≡ take_entry mem.now t (entries_of kept entries.old) }
{
    let memory = mem.len() as u64;
    if kept >= MOST_ROWS {
        return Err(Refusal::BadEntry);
    }
    let offset = entry_offset(t.stride, kept as u32);
    if beyond(t.gpa, offset + ENTRY_SIZE, memory) {
        return Err(Refusal::BadEntry);
    }
    let e = entry_at(mem, (t.gpa + offset) as usize);
    match judge_entry(memory, e, entries, kept) {
        Ok(()) => {
            push_entry(entries, kept, e);
            Ok(())
        }
        Err(why) => Err(why),
    }
}
