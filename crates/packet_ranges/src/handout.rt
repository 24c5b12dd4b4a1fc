// A range of a resource, handed to the host as a record: it lies inside its resource, inside its entry, and there is room.
// Dirty ranges and copies share these checks; sums are those of plain numbers and never wrap.
ghost use Rattle.std.specs.Prelude.{◌≡◌, ◌+◌, ◌≤◌, ltb};
ghost use Rattle.rules.specs.Numbers.{most};
ghost use Rattle.rules.specs.Table.{matching};
ghost use Rattle.rules.specs.Packets.{hand_out};
ghost use Rattle.kept_entries.specs.Views.{entries_of};
ghost use Rattle.packet_ranges.specs.Handout.{HandsOut, resolved_of};

use crate::applied::{Applied, refuse};
use kept_entries::{Entries, entry_row, find_entry};
use kept_records::{Records, push_record};
use rules::numbers::MOST_ROWS;
use rules::{Record, Refusal, Resource};
use widths::beyond;

// Whether a range of a resource ends beyond so many bytes of an entry, where the resource starts at an offset.
fn beyond_entry(offset: u64, from: u64, size: u64, bytes: u64) -> bool
    ensures { result ≡ ltb bytes (offset + (from + size)) }
{
    if size > bytes {
        return true;
    }
    beyond(offset, from, bytes - size)
}

// Holds a range of a backed resource against the entry that this table has for it: the backing offset is added. Gives the entry's flags, and
// the range as a record; or the rule that is broken, where the table has no such entry or the range ends beyond it.
pub fn resolve(
    entries: &Entries,
    kept: usize,
    kind: u32,
    r: Resource,
    from: u64,
    size: u64,
) -> Result<(u32, Record), Refusal>
    requires { kept ≤ most }
    ensures { result ≡ resolved_of kind r from size (matching r.backing (entries_of kept entries.now)) }
{
    let Some(i) = find_entry(entries, kept, r.backing) else {
        return Err(Refusal::NotInTable);
    };
    let e = entry_row(entries, i);
    let offset = r.offset as u64;
    if beyond_entry(offset, from, size, e.size) {
        return Err(Refusal::PastEntry);
    }
    let range = Record {
        kind,
        handle: r.handle,
        id: r.backing,
        gpa: e.gpa + (offset + from),
        length: size,
    };
    Ok((e.flags, range))
}

// Hands a range to the host, if it has bytes: one record more, for which there must be room.
pub fn hand_out(records: &mut Records, made: usize, live: usize, c: Record) -> Applied
    requires { (live ≤ most) × (made ≤ most) }
    ensures { HandsOut (hand_out c) live made records.old result records.new }
{
    if c.length == 0 {
        return Applied {
            verdict: Ok(()),
            live,
            made,
        };
    }
    if made >= MOST_ROWS {
        return refuse(Refusal::TooMany, live, made);
    }
    push_record(records, made, c);
    Applied {
        verdict: Ok(()),
        live,
        made: made + 1,
    }
}
