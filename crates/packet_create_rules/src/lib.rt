// A resource is created: its handle, its backing and its range are judged in the order of the rules, then it is stored.
#![tactic(auto)]

ghost use Rattle.std.specs.Prelude.{List, ℕ, ◌≤◌};
ghost use Rattle.rules.specs.Numbers.{most};
ghost use Rattle.rules.specs.Packets.{backed, create_hosted, create_backed, create as create-rules};
ghost use Rattle.kept_entries.specs.Views.{entries_of};
ghost use Rattle.kept_resources.specs.Views.{holdings_of};
ghost use Rattle.packet_ranges.specs.Views.{Applies, RowsExist};
ghost use Rattle.packet_create_rules.specs.Backing.{store_backed};

use kept_entries::{Entries, entry_row, find_entry};
use kept_records::{Records, push_record};
use kept_resources::resources::{Resources, find_resource};
use kept_storing::push_resource;
use packet_ranges::applied::{Applied, refuse};
use rules::numbers::{BACKS, MOST_ROWS};
use rules::{Record, Refusal, Resource};
use widths::beyond;

// A host-backed resource asks for a row only. It makes no record, so any records stay as they are.
fn create_hosted(own: &mut Resources, live: usize, made: usize, r: Resource) -> Applied
    requires { (live ≤ most) × (made ≤ most) }
    ensures { (l : List ℕ) → Applies (create_hosted (holdings_of live own.old made l) r) result own.new l }
{
    if live >= MOST_ROWS {
        return refuse(Refusal::TooMany, live, made);
    }
    push_resource(own, live, r);
    Applied {
        verdict: Ok(()),
        live: live + 1,
        made,
    }
}

// A backed resource asks for a row and for a record's.
fn store_backed(
    own: &mut Resources,
    live: usize,
    records: &mut Records,
    made: usize,
    r: Resource,
    c: Record,
) -> Applied
    requires { (live ≤ most) × (made ≤ most) }
    ensures { Applies (store_backed (holdings_of live own.old made records.old) r c) result own.new records.new }
{
    if live >= MOST_ROWS {
        return refuse(Refusal::TooMany, live, made);
    }
    if made >= MOST_ROWS {
        return refuse(Refusal::TooMany, live, made);
    }
    push_resource(own, live, r);
    push_record(records, made, c);
    Applied {
        verdict: Ok(()),
        live: live + 1,
        made: made + 1,
    }
}

// A backed resource lies inside the entry with its id, and is handed out whole.
fn create_backed(
    entries: &Entries,
    kept: usize,
    own: &mut Resources,
    live: usize,
    records: &mut Records,
    made: usize,
    r: Resource,
) -> Applied
    requires { RowsExist kept live made }
    ensures { Applies (create_backed (entries_of kept entries.now)
        (holdings_of live own.old made records.old) r)
        result own.new records.new }
{
    let Some(place) = find_entry(entries, kept, r.backing) else {
        return refuse(Refusal::NotInTable, live, made);
    };
    let e = entry_row(entries, place);
    let offset = r.offset as u64;
    if beyond(offset, r.bytes, e.size) {
        return refuse(Refusal::PastEntry, live, made);
    }
    let c = Record {
        kind: BACKS,
        handle: r.handle,
        id: r.backing,
        gpa: e.gpa + offset,
        length: r.bytes,
    };
    store_backed(own, live, records, made, r, c)
}

// What buffers and textures share, once it is known whether the shape is good.
pub fn create(
    entries: &Entries,
    kept: usize,
    own: &mut Resources,
    live: usize,
    records: &mut Records,
    made: usize,
    good: bool,
    r: Resource,
) -> Applied
    requires { RowsExist kept live made }
    ensures { Applies (create-rules (entries_of kept entries.now)
        (holdings_of live own.old made records.old) good r)
        result own.new records.new }
{
    if r.handle == 0 {
        return refuse(Refusal::BadHandle, live, made);
    }
    if find_resource(own, live, r.handle).is_some() {
        return refuse(Refusal::BadHandle, live, made);
    }
    if !good {
        return refuse(Refusal::BadShape, live, made);
    }
    if r.backing == 0 {
        return create_hosted(own, live, made, r);
    }
    create_backed(entries, kept, own, live, records, made, r)
}
