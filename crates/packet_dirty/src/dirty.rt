// The dirty packet: a range of a backed resource that the host is to read again.
ghost use Rattle.rules.specs.Packets.{on_dirty_packet};
ghost use Rattle.kept_entries.specs.Views.{entries_of};
ghost use Rattle.kept_resources.specs.Views.{holdings_of};
ghost use Rattle.packet_ranges.specs.Views.{Applies, RowsExist};

use kept_entries::Entries;
use kept_records::Records;
use kept_resources::resources::{Resources, find_resource, resource_row};
use packet_ranges::applied::{Applied, refuse};
use packet_ranges::handout::{hand_out, resolve};
use rules::numbers::READS;
use rules::{DirtyRange, Refusal};
use widths::beyond;

// Applies a dirty packet, in place. The entry is this submission's, whatever table the resource was created with.
pub fn on_dirty(
    entries: &Entries,
    kept: usize,
    resources: &Resources,
    live: usize,
    records: &mut Records,
    made: usize,
    c: DirtyRange,
) -> Applied
    requires { RowsExist kept live made }
    ensures { Applies (on_dirty_packet (entries_of kept entries.now)
        (holdings_of live resources.now made records.old) c)
        result resources.now records.new }
{
    let Some(place) = find_resource(resources, live, c.handle) else {
        return refuse(Refusal::BadHandle, live, made);
    };
    let r = resource_row(resources, place);
    if r.backing == 0 {
        return refuse(Refusal::HostBacked, live, made);
    }
    if beyond(c.offset, c.size, r.bytes) {
        return refuse(Refusal::PastResource, live, made);
    }
    match resolve(entries, kept, READS, r, c.offset, c.size) {
        Err(why) => refuse(why, live, made),
        Ok((_, range)) => hand_out(records, made, live, range),
    }
}
