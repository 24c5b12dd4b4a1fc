// The copy packet: bytes of one live buffer into another; with writeback the range of the destination is handed to the host.
ghost use Rattle.std.specs.Prelude.{◌≡◌, ◌≤◌};
ghost use Rattle.rules.specs.Numbers.{most};
ghost use Rattle.rules.specs.Lists.{lookup};
ghost use Rattle.rules.specs.Packets.{handle_of, on_copy_packet};
ghost use Rattle.kept_entries.specs.Views.{entries_of};
ghost use Rattle.kept_resources.specs.Views.{resources_of, holdings_of};
ghost use Rattle.packet_ranges.specs.Views.{Applies, RowsExist};
ghost use Rattle.packet_ranges.specs.Handout.{HandsOut};
ghost use Rattle.packet_copy.specs.Copy.{buffer_of, written_back, between};

use kept_entries::Entries;
use kept_records::Records;
use kept_resources::resources::{Resources, find_resource, resource_row};
use packet_ranges::applied::{Applied, refuse};
use packet_ranges::handout::{hand_out, resolve};
use rules::numbers::WRITES;
use rules::{CopyBuffer, Kind, Refusal, Resource};
use widths::beyond;

// The one flag of a copy, which asks for writeback.
const WRITEBACK: u32 = 1;

// Looks for the live buffer that has a handle.
fn live_buffer(resources: &Resources, live: usize, handle: u32) -> Option<Resource>
    requires { live ≤ most }
    ensures { result ≡ buffer_of (lookup handle_of handle (resources_of live resources.now)) }
{
    let Some(place) = find_resource(resources, live, handle) else {
        return None;
    };
    let r = resource_row(resources, place);
    match r.kind {
        Kind::Buffer => Some(r),
        Kind::Texture(_) => None,
    }
}

// Hands the range of the destination to the host, to be written.
fn write_back(
    entries: &Entries,
    kept: usize,
    records: &mut Records,
    made: usize,
    live: usize,
    c: CopyBuffer,
    dst: Resource,
) -> Applied
    requires { RowsExist kept live made }
    ensures { HandsOut (written_back (entries_of kept entries.now) c dst) live made records.old result records.new }
{
    if dst.backing == 0 {
        return refuse(Refusal::HostBacked, live, made);
    }
    match resolve(entries, kept, WRITES, dst, c.dstoffset, c.size) {
        Err(why) => refuse(why, live, made),
        Ok((flags, range)) => {
            if flags % 2 == 1 {
                return refuse(Refusal::ReadOnly, live, made);
            }
            hand_out(records, made, live, range)
        }
    }
}

// Judges a copy between two live buffers.
fn copy_between(
    entries: &Entries,
    kept: usize,
    records: &mut Records,
    made: usize,
    live: usize,
    c: CopyBuffer,
    dst: Resource,
    src: Resource,
) -> Applied
    requires { RowsExist kept live made }
    ensures { HandsOut (between (entries_of kept entries.now) c dst src) live made records.old result records.new }
{
    if c.dst == c.src {
        return refuse(Refusal::BadCopy, live, made);
    }
    if c.flags > WRITEBACK {
        return refuse(Refusal::BadCopy, live, made);
    }
    if beyond(c.dstoffset, c.size, dst.bytes) {
        return refuse(Refusal::PastResource, live, made);
    }
    if beyond(c.srcoffset, c.size, src.bytes) {
        return refuse(Refusal::PastResource, live, made);
    }
    if c.flags == WRITEBACK {
        return write_back(entries, kept, records, made, live, c, dst);
    }
    Applied {
        verdict: Ok(()),
        live,
        made,
    }
}

// Applies a copy packet, in place.
pub fn on_copy(
    entries: &Entries,
    kept: usize,
    resources: &Resources,
    live: usize,
    records: &mut Records,
    made: usize,
    c: CopyBuffer,
) -> Applied
    requires { RowsExist kept live made }
    ensures { Applies (on_copy_packet (entries_of kept entries.now)
        (holdings_of live resources.now made records.old) c)
        result resources.now records.new }
{
    match live_buffer(resources, live, c.dst) {
        None => refuse(Refusal::BadHandle, live, made),
        Some(dst) => match live_buffer(resources, live, c.src) {
            None => refuse(Refusal::BadHandle, live, made),
            Some(src) => copy_between(entries, kept, records, made, live, c, dst, src),
        },
    }
}
