// The phase of packets: one a unit, from the stream's own part of the memory lent at that unit. It is left at a packet that needs tokens: few do,
// and so the loop over the others has nothing of tokens in it.
// What each packet passes is inlined, so that its enums stay in registers.
#![tactic(auto)]

ghost use Rattle.std.specs.Prelude.{◌≡◌, ◌+◌, ◌-◌, ◌≤◌, ◌<◌, length};
ghost use Rattle.packet_ranges.specs.Views.{RowsExist};
ghost use Rattle.run_entries.specs.declared.ending.Ending.TheVariants.{Going};
ghost use Rattle.run_packets.specs.Playing.{place_after, PacketTook, PacketStepped, Skips, PacketsRan};

use kept_entries::Entries;
use kept_records::Records;
use kept_resources::resources::Resources;
use packet_apply::apply::{Taken, apply_packet};
use packet_held::held::{Changed, Held, SharedPacket};
use rules::Packet;
use run_entries::ending::{Ending, ending_at};
use stream_packets::framing::{packet_at, unknown_size};
use widths::u32_to_usize;

// Where the packets stand: the place in the stream, what is held, and how the phase stands.
#[derive(Clone, Copy)]
pub struct PacketsPlace {
    pub at: usize,
    pub held: Held,
    pub ending: Ending,
}

// A packet that is left, and where the next one stands.
#[derive(Clone, Copy)]
pub struct Left {
    pub next: usize,
    pub packet: SharedPacket,
}

// Where the packets stand after some units, how many those were, and the packet at the place if it is left: then its unit is counted and yet to be
// done, and the place's ending is that the loop over the others was left.
#[derive(Clone, Copy)]
pub struct PacketsRun {
    pub place: PacketsPlace,
    pub units: u16,
    pub left: Option<Left>,
}

// The place after a packet of the stream: the next one, the end, or where it was refused.
#[inline(always)]
pub fn place_after(at: usize, next: usize, end: usize, x: Changed) -> PacketsPlace
    ensures { result ≡ place_after at next end x }
{
    let held = x.held;
    match x.verdict {
        Ok(()) => PacketsPlace {
            at: next,
            held,
            ending: ending_at(next, end),
        },
        Err(why) => PacketsPlace {
            at,
            held,
            ending: Ending::Broken(why),
        },
    }
}

// The place after a unit, whether its packet is one that nobody knows, which is a hint and nothing is said of it, and what is left.
#[derive(Clone, Copy)]
struct Stepped {
    place: PacketsPlace,
    unknown: bool,
    left: Option<Left>,
}

// A packet that was read: the place after it, or that it is left.
#[inline(always)]
fn take_packet(
    entries: &Entries,
    kept: usize,
    resources: &Resources,
    own: &mut Resources,
    records: &mut Records,
    at: usize,
    next: usize,
    end: usize,
    h: Held,
    packet: Packet,
) -> Stepped
    requires { RowsExist kept h.live h.made }
    ensures { PacketTook end kept
        (record { entries = entries.now; resources = resources.now; own = own.old; records = records.old })
        at next h packet result.place result.left
        (record { entries = entries.now; resources = resources.now; own = own.new; records = records.new }) }
{
    match apply_packet(entries, kept, resources, own, records, h, packet) {
        Taken::Plain(x) => Stepped {
            place: place_after(at, next, end, x),
            unknown: false,
            left: None,
        },
        Taken::Unknown(held) => Stepped {
            place: place_after(
                at,
                next,
                end,
                Changed {
                    verdict: Ok(()),
                    held,
                },
            ),
            unknown: true,
            left: None,
        },
        Taken::Left(held, packet) => Stepped {
            place: PacketsPlace {
                at,
                held,
                ending: Ending::Left,
            },
            unknown: false,
            left: Some(Left { next, packet }),
        },
    }
}

// One unit: the packet at the place.
#[inline(always)]
fn step_packet(
    stream: &[u8],
    end: usize,
    entries: &Entries,
    kept: usize,
    resources: &Resources,
    own: &mut Resources,
    records: &mut Records,
    p: PacketsPlace,
) -> Stepped
    requires { RowsExist kept p.held.live p.held.made }
    ensures { PacketStepped stream.now end kept
        (record { entries = entries.now; resources = resources.now; own = own.old; records = records.old })
        p result.place result.left
        (record { entries = entries.now; resources = resources.now; own = own.new; records = records.new }) }
{
    let at = p.at;
    let held = p.held;
    match packet_at(stream, at) {
        Err(why) => Stepped {
            place: PacketsPlace {
                at,
                held,
                ending: Ending::Broken(why),
            },
            unknown: false,
            left: None,
        },
        Ok((size, packet)) => {
            let next = at + u32_to_usize(size);
            take_packet(
                entries, kept, resources, own, records, at, next, end, held, packet,
            )
        }
    }
}

// A place of the stream that packets before it begin below the end and have their header.
fn inner_bound(stream: &[u8], end: usize) -> usize
    ensures { (result ≤ length stream.now - 7) × (result ≤ end) }
{
    let long = stream.len();
    if long < 7 {
        return 0;
    }
    let last = long - 7;
    if end < last {
        return end;
    }
    last
}

// Where a row of unknown packets was left, and the units spent by then.
#[derive(Clone, Copy)]
struct Skipped {
    at: usize,
    units: u16,
}

// Goes over packets that we do not know, a unit each, up to the first that a step has to look at. It is a loop of its own so that
// nothing of what other packets need is kept in it.
fn skip_unknown(stream: &[u8], bound: usize, from: usize, spent: u16, allowance: u16) -> Skipped
    requires { (bound ≤ length stream.now - 7) × (spent ≤ allowance) }
    ensures { Skips stream.now bound from spent allowance result }
{
    let mut at = from;
    if at >= bound {
        return Skipped { at, units: spent };
    }
    let mut room = bound - at;
    for units in spent..allowance {
        let size = unknown_size(stream, at, room);
        if size == 0 {
            return Skipped { at, units };
        }
        at += size;
        room -= size;
    }
    Skipped {
        at,
        units: allowance,
    }
}

// Packets, one a unit, until the allowance is spent, the stream is done, a rule is broken or a packet is left. `resources` is the device's
// table of resources, `own` the submission's own.
#[inline(always)]
pub fn read_packets(
    stream: &[u8],
    end: usize,
    entries: &Entries,
    kept: usize,
    resources: &Resources,
    own: &mut Resources,
    records: &mut Records,
    from: PacketsPlace,
    allowance: u16,
) -> PacketsRun
    requires { RowsExist kept from.held.live from.held.made × (from.ending ≡ Going) }
    ensures { PacketsRan stream.now end kept
        (record { entries = entries.now; resources = resources.now; own = own.old; records = records.old })
        from allowance result
        (record { entries = entries.now; resources = resources.now; own = own.new; records = records.new }) }
{
    let bound = inner_bound(stream, end);
    let mut p = from;
    let mut units: u16 = 0;
    while units < allowance {
        let t = step_packet(stream, end, entries, kept, resources, own, records, p);
        p = t.place;
        units += 1;
        let Ending::Going = p.ending else {
            return PacketsRun {
                place: p,
                units,
                left: t.left,
            };
        };
        if t.unknown {
            let s = skip_unknown(stream, bound, p.at, units, allowance);
            p.at = s.at;
            units = s.units;
        }
    }
    PacketsRun {
        place: p,
        units,
        left: None,
    }
}
