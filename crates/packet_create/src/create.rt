// Create: a new resource, host-backed or within an entry of the table; a backed one is handed out as a record.
// The handle is looked up by one scan, the entry by another; nothing is copied.
ghost use Rattle.std.specs.Prelude.{◌≡◌};
ghost use Rattle.machine.specs.Machine.{pick};
ghost use Rattle.rules.specs.Packets.{backed, on_buffer_packet, on_texture_packet};
ghost use Rattle.kept_entries.specs.Views.{entries_of};
ghost use Rattle.kept_resources.specs.Views.{holdings_of};
ghost use Rattle.packet_ranges.specs.Views.{Applies, RowsExist};
ghost use Rattle.packet_create.specs.Create.{weighed};

use kept_entries::Entries;
use kept_records::Records;
use kept_resources::resources::Resources;
use packet_create_rules::create;
use packet_ranges::applied::Applied;
use rules::{CreateBuffer, CreateTexture, Kind, Resource};

// A number that a host-backed resource ignores, and keeps as 0.
fn backed_only(backing: u32, x: u32) -> u32
    ensures { result ≡ pick (backed backing) x 0 }
{
    if backing == 0 { 0 } else { x }
}

// A new buffer.
pub fn on_buffer(
    entries: &Entries,
    kept: usize,
    own: &mut Resources,
    live: usize,
    records: &mut Records,
    made: usize,
    c: CreateBuffer,
) -> Applied
    requires { RowsExist kept live made }
    ensures { Applies (on_buffer_packet (entries_of kept entries.now)
        (holdings_of live own.old made records.old) c)
        result own.new records.new }
{
    let good = c.size != 0;
    let r = Resource {
        handle: c.handle,
        kind: Kind::Buffer,
        bytes: c.size,
        pitch: 0,
        backing: c.backing,
        offset: backed_only(c.backing, c.offset),
        lowest: c.handle,
    };
    create(entries, kept, own, live, records, made, good, r)
}

// Weighs a texture: the bytes that it takes in guest memory, or none where its shape or its pitch is not good. One in guest memory has bytes exactly
// if both are; a host-backed one takes 0.
fn weigh(c: CreateTexture) -> Option<u64>
    ensures { result ≡ weighed c }
{
    let shape = c.shape;
    if c.backing == 0 {
        return if texture_shapes::good_shape(shape) {
            Some(0)
        } else {
            None
        };
    }
    let bytes = texture_sizes::packed_size_of(shape, c.pitch);
    if bytes == 0 { None } else { Some(bytes) }
}

// A new texture.
pub fn on_texture(
    entries: &Entries,
    kept: usize,
    own: &mut Resources,
    live: usize,
    records: &mut Records,
    made: usize,
    c: CreateTexture,
) -> Applied
    requires { RowsExist kept live made }
    ensures { Applies (on_texture_packet (entries_of kept entries.now)
        (holdings_of live own.old made records.old) c)
        result own.new records.new }
{
    let weight = weigh(c);
    let shape = c.shape;
    let r = Resource {
        handle: c.handle,
        kind: Kind::Texture(shape),
        bytes: weight.unwrap_or(0),
        pitch: backed_only(c.backing, c.pitch),
        backing: c.backing,
        offset: backed_only(c.backing, c.offset),
        lowest: c.handle,
    };
    create(entries, kept, own, live, records, made, weight.is_some(), r)
}
