// The resources of a good file, stored as rows of a device's table.
#![tactic(auto)]

ghost use Rattle.std.specs.Prelude.{◌≡◌, ◌+◌, ◌*◌, ◌≤◌, length};
ghost use Rattle.machine.specs.Machine.{pick};
ghost use Rattle.rules.specs.Numbers.{most};
ghost use Rattle.rules.specs.Shapes.{packed_size};
ghost use Rattle.rules.specs.Packets.{backed};
ghost use Rattle.rules.specs.Saved.{resource_bytes, head_bytes};
ghost use Rattle.rules.specs.Loaded.{loaded_resource, loaded_resources};
ghost use Rattle.rules.specs.declared.Form.TheVariants.{Two};
ghost use Rattle.saved_resources.specs.Rules.{furthest};
ghost use Rattle.kept_resources.specs.Views.{resources_of};
ghost use Rattle.saved_load_resources.specs.Loading.{resource_in};

use kept_resources::resources::Resources;
use kept_storing::push_resource;
use rules::numbers::BUFFER_KIND;
use rules::{Kind, Resource, Shape};
use saved_resources::{RESOURCE_BYTES, SavedResource, read_resource};
use texture_sizes::packed_size_of;
use widths::u32_to_usize;
use words::u64_at;

// A number that a resource keeps only where it is backed.
fn if_backed(backing: u32, n: u32) -> u32
    ensures { result ≡ pick (backed backing) n 0 }
{
    if backing == 0 {
        return 0;
    }
    n
}

// The bytes of a texture: those that it takes in guest memory, none where the host backs it.
fn texture_bytes(shape: Shape, pitch: u32, backing: u32) -> u64
    ensures { result ≡ pick (backed backing) (packed_size shape pitch) 0 }
{
    if backing == 0 {
        return 0;
    }
    packed_size_of(shape, pitch)
}

// The resource that some fields say, a buffer of this size or a texture.
fn resource_of(s: SavedResource, size: u64) -> Resource
    ensures { result ≡ resource_in s size }
{
    let offset = if_backed(s.backing, s.offset);
    if s.kind == BUFFER_KIND {
        return Resource {
            handle: s.handle,
            kind: Kind::Buffer,
            bytes: size,
            pitch: 0,
            backing: s.backing,
            offset,
            lowest: s.handle,
        };
    }
    let shape = s.shape;
    Resource {
        handle: s.handle,
        kind: Kind::Texture(shape),
        bytes: texture_bytes(shape, s.pitch, s.backing),
        pitch: if_backed(s.backing, s.pitch),
        backing: s.backing,
        offset,
        lowest: s.handle,
    }
}

// The resource whose fields stand from a place on.
fn resource_at(file: &[u8], at: u32) -> Resource
    requires { (at ≤ furthest) × (at + resource_bytes ≤ length file.now) }
    ensures { result ≡ loaded_resource file.now at }
{
    let size = u64_at(file, u32_to_usize(at) + 8);
    resource_of(read_resource(file, at), size)
}

// Stores so many resources, of which the first one's fields stand from a place on, in their order.
pub fn load_resources(resources: &mut Resources, file: &[u8], start: u32, count: usize)
    requires { (count ≤ most) × ((start ≤ head_bytes Two) × (start + resource_bytes * count ≤ length file.now)) }
    ensures { resources_of count resources.new ≡ loaded_resources count file.now start }
{
    let mut at: u32 = start;
    for i in 0..count {
        let r = resource_at(file, at);
        push_resource(resources, i, r);
        at += RESOURCE_BYTES;
    }
}
