// Section 2 of a saved desk: twelve fields for each resource, by rising handle.
ghost use Rattle.std.specs.Prelude.{◌≡◌, ◌+◌, ◌*◌, ◌≤◌, length};
ghost use Rattle.rules.specs.Lists.{over};
ghost use Rattle.rules.specs.Numbers.{most};
ghost use Rattle.rules.specs.Saved.{resource_bytes, resource_fields, file_of};
ghost use Rattle.saved_order.specs.Orders.{Rows, resources_listed};
ghost use Rattle.saved_write.specs.Items.{all_fields};

use crate::put_fields;
use kept_resources::resources::{Resources, resource_row};
use registers::high;
use rules::numbers::{BUFFER_KIND, TEXTURE_KIND};
use rules::{Kind, Resource};
use saved_order::Order;
use words::low32;

// The bytes of a resource.
pub const RESOURCE_BYTES: usize = 48;

// Writes the fields of a resource from a place on; those that mean nothing for its kind are 0.
fn put_resource(buffer: &mut [u8], at: usize, r: Resource)
    requires { at + resource_bytes ≤ length buffer.old }
    ensures { buffer.new ≡ over at (file_of (resource_fields r)) buffer.old }
{
    let kind = r.kind;
    let lower = low32(r.bytes);
    let upper = high(r.bytes);
    match kind {
        Kind::Buffer => {
            let fields: [u32; 12] = [
                r.handle,
                BUFFER_KIND,
                lower,
                upper,
                0,
                0,
                0,
                0,
                0,
                r.pitch,
                r.backing,
                r.offset,
            ];
            put_fields(buffer, at, &fields);
        }
        Kind::Texture(s) => {
            let fields: [u32; 12] = [
                r.handle,
                TEXTURE_KIND,
                0,
                0,
                s.format,
                s.width,
                s.height,
                s.mips,
                s.layers,
                r.pitch,
                r.backing,
                r.offset,
            ];
            put_fields(buffer, at, &fields);
        }
    }
}

// Writes the fields of the resources of some rows, in this order, from a place on.
pub fn put_resources(
    buffer: &mut [u8],
    at: usize,
    resources: &Resources,
    order: &Order,
    count: usize,
)
    requires { Rows most order.now count × (at + resource_bytes * count ≤ length buffer.old) }
    ensures { buffer.new ≡ over at (file_of (all_fields resource_fields (resources_listed count resources.now order.now))) buffer.old }
{
    for i in 0..count {
        let start = at + RESOURCE_BYTES * i;
        let r = resource_row(resources, order[i]);
        put_resource(buffer, start, r);
    }
}
