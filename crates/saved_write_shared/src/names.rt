// Section 3 of a saved desk: each other name with its resource's lowest name.
ghost use Rattle.std.specs.Prelude.{◌≡◌, ◌∷◌, ◌+◌, ◌*◌, ◌≤◌, length};
ghost use Rattle.rules.specs.Numbers.{most};
ghost use Rattle.rules.specs.Lists.{over};
ghost use Rattle.rules.specs.Saved.{file_of, name_bytes};
ghost use Rattle.saved_order.specs.Orders.{Rows, resources_listed};
ghost use Rattle.saved_write.specs.Items.{all_fields};
ghost use Rattle.saved_write_shared.specs.Shared.{name_fields};

use kept_resources::resources::{Resources, resource_row};
use rules::Resource;
use saved_order::Order;
use saved_write::put_fields;

// The bytes of another name.
pub const NAME_BYTES: usize = 8;

// Writes a name and its resource's lowest name from a place on.
fn put_name(buffer: &mut [u8], at: usize, r: Resource)
    requires { at + name_bytes ≤ length buffer.old }
    ensures { buffer.new ≡ over at (file_of (name_fields r)) buffer.old }
{
    let fields: [u32; 2] = [r.handle, r.lowest];
    put_fields(buffer, at, &fields);
}

// Writes the names of some rows, in this order.
fn put_names(buffer: &mut [u8], at: usize, resources: &Resources, order: &Order, count: usize)
    requires { Rows most order.now count × (at + name_bytes * count ≤ length buffer.old) }
    ensures { buffer.new ≡ over at (file_of (all_fields name_fields (resources_listed count resources.now order.now))) buffer.old }
{
    for i in 0..count {
        let start = at + NAME_BYTES * i;
        let r = resource_row(resources, order[i]);
        put_name(buffer, start, r);
    }
}

// Writes section 3 from a place on: how many names there are, then the names.
pub fn put_name_section(
    buffer: &mut [u8],
    at: usize,
    resources: &Resources,
    order: &Order,
    count: usize,
)
    requires { Rows most order.now count × (at + 4 + name_bytes * count ≤ length buffer.old) }
    ensures { buffer.new ≡ over at (file_of (count ∷ all_fields name_fields (resources_listed count resources.now order.now))) buffer.old }
{
    let counts: [u32; 1] = [count as u32];
    put_fields(buffer, at, &counts);
    put_names(buffer, at + 4, resources, order, count);
}
