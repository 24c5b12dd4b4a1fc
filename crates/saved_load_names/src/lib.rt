// The other names of a good file, stored as rows of a device's table after those of its resources.
#![tactic(auto)]

ghost use Rattle.std.specs.Prelude.{◌≡◌, [], ◌∷◌, ◌++◌, ◌+◌, ◌*◌, ◌≤◌, length};
ghost use Rattle.rules.specs.Numbers.{most};
ghost use Rattle.rules.specs.Lists.{lookup};
ghost use Rattle.rules.specs.Layouts.{word};
ghost use Rattle.rules.specs.Packets.{handle_of};
ghost use Rattle.kept_resources.specs.Views.{resources_of};
ghost use Rattle.rules.specs.Saved.{name_bytes};
ghost use Rattle.rules.specs.Loaded.{named, loaded_names};
ghost use Rattle.saved_fields.specs.Good.{IsFound};
ghost use Rattle.saved_load_names.specs.Loading.{NamesFound};

use kept_resources::resources::{Resources, find_resource, resource_row};
use kept_storing::push_resource;
use rules::Resource;
use widths::u32_to_usize;
use words::u32_at;

// The bytes of another name.
const NAME_BYTES: usize = 8;

// The other name whose fields stand from a place on: the resource of its lowest name, by this one.
fn name_at(resources: &Resources, live: usize, file: &[u8], at: usize) -> Resource
    requires { (live ≤ most) × ((at + name_bytes ≤ length file.now)
        × IsFound (lookup handle_of (word file.now (at + 4)) (resources_of live resources.now))) }
    ensures { named (word file.now at) (lookup handle_of (word file.now (at + 4)) (resources_of live resources.now)) ≡ result ∷ [] }
{
    let handle = u32_at(file, at);
    let i = find_resource(resources, live, u32_at(file, at + 4)).unwrap();
    let r = resource_row(resources, i);
    Resource { handle, ..r }
}

// Stores so many other names of the first `live` resources, of which the first one's fields stand from a place on, after them.
pub fn load_names(resources: &mut Resources, live: usize, file: &[u8], start: u32, count: usize)
    requires { (live + count ≤ most) × ((start + name_bytes * count ≤ length file.now)
        × NamesFound count (resources_of live resources.old) file.now start) }
    ensures { resources_of (live + count) resources.new
        ≡ resources_of live resources.old ++ loaded_names count (resources_of live resources.old) file.now start }
{
    let first = u32_to_usize(start);
    for i in 0..count {
        let r = name_at(resources, live, file, first + NAME_BYTES * i);
        push_resource(resources, live + i, r);
    }
}
