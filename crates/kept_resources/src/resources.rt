// A resource as a row of twelve words: handle, tag (0 for a buffer), bytes, format, width, height, mips, layers, pitch, backing,
// offset, lowest name. Of a buffer's row the five words after its bytes say nothing.
ghost use Rattle.std.specs.Prelude.{◌≡◌, ◌+◌, ◌-◌, ◌≤◌, ◌<◌};
ghost use Rattle.rules.specs.Numbers.{most};
ghost use Rattle.rules.specs.Packets.{handle_of};
ghost use Rattle.rows.specs.Rows.{row_at};
ghost use Rattle.rows.specs.Keys.{place_of};
ghost use Rattle.kept_resources.specs.Views.{resource_of_row, resources_of, kind_in};

use rules::{Kind, Resource, Shape};

// A table of resources, 64 rows.
pub type Resources = [u64; 768];

// The words of a resource.
pub const WORDS: usize = 12;

// The word of a row that has the lowest name.
pub const LOWEST: usize = 11;

pub const BUFFER: u64 = 0;

// What the resource of a row is.
fn kind_at(resources: &Resources, b: usize) -> Kind
    requires { b + 12 ≤ 768 }
    ensures { result ≡ kind_in resources.now b }
{
    if resources[b + 1] == BUFFER {
        return Kind::Buffer;
    }
    Kind::Texture(Shape {
        format: words::low32(resources[b + 3]),
        width: words::low32(resources[b + 4]),
        height: words::low32(resources[b + 5]),
        mips: words::low32(resources[b + 6]),
        layers: words::low32(resources[b + 7]),
    })
}

// The resource of row i.
pub fn resource_row(resources: &Resources, i: usize) -> Resource
    requires { i < most }
    ensures { result ≡ resource_of_row (row_at 12 resources.now i) }
{
    let b = WORDS * i;
    let kind = kind_at(resources, b);
    Resource {
        handle: words::low32(resources[b]),
        kind,
        bytes: resources[b + 2],
        pitch: words::low32(resources[b + 8]),
        backing: words::low32(resources[b + 9]),
        offset: words::low32(resources[b + 10]),
        lowest: words::low32(resources[b + 11]),
    }
}

// The handle of row i.
pub fn handle_at(resources: &Resources, i: usize) -> u32
    requires { i < most }
    ensures { result ≡ (resource_of_row (row_at 12 resources.now i)).handle }
{
    words::low32(resources[WORDS * i])
}

// The lowest name of the resource of row i.
pub fn lowest_at(resources: &Resources, i: usize) -> u32
    requires { i < most }
    ensures { result ≡ (resource_of_row (row_at 12 resources.now i)).lowest }
{
    words::low32(resources[WORDS * i + LOWEST])
}

// The place of the live resource that has a handle, if one has it.
pub fn find_resource(resources: &Resources, live: usize, handle: u32) -> Option<usize>
    requires { live ≤ most }
    ensures { result ≡ place_of handle_of handle (resources_of live resources.now) }
{
    rows_finding::find_row(resources, WORDS, live, handle)
}
