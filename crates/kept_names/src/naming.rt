// The names of a resource: those that are left, and which of them is the lowest (02, wish 5).
ghost use Rattle.std.specs.Prelude.{◌≡◌, ◌≤◌, ◌<◌};
ghost use Rattle.rules.specs.Numbers.{most};
ghost use Rattle.rules.specs.Names.{shareable, rename, lowest_left};
ghost use Rattle.rows.specs.Rows.{row_at};
ghost use Rattle.kept_resources.specs.Views.{resources_of};
ghost use Rattle.kept_names.specs.Naming.{with_row, RenamesLeft};

use kept_resources::resources::{LOWEST, Resources, WORDS};
use rules::Kind;
use words::low32;

// Whether a resource may have tokens, and several names: a texture with one mip and one layer.
pub fn shareable(kind: Kind) -> bool
    ensures { result ≡ shareable kind }
{
    match kind {
        Kind::Buffer => false,
        Kind::Texture(s) => s.mips == 1 && s.layers == 1,
    }
}

// The resource that had the lowest name `old` has `new` from now on: so have all its names.
pub fn rename(resources: &mut Resources, live: usize, old: u32, new: u32)
    requires { live ≤ most }
    ensures { resources_of live resources.new ≡ rename old new (resources_of live resources.old) }
{
    rows_renaming::rename_rows(resources, WORDS, LOWEST, live, old, new);
}

// The lowest name of a resource by the rows from `i` on, where `best` is that by the rows after it, or 0.
fn lower_name(resources: &Resources, i: usize, low: u32, best: u32) -> u32
    requires { i < most }
    ensures { result ≡ with_row low best (row_at 12 resources.now i) }
{
    let b = WORDS * i;
    if low32(resources[b + LOWEST]) != low {
        return best;
    }
    let handle = low32(resources[b]);
    if best == 0 || handle < best {
        handle
    } else {
        best
    }
}

// The lowest name that is left of the resource whose lowest name was `low`, or 0 where none is.
pub fn lowest_left(resources: &Resources, live: usize, low: u32) -> u32
    requires { live ≤ most }
    ensures { result ≡ lowest_left low (resources_of live resources.now) }
{
    let mut best: u32 = 0;
    for i in (0..live).rev() {
        best = lower_name(resources, i, low, best);
    }
    best
}

// A resource whose lowest name was `low` has lost a name: what its lowest name is now, or 0. Its other names follow.
pub fn rename_left(resources: &mut Resources, live: usize, low: u32) -> u32
    requires { live ≤ most }
    ensures { RenamesLeft live low resources.old result resources.new }
{
    let new = lowest_left(resources, live, low);
    if new != low {
        rename(resources, live, low, new);
    }
    new
}
