// Resources stored, removed and copied, each a row of twelve words.
#![tactic(auto)]

ghost use Rattle.std.specs.Prelude.{◌≡◌, ◌+◌, ◌-◌, ◌≤◌, ◌<◌};
ghost use Rattle.rules.specs.Numbers.{most};
ghost use Rattle.rules.specs.Lists.{pushed, removed};
ghost use Rattle.kept_resources.specs.Views.{resources_of, flat_kind};

use kept_resources::resources::{BUFFER, Resources, WORDS};
use rules::{Kind, Resource};
use widths::u32_to_word;

const TEXTURE: u64 = 1;

// The six words of a kind: its tag and its shape.
#[derive(Clone, Copy)]
struct FlatKind {
    tag: u64,
    format: u64,
    width: u64,
    height: u64,
    mips: u64,
    layers: u64,
}

// A kind as words; those that a buffer does not use are 0.
fn flat(kind: Kind) -> FlatKind
    ensures { flat_kind result.tag result.format result.width result.height result.mips result.layers ≡ kind }
{
    match kind {
        Kind::Buffer => FlatKind {
            tag: BUFFER,
            format: 0,
            width: 0,
            height: 0,
            mips: 0,
            layers: 0,
        },
        Kind::Texture(s) => FlatKind {
            tag: TEXTURE,
            format: u32_to_word(s.format),
            width: u32_to_word(s.width),
            height: u32_to_word(s.height),
            mips: u32_to_word(s.mips),
            layers: u32_to_word(s.layers),
        },
    }
}

// One resource more, after `live` others.
pub fn push_resource(resources: &mut Resources, live: usize, r: Resource)
    requires { live < most }
    ensures { resources_of (live + 1) resources.new ≡ pushed (resources_of live resources.old) r }
{
    let kind = r.kind;
    let f = flat(kind);
    let all = &resources[..];
    let b = WORDS * live;
    resources[b] = u32_to_word(r.handle);
    resources[b + 1] = f.tag;
    resources[b + 2] = r.bytes;
    resources[b + 3] = f.format;
    resources[b + 4] = f.width;
    resources[b + 5] = f.height;
    resources[b + 6] = f.mips;
    resources[b + 7] = f.layers;
    resources[b + 8] = u32_to_word(r.pitch);
    resources[b + 9] = u32_to_word(r.backing);
    resources[b + 10] = u32_to_word(r.offset);
    resources[b + 11] = u32_to_word(r.lowest);
}

// The resource of row i is gone: the last of `live` takes its place.
pub fn remove_resource(resources: &mut Resources, live: usize, i: usize)
    requires { (live ≤ most) × (i < live) }
    ensures { resources_of (live - 1) resources.new ≡ removed i (resources_of live resources.old) }
{
    rows::move_row(resources, WORDS, live - 1, i);
}

// The first `live` resources of one table over another's.
pub fn copy_resources(from: &Resources, to: &mut Resources, live: usize)
    requires { live ≤ most }
    ensures { resources_of live to.new ≡ resources_of live from.now }
{
    rows::copy_words(from, to, WORDS * live);
}
