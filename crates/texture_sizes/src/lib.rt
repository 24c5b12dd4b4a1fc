// Where the bytes of a texture stand. One layer is worked out mip by mip, and multiplied: a caller pays for at most 15 mips, whatever
// the layers.
#![tactic(auto)]

ghost use Rattle.std.specs.Prelude.{◌≡◌, ◌*◌, ◌≤◌, ◌<◌};
ghost use Rattle.rules.specs.Shapes.{mip_bytes, offset_of, packed_size, start_of};
ghost use Rattle.texture_shapes.specs.Bounds.{Bounded, most_of_mip};

use rules::Shape;
use texture_shapes::formats::{blocks_of, side_at, tight_row};
use texture_shapes::good_backed;

// The bytes of one mip: only mip 0 has the guest's pitch.
fn bytes_of_mip(s: Shape, pitch: u32, mip: u32) -> u64
    requires { Bounded s × (mip < s.mips) }
    ensures { (result ≡ mip_bytes s pitch mip) × (result ≤ most_of_mip) }
{
    let rows = blocks_of(s.format, side_at(s.height, mip));
    if mip == 0 {
        pitch as u64 * rows
    } else {
        tight_row(s, mip) * rows
    }
}

// The bytes of a layer's mips below `end`: where that mip starts in its layer.
fn bytes_below(s: Shape, pitch: u32, end: u32) -> u64
    requires { Bounded s × (end ≤ s.mips) }
    ensures { (result ≡ offset_of s pitch end) × (result ≤ end * most_of_mip) }
{
    let mut sum: u64 = 0;
    for mip in 0..end {
        sum += bytes_of_mip(s, pitch, mip);
    }
    sum
}

// The bytes that a backed texture takes in guest memory, 0 for a bad shape or pitch.
pub fn packed_size_of(s: Shape, pitch: u32) -> u64
    ensures { result ≡ packed_size s pitch }
{
    if !good_backed(s, pitch) {
        return 0;
    }
    bytes_below(s, pitch, s.mips) * (s.layers as u64)
}

// The same from plain numbers, for a caller that has no `Shape`.
pub fn packed_size(format: u32, width: u32, height: u32, mips: u32, layers: u32, pitch: u32) -> u64
    ensures { result ≡ packed_size (record { format = format; width = width; height = height; mips = mips; layers = layers }) pitch }
{
    let s = Shape {
        format,
        width,
        height,
        mips,
        layers,
    };
    packed_size_of(s, pitch)
}

// Where a subresource starts in its texture's bytes; the mips of a layer follow each other, then the next layer.
pub fn subresource_start(s: Shape, pitch: u32, index: u32) -> Option<u64>
    ensures { result ≡ start_of s pitch index }
{
    if !good_backed(s, pitch) || index >= s.layers * s.mips {
        return None;
    }
    let layer = index / s.mips;
    let mip = index % s.mips;
    let layers_before = bytes_below(s, pitch, s.mips) * (layer as u64);
    Some(layers_before + bytes_below(s, pitch, mip))
}
