// What a texture's format decides: blocks, the sides of a mip, and the bytes of a row.
ghost use Rattle.std.specs.Prelude.{◌≡◌, ◌<◌, ◌^◌};
ghost use Rattle.rules.specs.Shapes.{block_bytes, mip_side, blocks, larger, tight};
ghost use Rattle.texture_shapes.specs.Formats.{minimum};

use rules::Shape;

// The bytes of a pixel or of a block, 0 where the format is none of ours.
pub fn unit_of(format: u32) -> u32
    ensures { result ≡ block_bytes format }
{
    match format {
        1 | 2 | 3 => 4,
        64 => 8,
        65 | 66 => 16,
        _ => 0,
    }
}

// The blocks that a side of so many pixels takes; a pixel format's block is a pixel.
pub fn blocks_of(format: u32, pixels: u64) -> u64
    requires { pixels < 2 ^ 32 }
    ensures { result ≡ blocks format pixels }
{
    match format {
        64 | 65 | 66 => (pixels + 3) / 4,
        _ => pixels,
    }
}

// The larger of two numbers.
pub fn larger_of(a: u32, b: u32) -> u32
    ensures { result ≡ larger a b }
{
    if a < b { b } else { a }
}

// A side of a mip: halved for each mip below it, and never 0.
pub fn side_at(pixels: u32, mip: u32) -> u64
    requires { mip < 32 }
    ensures { result ≡ mip_side pixels mip }
{
    larger_of(1, pixels >> mip) as u64
}

// The bytes of a row of a mip that has no padding.
pub fn tight_row(s: Shape, mip: u32) -> u64
    requires { mip < 32 }
    ensures { result ≡ tight s mip }
{
    blocks_of(s.format, side_at(s.width, mip)) * (unit_of(s.format) as u64)
}

// The least pitch of a backed texture, 0 for an unknown format.
pub fn minimum_pitch(format: u32, width: u32) -> u64
    ensures { result ≡ minimum format width }
{
    let s = Shape {
        format,
        width,
        height: 1,
        mips: 1,
        layers: 1,
    };
    tight_row(s, 0)
}
