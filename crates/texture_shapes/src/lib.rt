// Which texture shapes are good, and which pitches.
#![tactic(auto)]

pub mod formats;

ghost use Rattle.std.specs.Prelude.{◌≡◌, ◌<◌, leb};
ghost use Rattle.rules.specs.Shapes.{full_chain, good_shape, good_backed, larger};
ghost use Rattle.texture_shapes.specs.Good.{good_side};

use crate::formats::{larger_of, minimum_pitch, unit_of};
use rules::Shape;
use rules::numbers::{LONGEST_SIDE, MOST_LAYERS};

// Mips of the longest side's full chain.
const LONGEST_CHAIN: u32 = 15;

// Whether the larger side halves often enough for so many mips.
pub fn chain_reaches(width: u32, height: u32, mips: u32) -> bool
    ensures { result ≡ leb mips (full_chain width height) }
{
    if mips <= 1 {
        return true;
    }
    if mips > LONGEST_CHAIN {
        return false;
    }
    (larger_of(width, height) >> (mips - 1)) > 0
}

// Whether a width or a height is within the limits.
pub fn good_side_of(pixels: u32) -> bool
    ensures { result ≡ good_side pixels }
{
    if pixels < 1 {
        return false;
    }
    pixels <= LONGEST_SIDE
}

// Whether a texture may have this shape. A host-backed one asks no more: its pitch is ignored.
pub fn good_shape(s: Shape) -> bool
    ensures { result ≡ good_shape s }
{
    if unit_of(s.format) == 0 {
        return false;
    }
    if !good_side_of(s.width) {
        return false;
    }
    if !good_side_of(s.height) {
        return false;
    }
    if s.mips < 1 {
        return false;
    }
    if !chain_reaches(s.width, s.height, s.mips) {
        return false;
    }
    if s.layers < 1 {
        return false;
    }
    s.layers <= MOST_LAYERS
}

// Whether a texture in guest memory may have this shape and pitch.
pub fn good_backed(s: Shape, pitch: u32) -> bool
    ensures { result ≡ good_backed s pitch }
{
    if !good_shape(s) {
        return false;
    }
    minimum_pitch(s.format, s.width) <= pitch as u64
}
