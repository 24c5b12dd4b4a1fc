// Examples 1 to 4: what textures measure, and which shapes are refused.
use crate::lines::Judged;
use program_lines::Count;
use refusals::number;
use rules::numbers::LONGEST_SIDE;
use rules::{Refusal, Shape};
use std::fmt;

// ---- a line for each thing that can be asked of a shape

// What every line begins with: the example, and the shape that it asks about.
#[derive(Clone, Copy)]
struct Asked {
    example: u32,
    shape: Shape,
}

impl fmt::Display for Asked {
    fn fmt<W: fmt::Write>(&self, f: &mut fmt::Formatter<W>) -> fmt::Result {
        let Shape {
            format,
            width,
            height,
            mips,
            layers,
        } = self.shape;
        let mips = Count {
            count: mips,
            noun: "mip",
        };
        let layers = Count {
            count: layers,
            noun: "layer",
        };
        write!(
            f,
            "example {}: format {format}, {width}x{height}, {mips}, {layers}",
            self.example
        )
    }
}

impl Asked {
    // Whether the shape is good, whatever its pitch.
    fn judge(self, rt: &impl Print) {
        let judged = if texture_shapes::good_shape(self.shape) {
            Judged::Passes
        } else {
            Judged::Refused(number(Refusal::BadShape))
        };
        let _ = println!(rt; "{self}: {judged}");
    }

    // The least pitch that its width allows.
    fn minimum(self, rt: &impl Print) {
        let s = self.shape;
        let pitch = texture_shapes::formats::minimum_pitch(s.format, s.width);
        let _ = println!(rt; "{self}, minimum pitch: {pitch}");
    }

    // Its bytes with this pitch.
    fn size(self, rt: &impl Print, pitch: u32) {
        let s = self.shape;
        let size = texture_sizes::packed_size(s.format, s.width, s.height, s.mips, s.layers, pitch);
        let _ = print!(rt; "{self}, pitch {pitch}: ");
        let _ = match size {
            0 => println!(rt; "{}", Judged::Refused(number(Refusal::BadShape))),
            _ => println!(rt; "{size}"),
        };
    }

    // Where one of its subresources starts.
    fn start(self, rt: &impl Print, pitch: u32, index: u32) {
        let _ = print!(rt; "{self}, pitch {pitch}, index {index} starts at: ");
        let _ = match texture_sizes::subresource_start(self.shape, pitch, index) {
            Some(place) => println!(rt; "{place}"),
            None => println!(rt; "nowhere"),
        };
    }
}

// ---- the examples

// The shape of examples 1 and 2, which differ in the layers.
fn five_by_three(example: u32, layers: u32) -> Asked {
    let shape = Shape {
        format: 1,
        width: 5,
        height: 3,
        mips: 3,
        layers,
    };
    Asked { example, shape }
}

// The least pitch of a texture, and its size by two pitches.
pub fn example_1(rt: &impl Print) {
    let asked = five_by_three(1, 1);
    asked.minimum(rt);
    asked.size(rt, 20);
    asked.size(rt, 32);
}

// The same with more than one layer: its size, and where a subresource starts.
pub fn example_2(rt: &impl Print) {
    let asked = five_by_three(2, 2);
    asked.size(rt, 20);
    asked.start(rt, 20, 4);
}

// A texture of blocks: its rows count blocks and not pixels.
pub fn example_3(rt: &impl Print) {
    let shape = Shape {
        format: 64,
        width: 5,
        height: 5,
        mips: 3,
        layers: 1,
    };
    let asked = Asked { example: 3, shape };
    asked.minimum(rt);
    asked.size(rt, 16);
    asked.size(rt, 15);
}

// A chain of so many mips, in the format of example 1.
fn chain_of(width: u32, mips: u32) -> Asked {
    let shape = Shape {
        format: 1,
        width,
        height: 1,
        mips,
        layers: 1,
    };
    Asked { example: 4, shape }
}

// The longest chain of mips, one that is longer, and one of a side of a single pixel.
pub fn example_4(rt: &impl Print) {
    chain_of(LONGEST_SIDE, 15).judge(rt);
    chain_of(LONGEST_SIDE, 16).judge(rt);
    chain_of(1, 2).judge(rt);
}
