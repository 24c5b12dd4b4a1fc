// A resource of a saved desk: its twelve fields, read once and judged in their order.

#![tactic(auto)]

ghost use Rattle.std.specs.Prelude.{◌≡◌, ◌≤◌};
ghost use Rattle.saved_fields.specs.Judging.{judge_rules};
ghost use Rattle.saved_resources.specs.Rules.{furthest, seen_resource, no_shape_rules, shape_rules, buffer_rules, texture_rules, fields_rules};

use rules::Shape;
use rules::numbers::{BUFFER_KIND, TEXTURE_KIND};
use saved_fields::{field_at, must};
use saved_shapes::{good_layers, good_mips, good_offset, good_pitch, has_size};
use texture_shapes::formats::unit_of;
use texture_shapes::good_side_of;

// The bytes of a resource.
pub const RESOURCE_BYTES: u32 = 48;

// The fields of a resource; those that are not there are 0.
#[derive(Clone, Copy)]
pub struct SavedResource {
    pub handle: u32,
    pub kind: u32,
    pub low: u32,
    pub high: u32,
    pub shape: Shape,
    pub pitch: u32,
    pub backing: u32,
    pub offset: u32,
}

// Reads the shape in the fields of a resource that stand from a place on.
fn read_shape(file: &[u8], at: u32) -> Shape
    requires { at ≤ furthest }
    ensures { result ≡ (seen_resource file.now at).shape }
{
    Shape {
        format: field_at(file, at + 16),
        width: field_at(file, at + 20),
        height: field_at(file, at + 24),
        mips: field_at(file, at + 28),
        layers: field_at(file, at + 32),
    }
}

// Reads the resource whose fields stand from a place on.
pub fn read_resource(file: &[u8], at: u32) -> SavedResource
    requires { at ≤ furthest }
    ensures { result ≡ seen_resource file.now at }
{
    let shape = read_shape(file, at);
    SavedResource {
        handle: field_at(file, at),
        kind: field_at(file, at + 4),
        low: field_at(file, at + 8),
        high: field_at(file, at + 12),
        shape,
        pitch: field_at(file, at + 36),
        backing: field_at(file, at + 40),
        offset: field_at(file, at + 44),
    }
}

// The fields of a shape where there is none.
fn judge_no_shape(sofar: Result<(), u32>, bytes: usize, at: u32, shape: Shape) -> Result<(), u32>
    requires { at ≤ furthest }
    ensures { result ≡ judge_rules sofar (no_shape_rules bytes at shape) }
{
    let format = must(sofar, bytes, at + 16, shape.format == 0);
    let width = must(format, bytes, at + 20, shape.width == 0);
    let height = must(width, bytes, at + 24, shape.height == 0);
    let mips = must(height, bytes, at + 28, shape.mips == 0);
    must(mips, bytes, at + 32, shape.layers == 0)
}

// The fields of a texture's shape.
fn judge_shape(sofar: Result<(), u32>, bytes: usize, at: u32, shape: Shape) -> Result<(), u32>
    requires { at ≤ furthest }
    ensures { result ≡ judge_rules sofar (shape_rules bytes at shape) }
{
    let format = must(sofar, bytes, at + 16, unit_of(shape.format) > 0);
    let width = must(format, bytes, at + 20, good_side_of(shape.width));
    let height = must(width, bytes, at + 24, good_side_of(shape.height));
    let mips = must(
        height,
        bytes,
        at + 28,
        good_mips(shape.width, shape.height, shape.mips),
    );
    must(mips, bytes, at + 32, good_layers(shape.layers))
}

// A buffer's fields from its size to its backing id: it has no shape and no pitch.
fn judge_buffer(sofar: Result<(), u32>, bytes: usize, at: u32, s: SavedResource) -> Result<(), u32>
    requires { at ≤ furthest }
    ensures { result ≡ judge_rules sofar (buffer_rules bytes at s) }
{
    let low = must(sofar, bytes, at + 8, true);
    let size = must(low, bytes, at + 12, has_size(s.low, s.high));
    let shape = judge_no_shape(size, bytes, at, s.shape);
    let pitch = must(shape, bytes, at + 36, s.pitch == 0);
    must(pitch, bytes, at + 40, true)
}

// A texture's fields from its size, which it does not have, to its backing id, which its pitch is tied to.
fn judge_texture(sofar: Result<(), u32>, bytes: usize, at: u32, s: SavedResource) -> Result<(), u32>
    requires { at ≤ furthest }
    ensures { result ≡ judge_rules sofar (texture_rules bytes at s) }
{
    let low = must(sofar, bytes, at + 8, s.low == 0);
    let size = must(low, bytes, at + 12, s.high == 0);
    let shape = judge_shape(size, bytes, at, s.shape);
    let pitch = must(shape, bytes, at + 36, true);
    must(
        pitch,
        bytes,
        at + 40,
        good_pitch(s.shape, s.pitch, s.backing),
    )
}

// All fields of a resource that comes after one with the handle `before`.
pub fn judge_resource(
    sofar: Result<(), u32>,
    bytes: usize,
    at: u32,
    before: u32,
    s: SavedResource,
) -> Result<(), u32>
    requires { at ≤ furthest }
    ensures { result ≡ judge_rules sofar (fields_rules bytes at s before) }
{
    let handle = must(sofar, bytes, at, before < s.handle);
    let tied = good_offset(s.backing, s.offset);
    if s.kind == BUFFER_KIND {
        let kind = must(handle, bytes, at + 4, true);
        let backing = judge_buffer(kind, bytes, at, s);
        return must(backing, bytes, at + 44, tied);
    }
    let kind = must(handle, bytes, at + 4, s.kind == TEXTURE_KIND);
    let backing = judge_texture(kind, bytes, at, s);
    must(backing, bytes, at + 44, tied)
}
