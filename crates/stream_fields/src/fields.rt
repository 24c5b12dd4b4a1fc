// What each packet says: the fields of its own part, each read once.
ghost use Rattle.std.specs.Prelude.{◌≡◌, ◌≤◌, length, [], ◌∷◌};
ghost use Rattle.rules.specs.Numbers.{create_buffer_size, create_texture_size, destroy_size, dirty_range_size, copy_buffer_size, set_target_size, set_viewport_size, set_scissor_size, clear_size, export_surface_size, import_surface_size, release_token_size};
ghost use Rattle.rules.specs.Floats.{nan_among};
ghost use Rattle.rules.specs.Layouts.{buffer_fields, texture_fields, destroy_fields, dirty_fields, copy_fields, target_fields, viewport_floats, viewport_fields, scissor_fields, clear_floats, clear_fields, export_fields, import_fields, release_fields};
ghost use Rattle.rules.specs.Stream.{unless_nan};
ghost use Rattle.rules.specs.declared.Packet.TheVariants.{Viewport, Clear};

use floats::{float_of, is_nan};
use rules::{
    ClearValues, CopyBuffer, CreateBuffer, CreateTexture, DestroyResource, DirtyRange,
    ExportSurface, ImportSurface, Packet, ReleaseToken, SetScissor, SetTarget, SetViewport, Shape,
};
use signed::signed_of;
use words::{u32_at, u64_at};

// A create of a buffer.
pub fn buffer_fields(part: &[u8]) -> CreateBuffer
    requires { create_buffer_size ≤ length part.now }
    ensures { result ≡ buffer_fields part.now }
{
    CreateBuffer {
        handle: u32_at(part, 8),
        size: u64_at(part, 16),
        backing: u32_at(part, 24),
        offset: u32_at(part, 28),
    }
}

fn texture_shape(part: &[u8]) -> Shape
    requires { create_texture_size ≤ length part.now }
    ensures { result ≡ (texture_fields part.now).shape }
{
    Shape {
        format: u32_at(part, 16),
        width: u32_at(part, 20),
        height: u32_at(part, 24),
        mips: u32_at(part, 28),
        layers: u32_at(part, 32),
    }
}

// A create of a texture.
pub fn texture_fields(part: &[u8]) -> CreateTexture
    requires { create_texture_size ≤ length part.now }
    ensures { result ≡ texture_fields part.now }
{
    CreateTexture {
        handle: u32_at(part, 8),
        shape: texture_shape(part),
        pitch: u32_at(part, 36),
        backing: u32_at(part, 40),
        offset: u32_at(part, 44),
    }
}

// A destroy.
pub fn destroy_fields(part: &[u8]) -> DestroyResource
    requires { destroy_size ≤ length part.now }
    ensures { result ≡ destroy_fields part.now }
{
    DestroyResource {
        handle: u32_at(part, 8),
    }
}

// A dirty range.
pub fn dirty_fields(part: &[u8]) -> DirtyRange
    requires { dirty_range_size ≤ length part.now }
    ensures { result ≡ dirty_fields part.now }
{
    DirtyRange {
        handle: u32_at(part, 8),
        offset: u64_at(part, 16),
        size: u64_at(part, 24),
    }
}

// A copy of a buffer.
pub fn copy_fields(part: &[u8]) -> CopyBuffer
    requires { copy_buffer_size ≤ length part.now }
    ensures { result ≡ copy_fields part.now }
{
    CopyBuffer {
        dst: u32_at(part, 8),
        src: u32_at(part, 12),
        dstoffset: u64_at(part, 16),
        srcoffset: u64_at(part, 24),
        size: u64_at(part, 32),
        flags: u32_at(part, 40),
    }
}

// A render target.
pub fn target_fields(part: &[u8]) -> SetTarget
    requires { set_target_size ≤ length part.now }
    ensures { result ≡ target_fields part.now }
{
    SetTarget {
        handle: u32_at(part, 8),
    }
}

// A scissor.
pub fn scissor_fields(part: &[u8]) -> SetScissor
    requires { set_scissor_size ≤ length part.now }
    ensures { result ≡ scissor_fields part.now }
{
    SetScissor {
        x: signed_of(u32_at(part, 8)),
        y: signed_of(u32_at(part, 12)),
        width: signed_of(u32_at(part, 16)),
        height: signed_of(u32_at(part, 20)),
    }
}

// An export.
pub fn export_fields(part: &[u8]) -> ExportSurface
    requires { export_surface_size ≤ length part.now }
    ensures { result ≡ export_fields part.now }
{
    ExportSurface {
        handle: u32_at(part, 8),
        token: u64_at(part, 16),
    }
}

// An import.
pub fn import_fields(part: &[u8]) -> ImportSurface
    requires { import_surface_size ≤ length part.now }
    ensures { result ≡ import_fields part.now }
{
    ImportSurface {
        handle: u32_at(part, 8),
        token: u64_at(part, 16),
    }
}

// A release.
pub fn release_fields(part: &[u8]) -> ReleaseToken
    requires { release_token_size ≤ length part.now }
    ensures { result ≡ release_fields part.now }
{
    ReleaseToken {
        token: u64_at(part, 8),
    }
}

// Whether any of the bits of five floats are a NaN's.
fn any_nan(a: u32, b: u32, c: u32, d: u32, e: u32) -> bool
    ensures { result ≡ nan_among (a ∷ b ∷ c ∷ d ∷ e ∷ []) }
{
    if is_nan(a) {
        return true;
    }
    if is_nan(b) {
        return true;
    }
    if is_nan(c) {
        return true;
    }
    if is_nan(d) {
        return true;
    }
    is_nan(e)
}

// A viewport, or that one of its floats is a NaN.
pub fn viewport_packet(part: &[u8]) -> Packet
    requires { set_viewport_size ≤ length part.now }
    ensures { result ≡ unless_nan (viewport_floats part.now) (Viewport (viewport_fields part.now)) }
{
    let x = u32_at(part, 8);
    let y = u32_at(part, 12);
    let width = u32_at(part, 16);
    let height = u32_at(part, 20);
    let near = u32_at(part, 24);
    let far = u32_at(part, 28);
    if is_nan(x) {
        return Packet::NotANumber;
    }
    if any_nan(y, width, height, near, far) {
        return Packet::NotANumber;
    }
    Packet::Viewport(SetViewport {
        x: float_of(x),
        y: float_of(y),
        width: float_of(width),
        height: float_of(height),
        near: float_of(near),
        far: float_of(far),
    })
}

// A clear, or that one of its floats is a NaN.
pub fn clear_packet(part: &[u8]) -> Packet
    requires { clear_size ≤ length part.now }
    ensures { result ≡ unless_nan (clear_floats part.now) (Clear (clear_fields part.now)) }
{
    let flags = u32_at(part, 8);
    let red = u32_at(part, 12);
    let green = u32_at(part, 16);
    let blue = u32_at(part, 20);
    let alpha = u32_at(part, 24);
    let depth = u32_at(part, 28);
    let stencil = u32_at(part, 32);
    if any_nan(red, green, blue, alpha, depth) {
        return Packet::NotANumber;
    }
    Packet::Clear(ClearValues {
        flags,
        red: float_of(red),
        green: float_of(green),
        blue: float_of(blue),
        alpha: float_of(alpha),
        depth: float_of(depth),
        stencil,
    })
}
