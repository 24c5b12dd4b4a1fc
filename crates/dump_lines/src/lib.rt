// The line of a packet of each kind, written into a lent buffer from a place on: a pattern, and the packet's numbers. Each is the line that the
// opcode's row of the table gives, and each asks for the room of its own text.
#![tactic(auto)]

ghost use Rattle.std.specs.Prelude.{◌≡◌, ◌+◌, ◌≤◌, length};
ghost use Rattle.rules.specs.Numbers.{create_buffer, create_texture, destroy, dirty_range, copy_buffer, set_target, set_viewport, set_scissor, clear, export_surface, import_surface, release_token, create_buffer_size, create_texture_size, destroy_size, dirty_range_size, copy_buffer_size, set_target_size, set_viewport_size, set_scissor_size, clear_size, export_surface_size, import_surface_size, release_token_size};
ghost use Rattle.rules.specs.PacketRows.{packet_row};
ghost use Rattle.rules.specs.Dump.{line, line_in, opcode_text};
ghost use Rattle.text_numbers.specs.Writing.{Puts};
ghost use Rattle.rules.specs.Layouts.{word};

use stream_fields::fields::{
    buffer_fields, copy_fields, destroy_fields, dirty_fields, export_fields, import_fields,
    release_fields, target_fields, texture_fields,
};
use text_filling::fill;
use widths::u32_to_word;
use words::u32_at;

// A word of a packet as it is printed.
fn word_at(part: &[u8], at: usize) -> u64
    requires { at + 4 ≤ length part.now }
    ensures { result ≡ word part.now at }
{
    u32_to_word(u32_at(part, at))
}

// A create of a buffer.
pub fn put_buffer(out: &mut [u8], at: usize, offset: u64, size: u64, part: &[u8]) -> usize
    requires create_buffer_size_in_bounds { create_buffer_size ≤ length part.now }
    requires part_in_bounds { at + length (line_in (packet_row create_buffer) offset create_buffer size part.now) ≤ length out.old }
    ensures { Puts at (line_in (packet_row create_buffer) offset create_buffer size part.now) out.old result out.new }
{
    let f = buffer_fields(part);
    let numbers: [u64; 6] = [
        offset,
        size,
        u32_to_word(f.handle),
        f.size,
        u32_to_word(f.backing),
        u32_to_word(f.offset),
    ];
    fill(
        out,
        at,
        b"0x# CreateBuffer size_bytes=% handle=% size=% backing_id=% backing_offset=%\n",
        &numbers,
    )
}

// A create of a texture.
pub fn put_texture(out: &mut [u8], at: usize, offset: u64, size: u64, part: &[u8]) -> usize
    requires create_texture_size_in_bounds { create_texture_size ≤ length part.now }
    requires part_in_bounds { at + length (line_in (packet_row create_texture) offset create_texture size part.now) ≤ length out.old }
    ensures { Puts at (line_in (packet_row create_texture) offset create_texture size part.now) out.old result out.new }
{
    let f = texture_fields(part);
    let s = f.shape;
    let numbers: [u64; 11] = [
        offset,
        size,
        u32_to_word(f.handle),
        u32_to_word(s.format),
        u32_to_word(s.width),
        u32_to_word(s.height),
        u32_to_word(s.mips),
        u32_to_word(s.layers),
        u32_to_word(f.pitch),
        u32_to_word(f.backing),
        u32_to_word(f.offset),
    ];
    fill(
        out,
        at,
        b"0x# CreateTexture size_bytes=% handle=% format=% width=% height=% mips=% layers=% pitch=% backing_id=% backing_offset=%\n",
        &numbers,
    )
}

// A destroy.
pub fn put_destroy(out: &mut [u8], at: usize, offset: u64, size: u64, part: &[u8]) -> usize
    requires destroy_size_in_bounds { destroy_size ≤ length part.now }
    requires part_in_bounds { at + length (line_in (packet_row destroy) offset destroy size part.now) ≤ length out.old }
    ensures { Puts at (line_in (packet_row destroy) offset destroy size part.now) out.old result out.new }
{
    let f = destroy_fields(part);
    let numbers: [u64; 3] = [offset, size, u32_to_word(f.handle)];
    fill(out, at, b"0x# Destroy size_bytes=% handle=%\n", &numbers)
}

// A dirty range.
pub fn put_dirty(out: &mut [u8], at: usize, offset: u64, size: u64, part: &[u8]) -> usize
    requires dirty_range_size_in_bounds { dirty_range_size ≤ length part.now }
    requires part_in_bounds { at + length (line_in (packet_row dirty_range) offset dirty_range size part.now) ≤ length out.old }
    ensures { Puts at (line_in (packet_row dirty_range) offset dirty_range size part.now) out.old result out.new }
{
    let f = dirty_fields(part);
    let numbers: [u64; 5] = [offset, size, u32_to_word(f.handle), f.offset, f.size];
    fill(
        out,
        at,
        b"0x# DirtyRange size_bytes=% handle=% offset=% size=%\n",
        &numbers,
    )
}

// A copy of a buffer.
pub fn put_copy(out: &mut [u8], at: usize, offset: u64, size: u64, part: &[u8]) -> usize
    requires copy_buffer_size_in_bounds { copy_buffer_size ≤ length part.now }
    requires part_in_bounds { at + length (line_in (packet_row copy_buffer) offset copy_buffer size part.now) ≤ length out.old }
    ensures { Puts at (line_in (packet_row copy_buffer) offset copy_buffer size part.now) out.old result out.new }
{
    let f = copy_fields(part);
    let numbers: [u64; 8] = [
        offset,
        size,
        u32_to_word(f.dst),
        u32_to_word(f.src),
        f.dstoffset,
        f.srcoffset,
        f.size,
        u32_to_word(f.flags),
    ];
    fill(
        out,
        at,
        b"0x# CopyBuffer size_bytes=% dst=% src=% dst_offset=% src_offset=% size=% flags=%\n",
        &numbers,
    )
}

// A render target.
pub fn put_target(out: &mut [u8], at: usize, offset: u64, size: u64, part: &[u8]) -> usize
    requires set_target_size_in_bounds { set_target_size ≤ length part.now }
    requires part_in_bounds { at + length (line_in (packet_row set_target) offset set_target size part.now) ≤ length out.old }
    ensures { Puts at (line_in (packet_row set_target) offset set_target size part.now) out.old result out.new }
{
    let f = target_fields(part);
    let numbers: [u64; 3] = [offset, size, u32_to_word(f.handle)];
    fill(out, at, b"0x# Target size_bytes=% handle=%\n", &numbers)
}

// A viewport, its floats by their bits.
pub fn put_viewport(out: &mut [u8], at: usize, offset: u64, size: u64, part: &[u8]) -> usize
    requires set_viewport_size_in_bounds { set_viewport_size ≤ length part.now }
    requires part_in_bounds { at + length (line_in (packet_row set_viewport) offset set_viewport size part.now) ≤ length out.old }
    ensures { Puts at (line_in (packet_row set_viewport) offset set_viewport size part.now) out.old result out.new }
{
    let numbers: [u64; 8] = [
        offset,
        size,
        word_at(part, 8),
        word_at(part, 12),
        word_at(part, 16),
        word_at(part, 20),
        word_at(part, 24),
        word_at(part, 28),
    ];
    fill(
        out,
        at,
        b"0x# Viewport size_bytes=% x=% y=% width=% height=% near=% far=%\n",
        &numbers,
    )
}

// A scissor.
pub fn put_scissor(out: &mut [u8], at: usize, offset: u64, size: u64, part: &[u8]) -> usize
    requires set_scissor_size_in_bounds { set_scissor_size ≤ length part.now }
    requires part_in_bounds { at + length (line_in (packet_row set_scissor) offset set_scissor size part.now) ≤ length out.old }
    ensures { Puts at (line_in (packet_row set_scissor) offset set_scissor size part.now) out.old result out.new }
{
    let numbers: [u64; 6] = [
        offset,
        size,
        word_at(part, 8),
        word_at(part, 12),
        word_at(part, 16),
        word_at(part, 20),
    ];
    fill(
        out,
        at,
        b"0x# Scissor size_bytes=% x=~ y=~ width=~ height=~\n",
        &numbers,
    )
}

// A clear, its floats by their bits.
pub fn put_clear(out: &mut [u8], at: usize, offset: u64, size: u64, part: &[u8]) -> usize
    requires clear_size_in_bounds { clear_size ≤ length part.now }
    requires part_in_bounds { at + length (line_in (packet_row clear) offset clear size part.now) ≤ length out.old }
    ensures { Puts at (line_in (packet_row clear) offset clear size part.now) out.old result out.new }
{
    let numbers: [u64; 9] = [
        offset,
        size,
        word_at(part, 8),
        word_at(part, 12),
        word_at(part, 16),
        word_at(part, 20),
        word_at(part, 24),
        word_at(part, 28),
        word_at(part, 32),
    ];
    fill(
        out,
        at,
        b"0x# Clear size_bytes=% flags=% red=% green=% blue=% alpha=% depth=% stencil=%\n",
        &numbers,
    )
}

// An export.
pub fn put_export(out: &mut [u8], at: usize, offset: u64, size: u64, part: &[u8]) -> usize
    requires export_surface_size_in_bounds { export_surface_size ≤ length part.now }
    requires part_in_bounds { at + length (line_in (packet_row export_surface) offset export_surface size part.now) ≤ length out.old }
    ensures { Puts at (line_in (packet_row export_surface) offset export_surface size part.now) out.old result out.new }
{
    let f = export_fields(part);
    let numbers: [u64; 4] = [offset, size, u32_to_word(f.handle), f.token];
    fill(
        out,
        at,
        b"0x# Export size_bytes=% handle=% token=%\n",
        &numbers,
    )
}

// An import.
pub fn put_import(out: &mut [u8], at: usize, offset: u64, size: u64, part: &[u8]) -> usize
    requires import_surface_size_in_bounds { import_surface_size ≤ length part.now }
    requires part_in_bounds { at + length (line_in (packet_row import_surface) offset import_surface size part.now) ≤ length out.old }
    ensures { Puts at (line_in (packet_row import_surface) offset import_surface size part.now) out.old result out.new }
{
    let f = import_fields(part);
    let numbers: [u64; 4] = [offset, size, u32_to_word(f.handle), f.token];
    fill(
        out,
        at,
        b"0x# Import size_bytes=% handle=% token=%\n",
        &numbers,
    )
}

// A release.
pub fn put_release(out: &mut [u8], at: usize, offset: u64, size: u64, part: &[u8]) -> usize
    requires release_token_size_in_bounds { release_token_size ≤ length part.now }
    requires part_in_bounds { at + length (line_in (packet_row release_token) offset release_token size part.now) ≤ length out.old }
    ensures { Puts at (line_in (packet_row release_token) offset release_token size part.now) out.old result out.new }
{
    let f = release_fields(part);
    let numbers: [u64; 3] = [offset, size, f.token];
    fill(out, at, b"0x# Release size_bytes=% token=%\n", &numbers)
}

// A packet whose opcode we do not know.
pub fn put_unknown(out: &mut [u8], at: usize, offset: u64, size: u64, opcode: u64) -> usize
    requires { at + length (line offset "UNKNOWN" size (opcode_text opcode)) ≤ length out.old }
    ensures { Puts at (line offset "UNKNOWN" size (opcode_text opcode)) out.old result out.new }
{
    let numbers: [u64; 3] = [offset, size, opcode];
    fill(out, at, b"0x# UNKNOWN size_bytes=% opcode=%\n", &numbers)
}

// The same, where the listing stops there.
pub fn put_stopped(out: &mut [u8], at: usize, offset: u64, size: u64, opcode: u64) -> usize
    requires { at + length (line offset "STOPPED" size (opcode_text opcode)) ≤ length out.old }
    ensures { Puts at (line offset "STOPPED" size (opcode_text opcode)) out.old result out.new }
{
    let numbers: [u64; 3] = [offset, size, opcode];
    fill(out, at, b"0x# STOPPED size_bytes=% opcode=%\n", &numbers)
}
