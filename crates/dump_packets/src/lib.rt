// The line of a packet, by its opcode.
#![tactic(auto)]

ghost use Rattle.std.specs.Prelude.{◌≡◌, ◌+◌, ◌≤◌, length};
ghost use Rattle.rules.specs.Stream.{least_size};
ghost use Rattle.rules.specs.PacketRows.{packet_row};
ghost use Rattle.rules.specs.Dump.{line_in};
ghost use Rattle.text_numbers.specs.Writing.{Puts};

use dump_lines::{
    put_buffer, put_clear, put_copy, put_destroy, put_dirty, put_export, put_import, put_release,
    put_scissor, put_target, put_texture, put_unknown, put_viewport,
};
use rules::numbers::{
    CLEAR, COPY_BUFFER, CREATE_BUFFER, CREATE_TEXTURE, DESTROY, DIRTY_RANGE, EXPORT_SURFACE,
    IMPORT_SURFACE, RELEASE_TOKEN, SET_SCISSOR, SET_TARGET, SET_VIEWPORT,
};
use widths::u32_to_word;

// Writes the line of a packet at an offset of its stream, by its opcode, and gives the place behind it.
pub fn put_line(out: &mut [u8], at: usize, offset: u64, size: u64, op: u32, part: &[u8]) -> usize
    requires op_in_bounds { least_size op ≤ length part.now }
    requires part_in_bounds { at + length (line_in (packet_row op) offset op size part.now) ≤ length out.old }
    ensures { Puts at (line_in (packet_row op) offset op size part.now) out.old result out.new }
{
    match op {
        CREATE_BUFFER => put_buffer(out, at, offset, size, part),
        CREATE_TEXTURE => put_texture(out, at, offset, size, part),
        DESTROY => put_destroy(out, at, offset, size, part),
        DIRTY_RANGE => put_dirty(out, at, offset, size, part),
        COPY_BUFFER => put_copy(out, at, offset, size, part),
        SET_TARGET => put_target(out, at, offset, size, part),
        SET_VIEWPORT => put_viewport(out, at, offset, size, part),
        SET_SCISSOR => put_scissor(out, at, offset, size, part),
        CLEAR => put_clear(out, at, offset, size, part),
        EXPORT_SURFACE => put_export(out, at, offset, size, part),
        IMPORT_SURFACE => put_import(out, at, offset, size, part),
        RELEASE_TOKEN => put_release(out, at, offset, size, part),
        _ => put_unknown(out, at, offset, size, u32_to_word(op)),
    }
}
