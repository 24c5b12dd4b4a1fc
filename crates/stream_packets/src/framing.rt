// A packet of the stream: where it ends, judged from its first eight bytes, its own part of the stream, and what that says.
// A reader goes on by the packet's size until no byte is left.
// What each packet passes is inlined, so that its enums stay in registers.
ghost use Rattle.std.specs.Prelude.{◌≡◌, ◌+◌, ◌-◌, ◌≤◌, ◌<◌, length, take, drop};
ghost use Rattle.stream_packets.specs.Framing.{misframed, in_blocks, packet_read_at, Passed};

use rules::numbers::{CLEAR, CREATE_BUFFER, EXPORT_SURFACE, SET_TARGET};
use rules::{Packet, Refusal};
use stream_opcodes::read_part;
use widths::u32_to_usize;
use words::u32_at;

const PACKET_HEADER_SIZE: usize = rules::numbers::PACKET_HEADER_SIZE as usize;

// The opcodes that we know stand in blocks of so many: resources', state's, the clear's and tokens'.
const OPCODES_BLOCK: u32 = 8;

// Whether a packet of this size is none, whatever its opcode, where so many bytes are left.
fn misframed(left: usize, size: u32) -> bool
    ensures { result ≡ misframed left size }
{
    let long = u32_to_usize(size);
    if long > left {
        return true;
    }
    if long < PACKET_HEADER_SIZE {
        return true;
    }
    size % 4 != 0 // sizes are multiples of 4
}

// Whether an opcode stands in one of the blocks that have all that we know. Most that we do not know lie before or behind all of them.
fn may_be_known(op: u32) -> bool
    ensures { result ≡ in_blocks op }
{
    if op < CREATE_BUFFER {
        return false;
    }
    if op >= EXPORT_SURFACE + OPCODES_BLOCK {
        return false;
    }
    let block = op / OPCODES_BLOCK;
    if block == CREATE_BUFFER / OPCODES_BLOCK {
        return true;
    }
    if block == SET_TARGET / OPCODES_BLOCK {
        return true;
    }
    if block == CLEAR / OPCODES_BLOCK {
        return true;
    }
    block == EXPORT_SURFACE / OPCODES_BLOCK
}

// The size of a packet that is framed, is none that we know and is smaller than the room; 0 of any other, and of those whose opcode
// is in a block with some that we know. For a loop that goes over such packets: the header is known to be there, and one
// test of the size is enough for this packet and for the header of the next.
pub fn unknown_size(stream: &[u8], at: usize, room: usize) -> usize
    requires { (0 < room) × (at + room ≤ length stream.now - 7) }
    ensures { Passed stream.now at room result }
{
    let op = u32_at(stream, at);
    if may_be_known(op) {
        return 0;
    }
    let size = u32_at(stream, at + 4);
    let long = u32_to_usize(size);
    if long >= room {
        return 0;
    }
    if long < PACKET_HEADER_SIZE {
        return 0;
    }
    if size % 4 != 0 {
        return 0;
    }
    long
}

// A packet's own part of the stream.
pub fn packet_part(stream: &[u8], at: usize, size: usize) -> &[u8]
    requires { at + size ≤ length stream.now }
    ensures { result.now ≡ take size (drop at stream.now) }
{
    let end = at + size;
    &stream[at..end]
}

// The packet at a place of the stream, whatever the bytes and the place are. Past the end no byte is left. Of the stream's length alone a
// reader's loop asks once.
#[inline(always)]
pub fn packet_at(stream: &[u8], at: usize) -> Result<(u32, Packet), Refusal>
    ensures { result ≡ packet_read_at (drop at stream.now) }
{
    let end = stream.len();
    if end < PACKET_HEADER_SIZE {
        return Err(Refusal::BadPacket);
    }
    if at > end - PACKET_HEADER_SIZE {
        return Err(Refusal::BadPacket); // the last 1 to 7 bytes
    }
    let left = end - at;
    let op = u32_at(stream, at);
    let size = u32_at(stream, at + 4);
    if misframed(left, size) {
        return Err(Refusal::BadPacket);
    }
    match read_part(op, packet_part(stream, at, u32_to_usize(size))) {
        None => Err(Refusal::BadPacket),
        Some(packet) => Ok((size, packet)),
    }
}
