// Little-endian words written to a slice of bytes, each by one store.
ghost use Rattle.std.specs.Prelude.{◌≡◌, ◌/◌, ◌%◌, ◌≤◌, length};
ghost use Rattle.rules.specs.Bytes.{bytes_of};
ghost use Rattle.rules.specs.Lists.{over};

use crate::low32;

// The lowest byte of a word.
fn low8(v: u32) -> u8
    ensures { result ≡ v % 256 }
{
    (v & 255) as u8
}

// Writes a word of four bytes to the front of `part`: one store.
pub fn put_u32(part: &mut [u8], v: u32)
    requires { 4 ≤ length part.old }
    ensures { part.new ≡ over 0 (bytes_of 4 v) part.old }
{
    part[0] = low8(v);
    part[1] = low8(v >> 8);
    part[2] = low8(v >> 16);
    part[3] = low8(v >> 24);
}

// Writes a word of eight bytes to the front of `part`: one store.
pub fn put_u64(part: &mut [u8], v: u64)
    requires { 8 ≤ length part.old }
    ensures { part.new ≡ over 0 (bytes_of 8 v) part.old }
{
    put_u32(&mut part[0..4], low32(v));
    put_u32(&mut part[4..8], low32(v >> 32));
}
