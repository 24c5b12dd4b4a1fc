// Little-endian words read from a slice of bytes, each by one load: what every other crate reads its numbers with.
#![tactic(auto)]

pub mod stores;

ghost use Rattle.std.specs.Prelude.{◌≡◌, ◌+◌, ◌/◌, ◌%◌, ◌≤◌, ◌<◌, length};
ghost use Rattle.rules.specs.Bytes.{field};

use widths::u32_to_word;

// The number of a byte, known to be one.
fn wide32(b: u8) -> u32
    ensures { (result ≡ b) × (result < 256) }
{
    b as u32
}

// The lower half of a word.
const LOW_32: u64 = 4294967295;

// The lower four bytes of a word of eight: a small number read from a row.
pub fn low32(v: u64) -> u32
    ensures { result ≡ v % 4294967296 }
{
    (v & LOW_32) as u32
}

// Reads a field of four bytes: one load.
pub fn u32_at(mem: &[u8], at: usize) -> u32
    requires { at + 4 ≤ length mem.now }
    ensures { result ≡ field 4 mem.now at }
{
    wide32(mem[at])
        | (wide32(mem[at + 1]) << 8)
        | (wide32(mem[at + 2]) << 16)
        | (wide32(mem[at + 3]) << 24)
}

// Reads a field of eight bytes: one load.
pub fn u64_at(mem: &[u8], at: usize) -> u64
    requires { at + 8 ≤ length mem.now }
    ensures { result ≡ field 8 mem.now at }
{
    u32_to_word(u32_at(mem, at)) | (u32_to_word(u32_at(mem, at + 4)) << 32)
}
