// A submission's descriptor: read once, and judged by 11 and 12.
// A range is present when its size is not 0.
ghost use Rattle.std.specs.Prelude.{◌≡◌, ◌+◌, ◌≤◌, ◌<◌, length};
ghost use Rattle.rules.specs.Layouts.{descriptor, descriptor_size};
ghost use Rattle.rules.specs.Ring.{descriptor_rules, range_rules};
ghost use Rattle.ring_descriptor.specs.Descriptor.{bad_range, past};

use rules::numbers::DESCRIPTOR_SIZE;
use rules::{Descriptor, Refusal};
use widths::{beyond, u32_to_word};

// Reads each field of a descriptor once.
pub fn descriptor_at(mem: &[u8], at: usize) -> Descriptor
    requires { at + descriptor_size ≤ length mem.now }
    ensures { result ≡ descriptor mem.now at }
{
    Descriptor {
        size: words::u32_at(mem, at),
        flags: words::u32_at(mem, at + 4),
        cmd: words::u64_at(mem, at + 16),
        cmdsize: words::u32_at(mem, at + 24),
        table: words::u64_at(mem, at + 32),
        tablesize: words::u32_at(mem, at + 40),
        signal: words::u64_at(mem, at + 48),
    }
}

// Whether a range is only half there, or ends above 2^64 - 1.
fn bad(gpa: u64, size: u32) -> bool
    ensures { result ≡ bad_range gpa size }
{
    if size == 0 {
        if gpa == 0 {
            return false;
        }
        return true;
    }
    if gpa == 0 {
        return true;
    }
    beyond(gpa, u32_to_word(size), u64::MAX)
}

// 11.
pub fn descriptor_verdict(stride: u32, d: Descriptor) -> Result<(), Refusal>
    ensures { result ≡ descriptor_rules stride d }
{
    if d.size < DESCRIPTOR_SIZE {
        return Err(Refusal::BadDescriptor);
    }
    if stride < d.size {
        return Err(Refusal::BadDescriptor);
    }
    if bad(d.cmd, d.cmdsize) {
        return Err(Refusal::BadDescriptor);
    }
    if bad(d.table, d.tablesize) {
        return Err(Refusal::BadDescriptor);
    }
    Ok(())
}

// Whether a range that is present ends past the memory.
fn outside(memory: u64, gpa: u64, size: u32) -> bool
    ensures { result ≡ past memory gpa size }
{
    let long = u32_to_word(size);
    if long == 0 {
        return false;
    }
    beyond(gpa, long, memory)
}

// 12.
pub fn range_verdict(memory: u64, d: Descriptor) -> Result<(), Refusal>
    ensures { result ≡ range_rules memory d }
{
    if outside(memory, d.cmd, d.cmdsize) {
        return Err(Refusal::OutsideMemory);
    }
    if outside(memory, d.table, d.tablesize) {
        return Err(Refusal::OutsideMemory);
    }
    Ok(())
}
