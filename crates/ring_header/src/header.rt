// The ring's header: read once, judged as a struct.
// Head and tail count submissions and wrap; the slot is the head's place among the slots.
ghost use Rattle.std.specs.Prelude.{◌≡◌, ◌+◌, ◌*◌, ◌%◌, ◌<◌, ◌≤◌, true, length};
ghost use Rattle.rules.specs.Numbers.{slot_doublings};
ghost use Rattle.rules.specs.Layouts.{ring_header, ring_header_size};
ghost use Rattle.rules.specs.Ring.{power_of_two, pending, good_header, slot};

use rules::RingHeader;
use rules::numbers::{DESCRIPTOR_SIZE, GOOD_MAJOR, MINORS, RING_HEADER_SIZE, RING_MAGIC};
use widths::u32_to_word;

// The most slots that a ring may have.
const MOST_SLOTS: u32 = 1024;

// Reads each field of a ring's header once.
pub fn header_at(mem: &[u8], at: usize) -> RingHeader
    requires { at + ring_header_size ≤ length mem.now }
    ensures { result ≡ ring_header mem.now at }
{
    RingHeader {
        magic: words::u32_at(mem, at),
        version: words::u32_at(mem, at + 4),
        size: words::u32_at(mem, at + 8),
        count: words::u32_at(mem, at + 12),
        stride: words::u32_at(mem, at + 16),
        head: words::u32_at(mem, at + 24),
        tail: words::u32_at(mem, at + 28),
    }
}

// Whether a ring may have so many slots: a power of two has no bit in common with the number below it.
fn good_count(n: u32) -> bool
    ensures { result ≡ power_of_two slot_doublings n }
{
    if n == 0 {
        return false;
    }
    if n > MOST_SLOTS {
        return false;
    }
    n & (n - 1) == 0
}

// How many submissions are pending.
fn pending_of(h: RingHeader) -> u32
    ensures { result ≡ pending h }
{
    std::num::wrapping_sub_u32(h.tail, h.head)
}

// Where slot `i` stands from the ring's start; the slots end where the one after the last would stand.
fn slot_at(h: RingHeader, i: u32) -> u64
    ensures { (result ≡ ring_header_size + i * h.stride) × (result + 4294967296 ≤ 18446744073709551616) }
{
    rows::row_offset(RING_HEADER_SIZE, i, h.stride)
}

// Judges a header in a ring of so many bytes.
pub fn good(size: u32, h: RingHeader) -> bool
    ensures { result ≡ good_header size h }
{
    if h.magic != RING_MAGIC {
        return false;
    }
    if h.version / MINORS != GOOD_MAJOR {
        return false;
    }
    if !good_count(h.count) {
        return false;
    }
    if h.stride < DESCRIPTOR_SIZE {
        return false;
    }
    if u32_to_word(h.size) < slot_at(h, h.count) {
        return false;
    }
    if size < h.size {
        return false;
    }
    pending_of(h) <= h.count
}

// Where the head's slot stands from the ring's start. By a power of two a remainder is a mask.
pub fn slot_offset(h: RingHeader) -> u64
    requires { power_of_two slot_doublings h.count ≡ true }
    ensures { (result ≡ ring_header_size + slot h * h.stride) × (result + 4294967296 ≤ 18446744073709551616) }
{
    slot_at(h, h.head & (h.count - 1))
}
