// Where the bytes of two packets differ: bytes past the shorter of the two count as differing.
#![tactic(auto)]

ghost use Rattle.std.specs.Prelude.{◌≡◌, ◌+◌, ◌≤◌, length};
ghost use Rattle.rules.specs.Difference.{differing, next_from};
ghost use Rattle.diff_bytes.specs.Differing.{differs_at, from_offset, SameEight};

use words::u64_at;

// Whether two packets differ at an offset.
fn differs(a: &[u8], b: &[u8], i: usize) -> bool
    ensures { result ≡ differs_at a.now b.now i }
{
    match (a.get(i), b.get(i)) {
        (Some(x), Some(y)) => *x != *y,
        (None, None) => false,
        _ => true,
    }
}

// Whether the eight bytes from an offset on are the same in both, by one load of each.
fn same_eight(a: &[u8], b: &[u8], i: usize) -> bool
    requires i_in_bounds { i + 8 ≤ length a.now }
    requires i_in_bounds_2 { i + 8 ≤ length b.now }
    ensures { SameEight a.now b.now i result }
{
    u64_at(a, i) == u64_at(b, i)
}

// An offset before which nothing differs from `from` on, found eight bytes a turn.
fn equal_until(a: &[u8], b: &[u8], from: usize) -> usize
    ensures { from_offset a.now b.now from ≡ from_offset a.now b.now result }
{
    let end = a.len().min(b.len());
    let mut i = from;
    while i < end && end - i >= 8 && same_eight(a, b, i) {
        i += 8;
    }
    i
}

// The least offset, not below `from`, where two packets differ.
pub fn next_differing(a: &[u8], b: &[u8], from: usize) -> Option<usize>
    ensures { result ≡ next_from from (differing a.now b.now) }
{
    let end = a.len().max(b.len());
    for i in equal_until(a, b, from)..end {
        if differs(a, b, i) {
            return Some(i);
        }
    }
    None
}
