// The packets at two places of two streams' own bytes: how they compare, and where they differ.
#![tactic(auto)]

ghost use Rattle.std.specs.Prelude.{◌≡◌, ◌≤◌, length};
ghost use Rattle.rules.specs.Layouts.{stream_header_size};
ghost use Rattle.rules.specs.Difference.{class_both, class_of, offsets_both, offsets_of, next_from, packet_at, size_at, pair_in, parted};
ghost use Rattle.diff_walk.specs.Walk.{packets_from};

use diff_bytes::next_differing;
use diff_walk::size_at;
use rules::{Class, Pair};
use stream_packets::framing::packet_part;
use words::u32_at;

const STREAM_HEADER_SIZE: usize = rules::numbers::STREAM_HEADER_SIZE as usize;

// How two packets compare, by their own bytes.
fn compare(a: &[u8], b: &[u8]) -> Class
    requires in_bounds { 4 ≤ length a.now }
    requires in_bounds_2 { 4 ≤ length b.now }
    ensures { result ≡ class_both a.now b.now }
{
    if u32_at(a, 0) != u32_at(b, 0) {
        return Class::OtherOpcode;
    }
    match next_differing(a, b, 0) {
        Some(_) => Class::SameOpcode,
        None => Class::Equal,
    }
}

// How the packets at two places compare; their sizes are known, 0 where there is none.
fn class_of_sizes(
    first: &[u8],
    at: usize,
    size: usize,
    second: &[u8],
    to: usize,
    long: usize,
) -> Class
    requires size_value { size ≡ size_at first.now at }
    requires long_value { long ≡ size_at second.now to }
    ensures { result ≡ class_of (packet_at first.now at) (packet_at second.now to) }
{
    if size == 0 {
        if long == 0 {
            return Class::Neither;
        }
        return Class::OnlySecond;
    }
    if long == 0 {
        return Class::OnlyFirst;
    }
    compare(packet_part(first, at, size), packet_part(second, to, long))
}

// The packets at two places: how they compare, and their sizes.
pub fn pair_in(first: &[u8], at: usize, second: &[u8], to: usize) -> Pair
    ensures { result ≡ pair_in first.now at second.now to }
{
    let size = size_at(first, at);
    let long = size_at(second, to);
    let class = class_of_sizes(first, at, size, second, to, long);
    Pair {
        class,
        first: at,
        firstsize: size,
        second: to,
        secondsize: long,
    }
}

// The next differing offset of two packets that have one opcode.
fn next_of_parts(x: &[u8], y: &[u8], from: usize) -> Option<usize>
    requires in_bounds { 4 ≤ length x.now }
    requires in_bounds_2 { 4 ≤ length y.now }
    ensures { result ≡ next_from from (offsets_both x.now y.now) }
{
    if u32_at(x, 0) != u32_at(y, 0) {
        return None;
    }
    next_differing(x, y, from)
}

// The next differing offset, from a given one on, of the packets at two places.
pub fn next_in(first: &[u8], at: usize, second: &[u8], to: usize, from: usize) -> Option<usize>
    ensures { result ≡ next_from from (offsets_of (packet_at first.now at) (packet_at second.now to)) }
{
    let size = size_at(first, at);
    let long = size_at(second, to);
    if size == 0 {
        return None;
    }
    if long == 0 {
        return None;
    }
    next_of_parts(
        packet_part(first, at, size),
        packet_part(second, to, long),
        from,
    )
}

// The first packet index where two streams part: one pass over both.
pub fn parting(first: &[u8], second: &[u8]) -> Option<usize>
    ensures { result ≡ parted 0 (packets_from first.now stream_header_size) (packets_from second.now stream_header_size) }
{
    let mut at = STREAM_HEADER_SIZE;
    let mut to = STREAM_HEADER_SIZE;
    let mut i: usize = 0;
    loop {
        let pair = pair_in(first, at, second, to);
        let class = pair.class;
        match class {
            Class::Neither => return None,
            Class::SameOpcode => return Some(i),
            Class::OtherOpcode => return Some(i),
            Class::OnlyFirst => return Some(i),
            Class::OnlySecond => return Some(i),
            Class::Equal => {
                at += pair.firstsize;
                to += pair.secondsize;
                i += 1;
            }
        }
    }
}
