// What differs between two dumps (02, wish 8), asked of any bytes: whether they are valid streams, where they part, how the packets with an index
// compare and where these differ. A cursor goes over all packets in one pass.
#![tactic(auto)]

ghost use Rattle.std.specs.Prelude.{◌≡◌};
ghost use Rattle.rules.specs.Difference.{check, parts, class_asked, next_asked, start, pair_at, next_at, onward, behind};

use diff_pairs::{next_in, pair_in, parting};
use diff_walk::{fault_of, own_bytes, place_of, size_at};
use rules::{Class, Cursor, Pair, RefusedStream};

const STREAM_HEADER_SIZE: usize = rules::numbers::STREAM_HEADER_SIZE as usize;

// Whether two dumps are valid streams. The first is refused if both break a rule.
pub fn check(first: &[u8], second: &[u8]) -> Result<(), RefusedStream>
    ensures { result ≡ check first.now second.now }
{
    if let Err(why) = fault_of(first) {
        return Err(RefusedStream { why, which: 1 });
    }
    if let Err(why) = fault_of(second) {
        return Err(RefusedStream { why, which: 2 });
    }
    Ok(())
}

// The first packet index that is not equal.
#[tactic(auto, using(crate::specs::Calls::asking_parts))]
pub fn parts(first: &[u8], second: &[u8]) -> Result<Option<usize>, RefusedStream>
    ensures { result ≡ parts first.now second.now }
{
    check(first, second)?;
    Ok(parting(own_bytes(first), own_bytes(second)))
}

// How the packets with an index compare, whatever the index is.
pub fn class_of(first: &[u8], second: &[u8], index: usize) -> Result<Class, RefusedStream>
    ensures { result ≡ class_asked first.now second.now index }
{
    match check(first, second) {
        Err(refused) => Err(refused),
        Ok(()) => {
            let a = own_bytes(first);
            let b = own_bytes(second);
            let pair = pair_in(a, place_of(a, index), b, place_of(b, index));
            let class = pair.class;
            Ok(class)
        }
    }
}

// The next differing offset of the packets with an index, from a given one on.
#[tactic(auto, using(crate::specs::Calls::asking_next))]
pub fn next_offset(
    first: &[u8],
    second: &[u8],
    index: usize,
    from: usize,
) -> Result<Option<usize>, RefusedStream>
    ensures { result ≡ next_asked first.now second.now index from }
{
    check(first, second)?;
    let a = own_bytes(first);
    let b = own_bytes(second);
    Ok(next_in(a, place_of(a, index), b, place_of(b, index), from))
}

// A cursor at the first packets.
#[tactic(auto, using(crate::specs::Calls::asking_start))]
pub fn start(first: &[u8], second: &[u8]) -> Result<Cursor, RefusedStream>
    ensures { result ≡ start first.now second.now }
{
    check(first, second)?;
    Ok(Cursor {
        first: STREAM_HEADER_SIZE,
        second: STREAM_HEADER_SIZE,
    })
}

// The packets at a cursor, whatever its places are.
pub fn pair_at(first: &[u8], second: &[u8], cursor: Cursor) -> Pair
    ensures { result ≡ pair_at first.now second.now cursor }
{
    pair_in(
        own_bytes(first),
        cursor.first,
        own_bytes(second),
        cursor.second,
    )
}

// The next differing offset of the packets at a cursor, from a given one on.
pub fn next_at(first: &[u8], second: &[u8], cursor: Cursor, from: usize) -> Option<usize>
    ensures { result ≡ next_at first.now second.now cursor from }
{
    next_in(
        own_bytes(first),
        cursor.first,
        own_bytes(second),
        cursor.second,
        from,
    )
}

// The place behind the packet at a place of a stream's own bytes; the place itself where there is none.
fn behind(stream: &[u8], at: usize) -> usize
    ensures { result ≡ behind stream.now at }
{
    at + size_at(stream, at)
}

// The cursor at the packets behind those at a cursor.
pub fn onward(first: &[u8], second: &[u8], cursor: Cursor) -> Cursor
    ensures { result ≡ onward first.now second.now cursor }
{
    Cursor {
        first: behind(own_bytes(first), cursor.first),
        second: behind(own_bytes(second), cursor.second),
    }
}
