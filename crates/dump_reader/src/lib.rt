// A small dump reader: it holds the dump and its place in it. `reader_at` makes one, and `next_packet` says what is at its place; the work
// is done by `seen_at`.
#![tactic(auto)]

ghost use Rattle.std.specs.Prelude.{◌≡◌, drop};
ghost use Rattle.stream_listing.specs.Seen.{seen};

use stream_listing::{Seen, seen_at};

// A dump, and a place in it.
#[derive(Clone, Copy)]
pub struct DumpReader<'a> {
    pub dump: &'a [u8],
    pub at: usize,
}

// A reader of a dump, at a place of it.
pub fn reader_at<'a>(dump: &'a [u8], at: usize) -> DumpReader<'a>
    ensures { (result.dump ≡ dump.entry) × (result.at ≡ at) }
{
    DumpReader { dump, at }
}

// The packet at the reader's place.
pub fn next_packet<'a>(r: DumpReader<'a>) -> Seen
    ensures { result ≡ seen (drop r.entry.at r.entry.dump.now) }
{
    seen_at(r.dump, r.at)
}

// The packet at a place of a dump, by a reader of it: for callers that hold no reader.
pub fn seen_by_reader(dump: &[u8], at: usize) -> Seen
    ensures { result ≡ seen (drop at dump.now) }
{
    next_packet(reader_at(dump, at))
}
