// A stream packet by packet: its own bytes, the rule that it breaks, the size of the packet at a place, and the place of the one with an index.
#![tactic(auto)]

ghost use Rattle.std.specs.Prelude.{◌≡◌};
ghost use Rattle.rules.specs.Layouts.{stream_header_size};
ghost use Rattle.rules.specs.Lists.{nth};
ghost use Rattle.rules.specs.Difference.{own, fault, broken_by, packet_at, size_at};
ghost use Rattle.diff_walk.specs.Walk.{packets_from, ending_from};

use rules::Refusal;
use stream_header::header::check_header;
use stream_packets::framing::packet_at;
use widths::{u32_to_usize, usize_to_word};

const STREAM_HEADER_SIZE: usize = rules::numbers::STREAM_HEADER_SIZE as usize;

// A stream's own bytes: none where its header is bad.
pub fn own_bytes(stream: &[u8]) -> &[u8]
    ensures { result.now ≡ own stream.now }
{
    match check_header(stream, 0, usize_to_word(stream.len())) {
        Err(_) => &stream[..0],
        Ok(s) => {
            let size = u32_to_usize(s.size);
            &stream[..size]
        }
    }
}

// The size of the packet at a place of a stream, 0 where there is none.
pub fn size_at(stream: &[u8], at: usize) -> usize
    ensures { result ≡ size_at stream.now at }
{
    match packet_at(stream, at) {
        Err(_) => 0,
        Ok((size, _)) => u32_to_usize(size),
    }
}

// The place of the packet with an index; where there is none, a place without a packet.
pub fn place_of(stream: &[u8], index: usize) -> usize
    ensures { packet_at stream.now result ≡ nth (packets_from stream.now stream_header_size) index }
{
    let mut at = STREAM_HEADER_SIZE;
    for _ in 0..index {
        let size = size_at(stream, at);
        if size == 0 {
            return at;
        }
        at += size;
    }
    at
}

// The first rule that the packets of a stream's own bytes break.
fn packets_fault(stream: &[u8]) -> Result<(), Refusal>
    ensures { result ≡ broken_by (ending_from stream.now stream_header_size) }
{
    let mut at = STREAM_HEADER_SIZE;
    while at < stream.len() {
        let size = size_at(stream, at);
        if size == 0 {
            return Err(Refusal::BadPacket);
        }
        at += size;
    }
    Ok(())
}

// The rule that a stream breaks, 16 or 17.
pub fn fault_of(stream: &[u8]) -> Result<(), Refusal>
    ensures { result ≡ fault stream.now }
{
    match check_header(stream, 0, usize_to_word(stream.len())) {
        Err(why) => Err(why),
        Ok(s) => {
            let size = u32_to_usize(s.size);
            packets_fault(&stream[..size])
        }
    }
}
