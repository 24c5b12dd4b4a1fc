// What is at a place of a stream: a packet by its opcode and its size, or the rule that is broken. It is for those who walk a
// stream without doing its packets: the listing of a dump (02, wish 3) and the difference of two (02, wish 8).
#![tactic(auto)]

ghost use Rattle.std.specs.Prelude.{◌≡◌, drop};
ghost use Rattle.rules.specs.Dump.{is_unknown};
ghost use Rattle.stream_listing.specs.Seen.{seen};

use rules::{Packet, Refusal};
use stream_packets::framing::packet_at;
use words::u32_at;

// A packet by its opcode and its size, whose opcode is in the table or is not; or no packet, by the rule that is broken.
#[derive(Clone, Copy)]
pub enum Seen {
    Known(u32, u32),
    Unknown(u32, u32),
    Bad(Refusal),
}

fn unknown(packet: Packet) -> bool
    ensures { result ≡ is_unknown packet }
{
    matches!(packet, Packet::Unknown)
}

// What is at a place of a stream, whatever the bytes and the place are.
pub fn seen_at(stream: &[u8], at: usize) -> Seen
    ensures { result ≡ seen (drop at stream.now) }
{
    match packet_at(stream, at) {
        Err(why) => Seen::Bad(why),
        Ok((size, packet)) => {
            let op = u32_at(stream, at);
            if unknown(packet) {
                return Seen::Unknown(op, size);
            }
            Seen::Known(op, size)
        }
    }
}
