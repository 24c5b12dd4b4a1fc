// The next line of a listing: of the packet at a place of the stream, or the one that ends the listing there.
#![tactic(auto)]

ghost use Rattle.std.specs.Prelude.{◌≡◌, ◌+◌, ◌≤◌, ◌<◌, length, take, drop, Ok};
ghost use Rattle.rules.specs.Stream.{frame_of};
ghost use Rattle.rules.specs.PacketRows.{packet_row};
ghost use Rattle.rules.specs.Dump.{line_in, ending_text};
ghost use Rattle.rules.specs.Dump.Ending.{refused};
ghost use Rattle.text_numbers.specs.Writing.{Puts};
ghost use Rattle.dump_next.specs.Rest.{next_line};
ghost use Rattle.dump_next.specs.Next.{Goes};

use dump_lines::put_stopped;
use dump_packets::put_line;
use dump_reader::seen_by_reader;
use refusals::number;
use rules::Refusal;
use stream_listing::Seen;
use stream_packets::framing::packet_part;
use text_filling::fill;
use widths::{u32_to_usize, u32_to_word, usize_to_word};

// How a listing goes on behind a line: from this place of the stream and this place of the buffer, or not, with the place where it ended.
#[derive(Clone, Copy)]
pub enum Going {
    On(usize, usize),
    Ended(usize),
}

// Writes the line of a broken rule, and gives the place behind it.
pub fn put_error(out: &mut [u8], end: usize, why: Refusal) -> usize
    requires { end + length (ending_text (refused why)) ≤ length out.old }
    ensures { Puts end (ending_text (refused why)) out.old result out.new }
{
    let numbers: [u64; 1] = [u32_to_word(number(why))];
    fill(out, end, b"error=%\n", &numbers)
}

// Writes the line of the packet that is framed at a place of the stream.
fn put_packet(out: &mut [u8], end: usize, dump: &[u8], at: usize, op: u32, size: u32) -> usize
    requires dump_value { frame_of (drop at dump.now) ≡ Ok (op, size) }
    requires dump_in_bounds { end + length (line_in (packet_row op) at op size (take size (drop at dump.now))) ≤ length out.old }
    ensures { Puts end (line_in (packet_row op) at op size (take size (drop at dump.now))) out.old result out.new }
{
    let part = packet_part(dump, at, u32_to_usize(size));
    put_line(out, end, usize_to_word(at), u32_to_word(size), op, part)
}

// Writes the next line, at a place of the stream where bytes are left. It asks for the room of that line alone.
pub fn put_next(out: &mut [u8], end: usize, dump: &[u8], at: usize, strict: bool) -> Going
    requires at_in_bounds { at < length dump.now }
    requires at_in_bounds_2 { end + length (next_line strict dump.now at) ≤ length out.old }
    ensures { Goes strict dump.now at end out.old result out.new }
{
    match seen_by_reader(dump, at) {
        Seen::Bad(why) => Going::Ended(put_error(out, end, why)),
        Seen::Known(op, size) => {
            let last = put_packet(out, end, dump, at, op, size);
            Going::On(at + u32_to_usize(size), last)
        }
        Seen::Unknown(op, size) => {
            if strict {
                return Going::Ended(put_stopped(
                    out,
                    end,
                    usize_to_word(at),
                    u32_to_word(size),
                    u32_to_word(op),
                ));
            }
            let last = put_packet(out, end, dump, at, op, size);
            Going::On(at + u32_to_usize(size), last)
        }
    }
}
