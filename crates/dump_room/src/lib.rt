// Whether the text of a dump has room in a buffer, told before a byte of the buffer is written. A buffer with room for the longest text of such a dump
// is told by its length; for any other, each line is written into a buffer of its own and measured. The writers ask for exactly the room of their text,
// so a text that fits a buffer to the last byte is not refused.
#![tactic(auto)]

ghost use Rattle.std.specs.Prelude.{◌≡◌, not, ◌+◌, ◌*◌, ◌≤◌, ltb, length};
ghost use Rattle.rules.specs.Layouts.{stream_header_size};
ghost use Rattle.rules.specs.Dump.{text_of, dump_of};
ghost use Rattle.dump_next.specs.Rest.{rest_from};
ghost use Rattle.dump_room.specs.Widest.{longest_line};
ghost use Rattle.dump_room.specs.Fitting.{fits};

use dump_next::{Going, put_error, put_next};
use stream_header::header::check_header;
use widths::{u32_to_usize, usize_to_word};

const STREAM_HEADER_SIZE: usize = rules::numbers::STREAM_HEADER_SIZE as usize;

// A buffer for the longest line.
fn line_room() -> [u8; 326]
    ensures { 326 ≡ length result }
{
    [0; 326]
}

// Whether this many bytes have room in that many.
fn within(long: usize, room: usize) -> bool
    ensures { result ≡ not (ltb room long) }
{
    if long > room {
        return false;
    }
    true
}

// Whether this many bytes have room for the longest text of a dump of that length: a line has at most ten times the bytes of its packet, and the ending
// has at most 90.
fn ample(long: usize, room: usize) -> bool
    ensures { result ≡ not (ltb room (10 * long + 90)) }
{
    if room < 90 {
        return false;
    }
    if long > (room - 90) / 10 {
        return false;
    }
    true
}

// Whether the lines of a stream, from its first packet on, have room. `line` is overwritten line by line.
fn packets_fit(line: &mut [u8], dump: &[u8], strict: bool, room: usize) -> bool
    requires { longest_line ≤ length line.old }
    ensures { result ≡ fits (rest_from strict dump.now stream_header_size) room }
{
    let mut at = STREAM_HEADER_SIZE;
    let mut left = room;
    while at < dump.len() {
        match put_next(line, 0, dump, at, strict) {
            Going::Ended(last) => return within(last, left),
            Going::On(next, last) => {
                if last > left {
                    return false;
                }
                left -= last;
                at = next;
            }
        }
    }
    true
}

// Whether the text of a dump has room in this many bytes.
pub fn dump_fits(dump: &[u8], strict: bool, room: usize) -> bool
    ensures { result ≡ fits (text_of (dump_of strict dump.now)) room }
{
    if ample(dump.len(), room) {
        return true;
    }
    let mut line = line_room();
    match check_header(dump, 0, usize_to_word(dump.len())) {
        Err(why) => within(put_error(&mut line, 0, why), room),
        Ok(s) => {
            let size = u32_to_usize(s.size);
            packets_fit(&mut line, &dump[..size], strict, room)
        }
    }
}
