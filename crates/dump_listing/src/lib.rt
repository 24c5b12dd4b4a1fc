// The text of a dump, written into a lent buffer: a line a packet, in order, and how it ends. A program calls `list` with room for every listing; a
// host calls `list_dump` with any buffer.
#![tactic(auto)]

ghost use Rattle.std.specs.Prelude.{◌≡◌, ◌≤◌, length};
ghost use Rattle.rules.specs.Layouts.{stream_header_size};
ghost use Rattle.rules.specs.Dump.{text_of, dump_of, bad_input, listing};
ghost use Rattle.text_numbers.specs.Writing.{Puts};
ghost use Rattle.dump_next.specs.Rest.{rest_from};
ghost use Rattle.dump_listing.specs.Views.{PutsDump, Dumps, longest_listing, Listing};

use call_errors::CallError;
use dump_next::{Going, put_error, put_next};
use dump_room::dump_fits;
use stream_header::header::check_header;
use text_filling::fill;
use widths::{u32_to_usize, usize_to_word};

const STREAM_HEADER_SIZE: usize = rules::numbers::STREAM_HEADER_SIZE as usize;

// The most bytes of a dump that the program reads.
const LONGEST_DUMP: usize = 65536;

// Writes every line of a stream from its first packet on to the front of a buffer with room for them; gives their length.
fn put_packets(out: &mut [u8], dump: &[u8], strict: bool) -> usize
    requires { length (rest_from strict dump.now stream_header_size) ≤ length out.old }
    ensures { Puts 0 (rest_from strict dump.now stream_header_size) out.old result out.new }
{
    let mut at = STREAM_HEADER_SIZE;
    let mut end: usize = 0;
    while at < dump.len() {
        match put_next(out, end, dump, at, strict) {
            Going::Ended(last) => return last,
            Going::On(next, last) => {
                at = next;
                end = last;
            }
        }
    }
    end
}

// Writes the text of a dump, its listing or the error of its header, to the front of a buffer with room for it; gives its length.
fn put_dump(out: &mut [u8], dump: &[u8], strict: bool) -> usize
    requires { length (text_of (dump_of strict dump.now)) ≤ length out.old }
    ensures { PutsDump strict dump.now out.old result out.new }
{
    match check_header(dump, 0, usize_to_word(dump.len())) {
        Err(why) => put_error(out, 0, why),
        Ok(s) => {
            let size = u32_to_usize(s.size);
            put_packets(out, &dump[..size], strict)
        }
    }
}

// For a host: writes the text of a dump of any length to the front of any buffer, and keeps the bytes behind it; gives its length. A buffer that is
// shorter than the text is refused, and no byte of it is written.
pub fn list_dump(dump: &[u8], strict: bool, buffer: &mut [u8]) -> Result<u64, CallError>
    ensures { Dumps strict dump.now buffer.old result buffer.new }
{
    if !dump_fits(dump, strict, buffer.len()) {
        return Err(CallError::TooShort);
    }
    let length = put_dump(buffer, dump, strict);
    Ok(usize_to_word(length))
}

// Writes the one fixed line.
fn put_bad_input(out: &mut [u8]) -> usize
    requires { length bad_input ≤ length out.old }
    ensures { Puts 0 bad_input out.old result out.new }
{
    let numbers: [u64; 1] = [0];
    fill(out, 0, b"bad input\n", &numbers)
}

// Writes the text for a whole input to the front of a buffer with room for it; gives its length.
fn put_listing(out: &mut [u8], input: &[u8]) -> usize
    requires { length (listing input.now) ≤ length out.old }
    ensures { Puts 0 (listing input.now) out.old result out.new }
{
    if input.len() == 0 {
        return put_bad_input(out);
    }
    if input[0] > 1 {
        return put_bad_input(out);
    }
    if input.len() - 1 > LONGEST_DUMP {
        return put_bad_input(out);
    }
    put_dump(out, &input[1..], input[0] == 1)
}

// For the program: writes the text for any input to the front of a buffer that has room for every listing; gives its length.
pub fn list(out: &mut [u8], input: &[u8]) -> usize
    requires { longest_listing ≤ length out.old }
    ensures { Listing input.now result out.new }
{
    put_listing(out, input)
}
