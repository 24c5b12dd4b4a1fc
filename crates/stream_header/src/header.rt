// The stream's header: read once, judged as a struct, and kept as two numbers.
// The caller has seen that the command range lies in memory.
ghost use Rattle.std.specs.Prelude.{◌≡◌, ◌+◌, ◌≤◌, length};
ghost use Rattle.rules.specs.Layouts.{stream_header, stream_header_size};
ghost use Rattle.rules.specs.Stream.{stream_rules, stream_of};
ghost use Rattle.stream_header.specs.Header.{begun};

use headers::wrong_header;
use rules::numbers::STREAM_MAGIC;
use rules::{Refusal, Stream, StreamHeader};
use words::u32_at;

const STREAM_HEADER_SIZE: u64 = rules::numbers::STREAM_HEADER_SIZE as u64;

// The header's fields, each read once.
fn header_at(mem: &[u8], at: usize) -> StreamHeader
    requires { at + stream_header_size ≤ length mem.now }
    ensures { result ≡ stream_header mem.now at }
{
    StreamHeader {
        magic: u32_at(mem, at),
        version: u32_at(mem, at + 4),
        size: u32_at(mem, at + 8),
    }
}

// Judges a header that was read, for a command range of so many bytes.
pub fn header_verdict(cmdsize: u64, h: StreamHeader) -> Result<(), Refusal>
    ensures { result ≡ stream_rules cmdsize h }
{
    if wrong_header(
        STREAM_MAGIC,
        STREAM_HEADER_SIZE,
        cmdsize,
        h.magic,
        h.version,
        h.size,
    ) {
        return Err(Refusal::BadStream);
    }
    Ok(())
}

// Checks the header at the start of the command range. Too short a range is not read.
#[tactic(auto, using(crate::specs::Header::heading))]
pub fn check_header(mem: &[u8], at: usize, cmdsize: u64) -> Result<Stream, Refusal>
    requires { at + cmdsize ≤ length mem.now }
    ensures { result ≡ begun (stream_rules cmdsize (stream_header mem.now at)) (stream_of at (stream_header mem.now at)) }
{
    if cmdsize < STREAM_HEADER_SIZE {
        return Err(Refusal::BadStream);
    }
    let h = header_at(mem, at);
    header_verdict(cmdsize, h)?;
    Ok(Stream {
        gpa: at as u64,
        size: h.size,
    })
}
