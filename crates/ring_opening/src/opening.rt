// How an opening ends: a bad ring, no work, a submission that is refused, or one that was started.
// Ranges are looked into only where they are present, and only once they are known to lie within memory.
ghost use Rattle.std.specs.Prelude.{◌≡◌, ◌+◌, ◌≤◌, ◌<◌, length};
ghost use Rattle.rules.specs.Ring.{submission_opening, ring_opening, opening_of};
ghost use Rattle.ring_opening.specs.Opening.{Inside, table_of, judged_stream, RangesInside, ranges_of, SlotInside};

use ring_descriptor::descriptor::{descriptor_at, descriptor_verdict, range_verdict};
use ring_header::header::{good, header_at, slot_offset};
use rules::numbers::RING_HEADER_SIZE;
use rules::{Descriptor, Job, Opened, Opening, Refusal, RingHeader, Stream, Table};
use widths::{beyond, u32_to_word, usize_to_word, word_to_usize};

// 13 and 19, where a table is present.
fn open_table(mem: &[u8], gpa: u64, size: u32) -> Result<Table, Refusal>
    requires { Inside (length mem.now) gpa size }
    ensures { result ≡ table_of mem.now gpa size }
{
    if size == 0 {
        return Ok(Table {
            gpa: 0,
            count: 0,
            stride: 0,
        });
    }
    table_header::header::check_header(mem, word_to_usize(gpa), u32_to_word(size))
}

// 16, where a stream is present.
fn open_stream(mem: &[u8], gpa: u64, size: u32) -> Result<Stream, Refusal>
    requires { Inside (length mem.now) gpa size }
    ensures { result ≡ judged_stream mem.now gpa size }
{
    if size == 0 {
        return Ok(Stream { gpa: 0, size: 0 });
    }
    stream_header::header::check_header(mem, word_to_usize(gpa), u32_to_word(size))
}

// The submission that a descriptor describes, once 11 and 12 have passed.
fn open_ranges(mem: &[u8], job: Job, d: Descriptor) -> Opening
    requires { RangesInside (length mem.now) d }
    ensures { result ≡ ranges_of mem.now job d }
{
    match open_table(mem, d.table, d.tablesize) {
        Err(why) => Opening::Refused(job, why),
        Ok(table) => match open_stream(mem, d.cmd, d.cmdsize) {
            Err(why) => Opening::Refused(job, why),
            Ok(stream) => Opening::Started(Opened { job, table, stream }),
        },
    }
}

// The submission that a descriptor describes: 11 to 16, in order.
pub fn open_submission(mem: &[u8], stride: u32, job: Job, d: Descriptor) -> Opening
    ensures { result ≡ submission_opening mem.now stride job d }
{
    let memory = usize_to_word(mem.len());
    match descriptor_verdict(stride, d) {
        Err(why) => Opening::Refused(job, why),
        Ok(()) => match range_verdict(memory, d) {
            Err(why) => Opening::Refused(job, why),
            Ok(()) => open_ranges(mem, job, d),
        },
    }
}

// What stands at the head of a good ring.
fn open_head(mem: &[u8], ring: u64, h: RingHeader) -> Opening
    requires { SlotInside (length mem.now) ring h }
    ensures { result ≡ ring_opening mem.now ring h }
{
    if h.head == h.tail {
        return Opening::NoWork;
    }
    let d = descriptor_at(mem, word_to_usize(ring + slot_offset(h)));
    let job = Job {
        ring,
        head: h.head,
        signal: d.signal,
        silent: d.flags % 2 == 1,
    };
    open_submission(mem, h.stride, job, d)
}

// Opens the ring at a GPA, of a size: whatever the memory and the registers hold.
pub fn open(mem: &[u8], ring: u64, size: u32) -> Opening
    ensures { result ≡ opening_of mem.now ring size }
{
    let memory = usize_to_word(mem.len());
    let bytes = u32_to_word(size);
    if size < RING_HEADER_SIZE {
        return Opening::BadRing;
    }
    if beyond(ring, bytes, memory) {
        return Opening::BadRing;
    }
    let h = header_at(mem, word_to_usize(ring));
    if !good(size, h) {
        return Opening::BadRing;
    }
    open_head(mem, ring, h)
}
