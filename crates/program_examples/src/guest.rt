// What a guest writes into its memory: rings, descriptors, tables and streams, field by field.
// A write past the end of memory is dropped, so no writer asks how long it is.
ghost use Rattle.std.specs.Prelude.{◌<◌};

use rules::numbers::{
    CREATE_BUFFER, CREATE_BUFFER_SIZE, DESCRIPTOR_SIZE, DIRTY_RANGE, DIRTY_RANGE_SIZE, ENTRY_SIZE,
    RING_HEADER_SIZE, RING_MAGIC, STREAM_MAGIC, TABLE_HEADER_SIZE, TABLE_MAGIC, VERSION,
};
use rules::{CreateBuffer, Descriptor, DirtyRange, Entry};

// The examples' rings stand at 0 and have eight slots, each as long as a descriptor.
pub const RING: u64 = 0;

pub const SLOTS: u32 = 8;

pub const RING_SIZE: u32 = 576;

// ---- fields: `field` bytes from where a thing starts

fn put_word(mem: &mut [u8], start: usize, field: usize, v: u32) {
    let at = start.saturating_add(field);
    if at < mem.len() && mem.len() - at >= 4 {
        words::stores::put_u32(&mut mem[at..at + 4], v);
    }
}

fn put_long(mem: &mut [u8], start: usize, field: usize, v: u64)
    requires { field < 64 }
{
    put_word(mem, start, field, words::low32(v));
    put_word(mem, start, field + 4, words::low32(v >> 32));
}

// The fields that the headers of rings, tables and streams begin with.
fn put_header(mem: &mut [u8], magic: u32, size: u32) {
    put_word(mem, 0, 0, magic);
    put_word(mem, 0, 4, VERSION);
    put_word(mem, 0, 8, size);
}

// ---- the ring

// A ring header of the night log's ring, at the start of memory.
pub fn put_ring(mem: &mut [u8], head: u32, tail: u32) {
    put_header(mem, RING_MAGIC, RING_SIZE);
    put_word(mem, 0, 12, SLOTS);
    put_word(mem, 0, 16, DESCRIPTOR_SIZE);
    put_word(mem, 0, 24, head);
    put_word(mem, 0, 28, tail);
}

// A descriptor into its slot.
pub fn put_descriptor(mem: &mut [u8], slot: u32, d: Descriptor) {
    let start = rows::row_offset(RING_HEADER_SIZE, slot, DESCRIPTOR_SIZE) as usize;
    put_word(mem, start, 0, d.size);
    put_word(mem, start, 4, d.flags);
    put_long(mem, start, 16, d.cmd);
    put_word(mem, start, 24, d.cmdsize);
    put_long(mem, start, 32, d.table);
    put_word(mem, start, 40, d.tablesize);
    put_long(mem, start, 48, d.signal);
}

// ---- the table, in the part of memory that is lent for it

// The bytes of a table of so many entries, which stand close together.
pub fn table_size(count: u32) -> u32 {
    words::low32(rows::row_offset(TABLE_HEADER_SIZE, count, ENTRY_SIZE))
}

// The header of a table of so many entries.
pub fn put_table(part: &mut [u8], count: u32) {
    put_header(part, TABLE_MAGIC, table_size(count));
    put_word(part, 0, 12, count);
    put_word(part, 0, 16, ENTRY_SIZE);
}

// Entry i of a table.
pub fn put_entry(part: &mut [u8], i: u32, e: Entry) {
    let start = rows::row_offset(TABLE_HEADER_SIZE, i, ENTRY_SIZE) as usize;
    put_word(part, start, 0, e.id);
    put_word(part, start, 4, e.flags);
    put_long(part, start, 8, e.gpa);
    put_long(part, start, 16, e.size);
}

// ---- the stream, in the part of memory that is lent for it

// The header of a stream of so many bytes.
pub fn put_stream(part: &mut [u8], size: u32) {
    put_header(part, STREAM_MAGIC, size);
}

// A packet that creates a buffer.
pub fn put_create(part: &mut [u8], start: usize, p: CreateBuffer) {
    put_word(part, start, 0, CREATE_BUFFER);
    put_word(part, start, 4, CREATE_BUFFER_SIZE);
    put_word(part, start, 8, p.handle);
    put_long(part, start, 16, p.size);
    put_word(part, start, 24, p.backing);
    put_word(part, start, 28, p.offset);
}

// A packet that marks a range dirty.
pub fn put_dirty(part: &mut [u8], start: usize, p: DirtyRange) {
    put_word(part, start, 0, DIRTY_RANGE);
    put_word(part, start, 4, DIRTY_RANGE_SIZE);
    put_word(part, start, 8, p.handle);
    put_long(part, start, 16, p.offset);
    put_long(part, start, 24, p.size);
}
