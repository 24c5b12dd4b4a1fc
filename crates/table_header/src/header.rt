// The header of an allocation table: read once, judged, and the numbers kept of it.
// Later steps go by the numbers kept, whatever the guest writes there since.
ghost use Rattle.std.specs.Prelude.{◌≡◌, ◌+◌, ◌*◌, ◌^◌, ◌≤◌, length};
ghost use Rattle.rules.specs.Layouts.{table_header, table_header_size};
ghost use Rattle.rules.specs.Table.{header_rules, checked_table};
ghost use Rattle.table_header.specs.Header.{headed};

use headers::wrong_header;
use rules::numbers::{MOST_ROWS, TABLE_HEADER_SIZE, TABLE_MAGIC};
use rules::{Refusal, Table, TableHeader};

// The bytes of a table's header and of an entry that are named; more may follow them.
pub const HEADER_SIZE: u64 = TABLE_HEADER_SIZE as u64;

pub const ENTRY_SIZE: u64 = rules::numbers::ENTRY_SIZE as u64;

// Reads each field once: what is judged is what is kept.
fn header_at(mem: &[u8], at: usize) -> TableHeader
    requires { at + table_header_size ≤ length mem.now }
    ensures { result ≡ table_header mem.now at }
{
    TableHeader {
        magic: words::u32_at(mem, at),
        version: words::u32_at(mem, at + 4),
        size: words::u32_at(mem, at + 8),
        count: words::u32_at(mem, at + 12),
        stride: words::u32_at(mem, at + 16),
    }
}

// How far from a table's start entry `i` stands: by the table's own stride.
pub fn entry_offset(stride: u32, i: u32) -> u64
    ensures { (result ≡ table_header_size + i * stride) × (result + 4294967296 ≤ 18446744073709551616) }
{
    rows::row_offset(TABLE_HEADER_SIZE, i, stride)
}

// Judges a header that was read, for a table of so many bytes.
pub fn header_verdict(tablesize: u64, h: TableHeader) -> Result<(), Refusal>
    ensures { result ≡ header_rules tablesize h }
{
    if wrong_header(
        TABLE_MAGIC,
        HEADER_SIZE,
        tablesize,
        h.magic,
        h.version,
        h.size,
    ) {
        return Err(Refusal::BadTable);
    }
    if (h.stride as u64) < ENTRY_SIZE {
        return Err(Refusal::BadTable);
    }
    let end = entry_offset(h.stride, h.count);
    if (h.size as u64) < end {
        return Err(Refusal::BadTable);
    }
    if (MOST_ROWS as u64) < h.count as u64 {
        return Err(Refusal::TooMany);
    }
    Ok(())
}

// Reads and judges the header of a table that lies within memory. A table too short for one is not read.
#[tactic(auto, using(crate::specs::Header::checking_header))]
pub fn check_header(mem: &[u8], at: usize, tablesize: u64) -> Result<Table, Refusal>
    requires { at + tablesize ≤ length mem.now }
    ensures { result ≡ headed (header_rules tablesize (table_header mem.now at)) (checked_table at (table_header mem.now at)) }
{
    if tablesize < HEADER_SIZE {
        return Err(Refusal::BadTable);
    }
    let h = header_at(mem, at);
    header_verdict(tablesize, h)?;
    Ok(Table {
        gpa: at as u64,
        count: h.count,
        stride: h.stride,
    })
}
