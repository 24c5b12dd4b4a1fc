// Example 8: an entry that ends where memory does, and one that ends a byte later.
use crate::guest::{put_entry, put_table};
use crate::lines::Judged;
use rules::Entry;

// The first error of a table whose one entry has this range.
fn entry_line(rt: &impl Print, memory: u64, gpa: u64, size: u64) {
    let mut bytes = [0u8; 56]; // a header and one entry
    put_table(&mut bytes, 1);
    put_entry(
        &mut bytes,
        0,
        Entry {
            id: 1,
            flags: 0,
            gpa,
            size,
        },
    );
    let judged = Judged::from(table_whole::whole::first_fault(&bytes, memory).code);
    let _ = println!(rt; "example 8: memory {memory}, gpa {gpa}, size {size}: {judged}");
}

// An entry that ends where memory does, and one that ends a byte further.
pub fn example_8(rt: &impl Print) {
    entry_line(rt, 4096, 0, 4096);
    entry_line(rt, 4096, 1, 4096);
}
