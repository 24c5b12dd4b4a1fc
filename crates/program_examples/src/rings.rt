// Examples 6 and 7: which slot the head names when it wraps, and a tail too far ahead.
// Each slot holds an empty submission whose signal fence is the slot's own number, so the opening tells which it read.
use crate::guest::{RING, RING_SIZE, SLOTS, put_descriptor, put_ring};
use crate::lines::Judged;
use refusals::number;
use ring_header::header::header_at;
use ring_opening::opening::open;
use rules::numbers::DESCRIPTOR_SIZE;
use rules::{Descriptor, Opening, Refusal};

// A submission without a table and without a stream.
fn empty_submission(signal: u64) -> Descriptor {
    Descriptor {
        size: DESCRIPTOR_SIZE,
        flags: 0,
        cmd: 0,
        cmdsize: 0,
        table: 0,
        tablesize: 0,
        signal,
    }
}

// A submission in each slot.
fn put_slots(mem: &mut [u8]) {
    for slot in 0..SLOTS {
        put_descriptor(mem, slot, empty_submission(u64::from(slot)));
    }
}

// What the opening gives.
fn opening_line(rt: &impl Print, example: u32, mem: &[u8; 576]) {
    let h = header_at(mem, 0);
    let _ = print!(rt;
        "example {example}: head {}, tail {}, count {}: ",
        h.head, h.tail, h.count
    );
    let _ = match open(mem, RING, RING_SIZE) {
        Opening::BadRing => println!(rt; "{}", Judged::Refused(number(Refusal::BadRing))),
        Opening::NoWork => println!(rt; "no work"),
        Opening::Refused(_, why) => println!(rt; "{}", Judged::from(number(why))),
        Opening::Started(o) => println!(rt; "opened slot {}", o.job.signal),
    };
}

// Moves the head past the submission that the ring opens with, as settling it does.
fn pass_submission(mem: &mut [u8; 576]) {
    if let Opening::Started(o) = open(mem, RING, RING_SIZE) {
        settle::write_head(mem, o.job);
    }
}

// Just one is pending: once it is passed there is no work.
pub fn example_6(rt: &impl Print) {
    let mut mem = [0u8; 576];
    put_ring(&mut mem, u32::MAX, 0);
    put_slots(&mut mem);
    opening_line(rt, 6, &mem);
    pass_submission(&mut mem);
    opening_line(rt, 6, &mem);
}

// Nine pending in a ring of eight slots: a bad ring.
pub fn example_7(rt: &impl Print) {
    let mut mem = [0u8; 576];
    put_ring(&mut mem, 0, 9);
    put_slots(&mut mem);
    opening_line(rt, 7, &mem);
}
