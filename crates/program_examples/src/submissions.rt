// Examples 9 and 10: whole submissions in a memory of 16,384 bytes, from the opening to the host's wait or a refusal.
// The ring stands at 0; then come the table and the stream of its first slot, and the range of the table's entry.
ghost use Rattle.std.specs.Prelude.{◌≤◌, length};

use crate::guest::{
    RING_SIZE, put_create, put_descriptor, put_dirty, put_entry, put_ring, put_stream, put_table,
    table_size,
};
use call_errors::answer;
use device::{Device, Ran, spent_beside, value_beside};
use program_lines::Count;
use registers::offsets;
use rules::numbers::{CREATE_BUFFER_SIZE, DESCRIPTOR_SIZE, DIRTY_RANGE_SIZE, STREAM_HEADER_SIZE};
use rules::{CreateBuffer, Descriptor, DirtyRange, Ended, Entry};

const TABLE: usize = 1024;

const STREAM: usize = 2048;

const ENTRY: usize = 8192;

const STREAM_SIZE: u32 = STREAM_HEADER_SIZE + CREATE_BUFFER_SIZE + DIRTY_RANGE_SIZE;

// ---- the device

// A device for this memory, enabled, with its ring named and the doorbell rung.
fn rung(memory: usize) -> Device {
    let made = Device::new(memory);
    let sized = made.write(offsets::RING_SIZE, RING_SIZE);
    let with_ring = sized.device;
    let enabled = with_ring.write(offsets::CONTROL, 1);
    let with_control = enabled.device;
    let rang = with_control.write(offsets::DOORBELL, 0);
    rang.device
}

// ---- lines

// What a line says of how a run ended.
fn how(ended: Ended) -> &'static str {
    match ended {
        Ended::Waiting => "waits",
        Ended::Idle => "idle",
        Ended::Paused => "paused",
    }
}

// How a run ended, and after how many units.
fn run_line(rt: &impl Print, example: u32, r: &Ran, allowance: u16) {
    let spent = spent_beside(r.answer);
    let how = how(spent.ended);
    let units = Count {
        count: u32::from(spent.units),
        noun: "unit",
    };
    let _ = println!(rt; "example {example}: run of {allowance}: {how} after {units}");
}

// A register that the guest reads.
fn register_line(rt: &impl Print, example: u32, d: Device, name: &str, offset: u32) {
    let _ = println!(rt;
        "example {example}: {name} {}",
        value_beside(d.read(offset))
    );
}

// A record that the host gets, if it is there.
fn record_line(rt: &impl Print, example: u32, d: Device, i: u32) {
    let Ok(r) = d.record(i) else {
        return;
    };
    let _ = println!(rt;
        "example {example}: record {} of handle {} in entry {}: {}, {} bytes",
        r.kind, r.handle, r.id, r.gpa, r.length
    );
}

// The run that comes next.
fn run_lines(rt: &impl Print, example: u32, d: Device, mem: &mut [u8], allowance: u16) -> Device {
    let r = d.run(mem, allowance);
    run_line(rt, example, &r, allowance);
    r.device
}

// The host's good answer with the run that it goes on to, and the fence after it. Where nothing waits it is refused, and the run comes by
// itself.
fn answer_lines(rt: &impl Print, example: u32, d: Device, mem: &mut [u8], allowance: u16) {
    let r = d.answer(mem, true, allowance);
    let _ = println!(rt; "example {example}: answer good: {}", answer(r.answer));
    register_line(rt, example, r.device, "completed", offsets::COMPLETED_LOW);
    if r.answer.is_ok() {
        run_line(rt, example, &r, allowance);
        return;
    }
    run_lines(rt, example, r.device, mem, allowance);
}

// The host's part: the records and the error, its answer and the run after it.
fn host_lines(rt: &impl Print, example: u32, d: Device, mem: &mut [u8], allowance: u16) {
    for i in 0..3 {
        record_line(rt, example, d, i);
    }
    register_line(rt, example, d, "error", offsets::ERROR_CODE);
    answer_lines(rt, example, d, mem, allowance);
}

// What comes of the submission at the head of the ring.
fn submission_lines(rt: &impl Print, example: u32, mem: &mut [u8], allowance: u16) {
    let d = run_lines(rt, example, rung(mem.len()), mem, allowance);
    host_lines(rt, example, d, mem, allowance);
}

// ---- the examples

// A stream of two packets: a buffer in entry 5, and a dirty range of it.
fn put_packets(part: &mut [u8]) {
    let first = STREAM_HEADER_SIZE as usize;
    let second = first + CREATE_BUFFER_SIZE as usize;
    put_stream(part, STREAM_SIZE);
    put_create(
        part,
        first,
        CreateBuffer {
            handle: 1,
            size: 256,
            backing: 5,
            offset: 64,
        },
    );
    put_dirty(
        part,
        second,
        DirtyRange {
            handle: 1,
            offset: 16,
            size: 32,
        },
    );
}

// The submission of both examples: a table that has room for so many entries, and the stream.
fn put_submission(mem: &mut [u8], count: u32)
    requires { 8192 ≤ length mem.old }
{
    put_ring(mem, 0, 1);
    put_descriptor(
        mem,
        0,
        Descriptor {
            size: DESCRIPTOR_SIZE,
            flags: 0,
            cmd: STREAM as u64,
            cmdsize: STREAM_SIZE,
            table: TABLE as u64,
            tablesize: table_size(count),
            signal: 1,
        },
    );
    put_table(&mut mem[TABLE..STREAM], count);
    put_packets(&mut mem[STREAM..ENTRY]);
}

// Entry 5, as entry `i` of the table.
fn put_entry_5(mem: &mut [u8], i: u32)
    requires { 8192 ≤ length mem.old }
{
    put_entry(
        &mut mem[TABLE..STREAM],
        i,
        Entry {
            id: 5,
            flags: 0,
            gpa: ENTRY as u64,
            size: 4096,
        },
    );
}

// A submission of one entry, run whole and answered.
pub fn example_9(rt: &impl Print) {
    let mut mem = [0u8; 16384];
    put_submission(&mut mem, 1);
    put_entry_5(&mut mem, 0);
    submission_lines(rt, 9, &mut mem, 64);
}

// The second entry is the first again.
pub fn example_10(rt: &impl Print) {
    let mut mem = [0u8; 16384];
    put_submission(&mut mem, 2);
    put_entry_5(&mut mem, 0);
    put_entry_5(&mut mem, 1);
    submission_lines(rt, 10, &mut mem, 3);
}
