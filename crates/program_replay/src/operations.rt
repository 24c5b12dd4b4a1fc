// What the operations of a desk script do: each calls the device and prints its line.
use crate::script::Operation;
use crate::state::{State, hash};
use call_errors::{CallError, answer as answer_number};
use device::{Device, Ran, place_beside, record_beside, spent_beside, value_beside};
use rules::{Ended, Form};
use saved_move::move_form;
use std::alloc::AllocError;

// What a buffer holds before a save.
const FILLED: u8 = 170;

// ---- memory

// The bytes that fall outside memory are dropped.
fn poke(rt: &impl Print, memory: &mut [u8], address: usize, bytes: &[u8]) {
    if let Some(part) = memory.get_mut(address..) {
        let n = part.len().min(bytes.len());
        part[..n].copy_from_slice(&bytes[..n]);
    }
    let _ = println!(rt; "poke");
}

// ---- registers

// A register that the guest writes.
fn write_register(rt: &impl Print, device: &mut Device, offset: u32, value: u32) {
    let w = device.write(offset, value);
    *device = w.device;
    let _ = println!(rt; "write {}", answer_number(w.answer));
}

// A register that the guest reads.
fn read_register(rt: &impl Print, device: &Device, offset: u32) {
    let r = device.read(offset);
    let _ = println!(rt; "read {} {}", answer_number(r), value_beside(r));
}

// ---- running

// Takes the device of a run, or of an answer that runs on, and prints the line: its answer, the units and how it ended.
fn take_ran(rt: &impl Print, device: &mut Device, call: &str, r: &Ran) {
    *device = r.device;
    let spent = spent_beside(r.answer);
    let ended = match spent.ended {
        Ended::Idle => "idle",
        Ended::Waiting => "waiting",
        Ended::Paused => "paused",
    };
    let _ = println!(rt;
        "{call} {} {} {ended}",
        answer_number(r.answer),
        spent.units
    );
}

// A run over the memory that is lent.
fn run(rt: &impl Print, device: &mut Device, memory: &mut [u8], allowance: u16) {
    let r = device.run(memory, allowance);
    take_ran(rt, device, "run", &r);
}

// ---- the host

// A record that the host asks for.
fn record(rt: &impl Print, device: &Device, index: u32) {
    let h = device.record(index);
    let r = record_beside(h);
    let _ = println!(rt;
        "record {} {} {} {} {} {}",
        answer_number(h),
        r.kind,
        r.handle,
        r.id,
        r.gpa,
        r.length
    );
}

// The host's answer, over the memory that is lent.
fn answer(rt: &impl Print, device: &mut Device, memory: &mut [u8], is_good: bool, allowance: u16) {
    let r = device.answer(memory, is_good, allowance);
    take_ran(rt, device, "answer", &r);
}

// ---- saved desks (02, wishes 1 and 11)

// The line of what was written: the answer, the length, and the hash of the whole buffer.
fn say_written(rt: &impl Print, call: &str, r: Result<u32, CallError>, buffer: &[u8]) {
    let _ = println!(rt;
        "{call} {} {} {}",
        answer_number(r),
        value_beside(r),
        hash(buffer)
    );
}

// A save in this form into a buffer of so many bytes.
fn save(
    rt: &(impl Print + AllocGlobal),
    device: &Device,
    form: Form,
    length: usize,
) -> Result<(), AllocError> {
    let mut buffer = vec![in rt.alloc(); FILLED; length]?;
    let r = device.save(form, buffer.as_mut_slice());
    say_written(rt, "save", r, buffer.as_slice());
    Ok(())
}

// A load of a file: the answer and the place.
fn load(rt: &impl Print, device: &mut Device, file: &[u8]) {
    let r = device.load(file);
    *device = r.device;
    let _ = println!(rt;
        "load {} {}",
        answer_number(r.answer.map_err(CallError::from)),
        place_beside(r.answer)
    );
}

// A move of a file to the other form, into a buffer of so many bytes.
fn move_file(
    rt: &(impl Print + AllocGlobal),
    file: &[u8],
    length: usize,
) -> Result<(), AllocError> {
    let mut buffer = vec![in rt.alloc(); FILLED; length]?;
    let r = move_form(file, buffer.as_mut_slice());
    say_written(rt, "move", r, buffer.as_slice());
    Ok(())
}

// ---- all

// Does an operation on the device and the memory that it is lent, and prints its line. A line that cannot be printed is passed over: only memory
// that runs out is an error.
pub fn operate(
    rt: &(impl Print + AllocGlobal),
    operation: Operation<'_>,
    device: &mut Device,
    memory: &mut [u8],
) -> Result<(), AllocError> {
    match operation {
        Operation::Poke { address, bytes } => poke(rt, memory, address, bytes),
        Operation::Write { offset, value } => write_register(rt, device, offset, value),
        Operation::Read { offset } => read_register(rt, device, offset),
        Operation::Run { allowance } => run(rt, device, memory, allowance),
        Operation::Record { index } => record(rt, device, index),
        Operation::Answer { is_good, allowance } => answer(rt, device, memory, is_good, allowance),
        Operation::State => {
            let _ = println!(rt; "{}", State { device, memory });
        }
        Operation::RunElsewhere { allowance, length } => {
            let mut zeros = vec![in rt.alloc(); 0u8; length]?;
            run(rt, device, zeros.as_mut_slice(), allowance);
        }
        Operation::AnswerElsewhere {
            is_good,
            allowance,
            length,
        } => {
            let mut zeros = vec![in rt.alloc(); 0u8; length]?;
            answer(rt, device, zeros.as_mut_slice(), is_good, allowance);
        }
        Operation::Save { form, length } => save(rt, device, form, length)?,
        Operation::Load { file } => load(rt, device, file),
        Operation::Move { file, length } => move_file(rt, file, length)?,
    }
    Ok(())
}
