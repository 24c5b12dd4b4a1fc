// The device as a value: every call takes it and hands it back, with the call's outcome. It is a struct of the words and
// tables that the calls work on, and lends them. No call asks anything of its caller: whatever stands in the device or in memory, it ends
// and says what it gives.
#![tactic(auto)]

ghost use Rattle.std.specs.Prelude.{◌≡◌};
ghost use Rattle.rules.specs.State.{made};
ghost use Rattle.rules.specs.Calls.{call_write, call_read, call_run, call_record, call_answer};
ghost use Rattle.rules.specs.Saved.{call_save};
ghost use Rattle.rules.specs.Loaded.{call_load};
ghost use Rattle.device_calls.specs.Views.{value_of, record_read_of};
ghost use Rattle.device_memory_calls.specs.Views.{spent_beside};
ghost use Rattle.saved_save.specs.Views.{saved_of};
ghost use Rattle.saved_load.specs.Views.{load_place};
ghost use Rattle.device.specs.Views.{state_of, world_of, wrote_of, ran_of, loaded_of};

use call_errors::CallError;
use device_calls::ZERO_RECORD;
use device_memory_calls::{NOTHING_SPENT, Spent};
use rules::{Form, Record};
use saved_load::BadFile;

// A device by value: its words, the entries kept, the two tables of resources, the two of tokens, and the records.
#[derive(Clone, Copy)]
pub struct Device {
    pub words: [u64; 36],
    pub entries: [u64; 256],
    pub first: [u64; 768],
    pub second: [u64; 768],
    pub firsttokens: [u64; 512],
    pub secondtokens: [u64; 512],
    pub records: [u64; 320],
}

// What came of a write, and the device after it.
#[derive(Clone, Copy)]
pub struct Wrote {
    pub answer: Result<(), CallError>,
    pub device: Device,
}

// What came of a run or an answer, and the device after it.
#[derive(Clone, Copy)]
pub struct Ran {
    pub answer: Result<Spent, CallError>,
    pub device: Device,
}

// What came of a load, and the device after it.
#[derive(Clone, Copy)]
pub struct Loaded {
    pub answer: Result<(), BadFile>,
    pub device: Device,
}

impl Device {
    // A device for a memory of so many bytes, as after a reset, with error and writable registers zero.
    pub fn new(memory: usize) -> Device
        ensures { state_of result ≡ made memory }
    {
        let mut words = [0u64; 36];
        device_calls::make(&mut words, memory);
        Device {
            words,
            entries: [0u64; 256],
            first: [0u64; 768],
            second: [0u64; 768],
            firsttokens: [0u64; 512],
            secondtokens: [0u64; 512],
            records: [0u64; 320],
        }
    }

    // What a write to a register makes of the device.
    pub fn write(self, offset: u32, value: u32) -> Wrote
        ensures { wrote_of result ≡ call_write (state_of self) offset value }
    {
        let mut device = self;
        let answer = register_writes::write(&mut device.words, offset, value);
        Wrote { answer, device }
    }

    // What a register shows.
    pub fn read(self, offset: u32) -> Result<u32, CallError>
        ensures { value_of result ≡ call_read (state_of self) offset }
    {
        device_calls::read(&self.words, offset)
    }

    // Record i of the submission that waits.
    pub fn record(self, i: u32) -> Result<Record, CallError>
        ensures { record_read_of result ≡ call_record (state_of self) i }
    {
        device_calls::record(&self.words, &self.records, i)
    }

    // As many units as are allowed, over the memory lent now; says how many were spent and how it ended.
    pub fn run(self, mem: &mut [u8], allowance: u16) -> Ran
        ensures { ran_of result mem.new ≡ call_run (world_of self mem.old) allowance }
    {
        let mut device = self;
        let answer = device_memory_calls::run(
            &mut device.words,
            &mut device.entries,
            &mut device.first,
            &mut device.second,
            &mut device.firsttokens,
            &mut device.secondtokens,
            &mut device.records,
            mem,
            allowance,
        );
        Ran { answer, device }
    }

    // The host's answer to what waits, and at once as many units as are allowed; says how many were spent and how it ended. An allowance
    // of 0 is an answer alone.
    pub fn answer(self, mem: &mut [u8], good: bool, allowance: u16) -> Ran
        ensures { ran_of result mem.new ≡ call_answer (world_of self mem.old) good allowance }
    {
        let mut device = self;
        let answer = device_memory_calls::answer(
            &mut device.words,
            &mut device.entries,
            &mut device.first,
            &mut device.second,
            &mut device.firsttokens,
            &mut device.secondtokens,
            &mut device.records,
            mem,
            good,
            allowance,
        );
        Ran { answer, device }
    }

    // Writes the device, at rest, into the lent buffer, in this form of a saved desk; says how many bytes those are.
    pub fn save(self, form: Form, buffer: &mut [u8]) -> Result<u32, CallError>
        ensures { saved_of result buffer.new ≡ call_save form (state_of self) buffer.old }
    {
        saved_save::save(
            form,
            &self.words,
            &self.first,
            &self.second,
            &self.firsttokens,
            &self.secondtokens,
            buffer,
        )
    }

    // What a saved desk makes of the device, whatever it was; a bad file leaves it.
    pub fn load(self, file: &[u8]) -> Loaded
        ensures { loaded_of result ≡ call_load (state_of self) file.now }
    {
        let mut device = self;
        let answer = saved_load::load(
            &mut device.words,
            &mut device.first,
            &mut device.firsttokens,
            file,
        );
        Loaded { answer, device }
    }
}

// ---- what stands beside a call's answer

// The value beside a read's answer, or the length beside a save's: 0 beside a refusal.
pub fn value_beside(x: Result<u32, CallError>) -> u32
    ensures { result ≡ (value_of x).value }
{
    x.unwrap_or(0)
}

// The record beside the answer: one of zeros beside a refusal.
pub fn record_beside(x: Result<Record, CallError>) -> Record
    ensures { result ≡ (record_read_of x).range }
{
    x.unwrap_or(ZERO_RECORD)
}

// The units beside a run's answer and how it ended: none, and idle, beside a refusal.
pub fn spent_beside(x: Result<Spent, CallError>) -> Spent
    ensures { result ≡ spent_beside x }
{
    x.unwrap_or(NOTHING_SPENT)
}

// The place beside a load's answer: that of the first bad field or byte, 0 where there is none.
pub fn place_beside(x: Result<(), BadFile>) -> u32
    ensures { result ≡ load_place x }
{
    match x {
        Ok(()) => 0,
        Err(bad) => bad.place,
    }
}
