// The calls on a device's words that are lent no guest memory: make, read, record (write stands in `registers`). None asks anything of its
// caller.
#![tactic(auto)]

ghost use Rattle.device_calls.specs.Views.{Makes, Reads, GivesRecord};

use call_errors::CallError;
use kept_records::{Records, record_row};
use rules::Record;
use run_state::{
    COMPLETED, DOORBELL, ENABLED, ERROR_CODE, ERROR_COUNT, ERROR_DETAIL, ERROR_FENCE, FAILED,
    FENCE_PAGE, FENCED, IRQ_ENABLE, LIVE, MADE, MEMORY, RING, RING_SIZE, SIDE, TAG, TOKEN_SIDE,
    TOKENS, WAITING, Words, rest, rows_in,
};
use widths::{u32_to_usize, usize_to_word};

// What stands beside the answer of a refused record call.
pub const ZERO_RECORD: Record = Record {
    kind: 0,
    handle: 0,
    id: 0,
    gpa: 0,
    length: 0,
};

// Makes a device for a memory of so many bytes. Its tables may hold anything.
pub fn make(words: &mut Words, memory: usize)
    ensures { Makes memory words.new }
{
    let bytes = usize_to_word(memory);
    let all = &words[..];
    words[MEMORY] = bytes;
    words[RING] = 0;
    words[RING_SIZE] = 0;
    words[ENABLED] = 0;
    words[FENCE_PAGE] = 0;
    words[COMPLETED] = 0;
    words[FENCED] = 0;
    words[FAILED] = 0;
    words[IRQ_ENABLE] = 0;
    words[ERROR_CODE] = 0;
    words[ERROR_FENCE] = 0;
    words[ERROR_COUNT] = 0;
    words[ERROR_DETAIL] = 0;
    words[DOORBELL] = 0;
    words[LIVE] = 0;
    words[SIDE] = 0;
    words[TOKENS] = 0;
    words[TOKEN_SIDE] = 0;
    rest(words);
}

// Reads a register.
pub fn read(words: &Words, offset: u32) -> Result<u32, CallError>
    ensures { Reads words.now offset result }
{
    registers::read(words, offset).ok_or(CallError::NoRegister)
}

// Record i of the submission that waits.
pub fn record(words: &Words, records: &Records, i: u32) -> Result<Record, CallError>
    ensures { GivesRecord words.now records.now i result }
{
    let at = u32_to_usize(i);
    if words[TAG] < WAITING || at >= rows_in(words[MADE]) {
        return Err(CallError::NoRecord);
    }
    Ok(record_row(records, at))
}
