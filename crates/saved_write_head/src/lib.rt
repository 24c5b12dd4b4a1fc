// The front of a saved desk: its form's number, section 1, and section 2's count.
#![tactic(auto)]

ghost use Rattle.std.specs.Prelude.{◌≡◌, ◌∷◌, ◌+◌, ◌≤◌, length};
ghost use Rattle.rules.specs.Lists.{over};
ghost use Rattle.rules.specs.Saved.{file_of, number_of, number_bytes, head_bytes};
ghost use Rattle.saved_write_head.specs.Head.{register_fields, memory_fields, head_in};

use registers::{bit, high, status};
use rules::Form;
use rules::numbers::{DEVICE_MAGIC, FEATURES, VERSION};
use run_state::{
    COMPLETED, DOORBELL, ENABLED, ERROR_CODE, ERROR_COUNT, ERROR_DETAIL, ERROR_FENCE, FENCE_PAGE,
    IRQ_ENABLE, MEMORY, RING, RING_SIZE, Words,
};
use saved_write::put_fields;
use words::low32;

// The bytes of the form's number, section 1's count and the 18 registers that both forms have.
const REGISTERS_END: usize = 80;

// The bytes of a field.
const FIELD: usize = 4;

// Where the first resource stands.
pub fn head_end(form: Form) -> usize
    ensures { result ≡ number_bytes + head_bytes form }
{
    match form {
        Form::One => 96,
        Form::Two => 100,
    }
}

// Writes the form's number, how many numbers section 1 has, and the registers that both forms have.
fn put_registers(buffer: &mut [u8], words: &Words, number: u32, numbers: u32)
    requires { 80 ≤ length buffer.old }
    ensures { buffer.new ≡ over 0 (file_of (register_fields number numbers words.now)) buffer.old }
{
    let fields: [u32; 20] = [
        number,
        numbers,
        DEVICE_MAGIC,
        VERSION,
        FEATURES,
        0,
        low32(words[RING]),
        high(words[RING]),
        low32(words[RING_SIZE]),
        bit(words[ENABLED]),
        low32(words[FENCE_PAGE]),
        high(words[FENCE_PAGE]),
        low32(words[COMPLETED]),
        high(words[COMPLETED]),
        status(words),
        low32(words[IRQ_ENABLE]),
        low32(words[ERROR_CODE]),
        low32(words[ERROR_FENCE]),
        high(words[ERROR_FENCE]),
        low32(words[ERROR_COUNT]),
    ];
    put_fields(buffer, 0, &fields);
}

// Writes the memory's length, the doorbell flag and section 2's count.
fn put_memory(buffer: &mut [u8], at: usize, words: &Words, count: u32)
    requires { at + 16 ≤ length buffer.old }
    ensures { buffer.new ≡ over at (file_of (memory_fields words.now count)) buffer.old }
{
    let fields: [u32; 4] = [
        low32(words[MEMORY]),
        high(words[MEMORY]),
        bit(words[DOORBELL]),
        count,
    ];
    put_fields(buffer, at, &fields);
}

// Writes all fields of a device's words in a form, before `count` resources.
pub fn put_head(buffer: &mut [u8], words: &Words, form: Form, count: u32)
    requires { number_bytes + head_bytes form ≤ length buffer.old }
    ensures { buffer.new ≡ over 0 (file_of (number_of form ∷ head_in form words.now count)) buffer.old }
{
    match form {
        Form::One => {
            put_registers(buffer, words, 1, 21);
            put_memory(buffer, REGISTERS_END, words, count);
        }
        Form::Two => {
            put_registers(buffer, words, 2, 22);
            let detail: [u32; 1] = [low32(words[ERROR_DETAIL])];
            put_fields(buffer, REGISTERS_END, &detail);
            put_memory(buffer, REGISTERS_END + FIELD, words, count);
        }
    }
}
