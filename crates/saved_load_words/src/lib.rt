// The words of a device that a good file says: its memory's length, its registers, and how many rows of its tables are live. Places count from the
// first byte of the sections.
#![tactic(auto)]

ghost use Rattle.std.specs.Prelude.{◌≡◌, ◌+◌, ◌≤◌, ◌<◌, length};
ghost use Rattle.rules.specs.Numbers.{most, most_tokens};
ghost use Rattle.rules.specs.Layouts.{word};
ghost use Rattle.rules.specs.Saved.{head_bytes};
ghost use Rattle.rules.specs.Loaded.{detail_in};
ghost use Rattle.rules.specs.declared.Form.TheVariants.{One};
ghost use Rattle.saved_load_words.specs.Views.{ring_words, status_words, error_words, LoadsRegisters, LoadsWords};

use rules::Form;
use run_state::{
    COMPLETED, DOORBELL, ENABLED, ERROR_CODE, ERROR_COUNT, ERROR_DETAIL, ERROR_FENCE, FAILED,
    FENCE_PAGE, FENCED, IRQ_ENABLE, LIVE, MEMORY, RING, RING_SIZE, SIDE, TOKEN_SIDE, TOKENS, Words,
    flag, rest,
};
use saved_forms::more_registers;
use saved_head::{DETAIL_PLACE, MEMORY_PLACE, REGISTER_BYTES};
use widths::{u32_to_usize, u32_to_word, usize_to_word};
use words::{u32_at, u64_at};

// The memory's length, which stands at this place, the ring and its size, control, the fence page and the completed fence.
fn load_ring(words: &mut Words, file: &[u8], memory: usize)
    requires { (head_bytes One ≤ length file.now) × (memory + 16 ≤ length file.now) }
    ensures { (words.new ≡ ring_words memory file.now words.old) × (word file.now 28 < 4294967296) }
{
    words[MEMORY] = u64_at(file, memory);
    words[RING] = u64_at(file, 20);
    words[RING_SIZE] = u32_to_word(u32_at(file, 28));
    words[ENABLED] = flag(u32_at(file, 32) == 1);
    words[FENCE_PAGE] = u64_at(file, 36);
    words[COMPLETED] = u64_at(file, 44);
}

// IRQ status and enable, and the doorbell flag, which stands behind the memory's length.
fn load_status(words: &mut Words, file: &[u8], memory: usize)
    requires { (head_bytes One ≤ length file.now) × (memory + 16 ≤ length file.now) }
    ensures { (words.new ≡ status_words memory file.now words.old) × (word file.now 56 < 4294967296) }
{
    let status = u32_at(file, 52);
    words[FENCED] = flag(status % 2 == 1);
    words[FAILED] = flag(status / 2 % 2 == 1);
    words[IRQ_ENABLE] = u32_to_word(u32_at(file, 56));
    words[DOORBELL] = flag(u32_at(file, memory + 8) == 1);
}

// The last error's detail, where the form has it.
fn detail_in(form: Form, file: &[u8]) -> u32
    requires { head_bytes form ≤ length file.now }
    ensures { result ≡ detail_in form file.now }
{
    match form {
        Form::One => 0,
        Form::Two => u32_at(file, u32_to_usize(DETAIL_PLACE)),
    }
}

// The last error.
fn load_error(words: &mut Words, file: &[u8], detail: u32)
    requires { head_bytes One ≤ length file.now }
    ensures { (words.new ≡ error_words detail file.now words.old)
        × ((word file.now 60 < 4294967296) × ((word file.now 72 < 4294967296) × (detail < 4294967296))) }
{
    words[ERROR_CODE] = u32_to_word(u32_at(file, 60));
    words[ERROR_FENCE] = u64_at(file, 64);
    words[ERROR_COUNT] = u32_to_word(u32_at(file, 72));
    words[ERROR_DETAIL] = u32_to_word(detail);
}

// The memory's length, all registers, and the flag.
fn load_registers(words: &mut Words, form: Form, file: &[u8])
    requires { head_bytes form ≤ length file.now }
    ensures { LoadsRegisters form file.now words.old words.new }
{
    let memory = u32_to_usize(MEMORY_PLACE + REGISTER_BYTES * more_registers(form));
    let detail = detail_in(form, file);
    load_ring(words, file, memory);
    load_status(words, file, memory);
    load_error(words, file, detail);
}

// All words: the device has so many rows of the first table of resources, and of tokens, and nothing is in work.
pub fn load_words(words: &mut Words, form: Form, file: &[u8], live: usize, used: usize)
    requires { (head_bytes form ≤ length file.now) × ((live ≤ most) × (used ≤ most_tokens)) }
    ensures { LoadsWords form file.now live used words.new }
{
    let rows = usize_to_word(live);
    let tokens = usize_to_word(used);
    let all = &words[..];
    load_registers(words, form, file);
    words[LIVE] = rows;
    words[SIDE] = 0;
    words[TOKENS] = tokens;
    words[TOKEN_SIDE] = 0;
    rest(words);
}
