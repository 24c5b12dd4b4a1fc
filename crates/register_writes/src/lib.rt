// What a write to a register does to a device's words: only those that change are set.
#![tactic(auto)]

ghost use Rattle.std.specs.Prelude.{◌≡◌, not, ◌&&◌};
ghost use Rattle.rules.specs.Registers.{with_low, with_high, bit_of};
ghost use Rattle.run_state.specs.Views.{set_in};
ghost use Rattle.call_errors.specs.Answers.{answer_of};
ghost use Rattle.register_writes.specs.Views.{Controls, Acks, Writes};

use call_errors::CallError;
use registers::{HALF, offsets};
use run_state::{
    COMPLETED, DOORBELL, ENABLED, FAILED, FENCE_PAGE, FENCED, IRQ_ENABLE, LIVE, RING, RING_SIZE,
    TOKENS, Words, flag, rest,
};
use widths::u32_to_word;

fn with_low(v: u32, x: u64) -> u64
    ensures { result ≡ with_low v x }
{
    u32_to_word(v) + HALF * (x / HALF)
}

fn with_high(v: u32, x: u64) -> u64
    ensures { result ≡ with_high v x }
{
    x % HALF + HALF * u32_to_word(v)
}

fn bit_0(v: u32) -> bool
    ensures { result ≡ bit_of 0 v }
{
    v % 2 == 1
}

fn bit_1(v: u32) -> bool
    ensures { result ≡ bit_of 1 v }
{
    v / 2 % 2 == 1
}

// A status word after an ack of it, or of others.
fn left(status: u64, acked: bool) -> u64
    ensures { set_in result ≡ (set_in status && not acked) }
{
    if acked { 0 } else { status }
}

// Bit 0 enables, bit 1 resets; a reset takes bit 0 from the same write.
fn control(words: &mut Words, value: u32)
    ensures { Controls words.old value words.new }
{
    let on = flag(bit_0(value));
    let all = &words[..];
    words[ENABLED] = on;
    if bit_1(value) {
        words[COMPLETED] = 0;
        words[FENCED] = 0;
        words[FAILED] = 0;
        words[DOORBELL] = 0;
        words[LIVE] = 0;
        words[TOKENS] = 0;
        rest(words);
    }
}

// The status bits written as 1 are cleared.
fn acknowledge(words: &mut Words, value: u32)
    ensures { Acks words.old value words.new }
{
    let fenced = left(words[FENCED], bit_0(value));
    let failed = left(words[FAILED], bit_1(value));
    let all = &words[..];
    words[FENCED] = fenced;
    words[FAILED] = failed;
}

// Writes a register, if one at this offset is written.
pub fn write(words: &mut Words, offset: u32, value: u32) -> Result<(), CallError>
    ensures { Writes words.old offset value (answer_of result) words.new }
{
    let all = &words[..];
    match offset {
        offsets::RING_LOW => words[RING] = with_low(value, words[RING]),
        offsets::RING_HIGH => words[RING] = with_high(value, words[RING]),
        offsets::RING_SIZE => words[RING_SIZE] = u32_to_word(value),
        offsets::CONTROL => control(words, value),
        offsets::PAGE_LOW => words[FENCE_PAGE] = with_low(value, words[FENCE_PAGE]),
        offsets::PAGE_HIGH => words[FENCE_PAGE] = with_high(value, words[FENCE_PAGE]),
        offsets::DOORBELL => words[DOORBELL] = 1,
        offsets::IRQ_ENABLE => words[IRQ_ENABLE] = u32_to_word(value),
        offsets::IRQ_ACK => acknowledge(words, value),
        _ => return Err(CallError::NoRegister),
    }
    Ok(())
}
