// The register map: what the guest reads at an offset, of a device's words. The offsets stand in offsets.rt.
#![tactic(auto)]

pub mod offsets;

ghost use Rattle.std.specs.Prelude.{◌≡◌, ◌≤◌};
ghost use Rattle.rules.specs.Registers.{high as high_of, bit as bitFor, status as statusOf, register};
ghost use Rattle.run_state.specs.Views.{set_in, registers_in};
ghost use Rattle.registers.specs.Map.{shown};

use rules::numbers::{DEVICE_MAGIC, FEATURES, VERSION};
use run_state::{
    COMPLETED, ENABLED, ERROR_CODE, ERROR_COUNT, ERROR_DETAIL, ERROR_FENCE, FAILED, FENCE_PAGE,
    FENCED, IRQ_ENABLE, RING, RING_SIZE, Words,
};
use words::low32;

// A number of eight bytes is read and written by halves of four.
pub const HALF: u64 = 4294967296;

// The upper half of a number of eight bytes.
pub fn high(x: u64) -> u32
    ensures { result ≡ high_of x }
{
    (x / HALF) as u32
}

// A flag as a bit.
pub fn bit(word: u64) -> u32
    ensures { (result ≡ bitFor (set_in word)) × (result ≤ 1) }
{
    if word == 0 { 0 } else { 1 }
}

// The two bits of the IRQ status.
pub fn status(words: &Words) -> u32
    ensures { result ≡ statusOf (registers_in words.now) }
{
    bit(words[FENCED]) + 2 * bit(words[FAILED])
}

// What the register at an offset shows; none stands at the others.
pub fn read(words: &Words, offset: u32) -> Option<u32>
    ensures { result ≡ shown (register (registers_in words.now) offset) }
{
    match offset {
        offsets::MAGIC => Some(DEVICE_MAGIC),
        offsets::VERSION => Some(VERSION),
        offsets::FEATURES_LOW => Some(FEATURES),
        offsets::FEATURES_HIGH => Some(0),
        offsets::RING_LOW => Some(low32(words[RING])),
        offsets::RING_HIGH => Some(high(words[RING])),
        offsets::RING_SIZE => Some(low32(words[RING_SIZE])),
        offsets::CONTROL => Some(bit(words[ENABLED])),
        offsets::PAGE_LOW => Some(low32(words[FENCE_PAGE])),
        offsets::PAGE_HIGH => Some(high(words[FENCE_PAGE])),
        offsets::COMPLETED_LOW => Some(low32(words[COMPLETED])),
        offsets::COMPLETED_HIGH => Some(high(words[COMPLETED])),
        offsets::IRQ_STATUS => Some(status(words)),
        offsets::IRQ_ENABLE => Some(low32(words[IRQ_ENABLE])),
        offsets::ERROR_CODE => Some(low32(words[ERROR_CODE])),
        offsets::ERROR_FENCE_LOW => Some(low32(words[ERROR_FENCE])),
        offsets::ERROR_FENCE_HIGH => Some(high(words[ERROR_FENCE])),
        offsets::ERROR_COUNT => Some(low32(words[ERROR_COUNT])),
        offsets::ERROR_DETAIL => Some(low32(words[ERROR_DETAIL])),
        _ => None,
    }
}
