// One unit: the opening of the ring that the registers name now. It comes to a bad ring or no work, to a refusal, or to a submission
// that has begun.
#![tactic(auto)]

ghost use Rattle.std.specs.Prelude.{◌≡◌};
ghost use Rattle.run_state.specs.Views.{tag_in};
ghost use Rattle.run_open.specs.Opening.{FaultsRing, Opens};

use refusals::number;
use ring_opening::opening::open;
use rules::{Fault, Opening, Refusal};
use run_begin::{start, store_job};
use run_settle::settle_refused;
use run_state::{
    DOORBELL, ERROR_CODE, ERROR_COUNT, ERROR_DETAIL, ERROR_FENCE, FAILED, RING, RING_SIZE, Words,
};
use settle_registers::one_more;
use widths::u32_to_word;
use words::low32;

// A bad ring: the error with fence 0 and no place, and the doorbell flag cleared.
fn fault_ring(words: &mut Words)
    ensures { FaultsRing words.old words.new }
{
    let errors = u32_to_word(one_more(low32(words[ERROR_COUNT])));
    let all = &words[..];
    words[FAILED] = 1;
    words[ERROR_CODE] = Refusal::BadRing as u64;
    words[ERROR_FENCE] = 0;
    words[ERROR_COUNT] = errors;
    words[ERROR_DETAIL] = 0;
    words[DOORBELL] = 0;
}

// The opening, with nothing in work.
pub fn open_ring(words: &mut Words, mem: &mut [u8])
    requires { tag_in words.old ≡ 0 }
    ensures { Opens words.old mem.old words.new mem.new }
{
    let gpa = words[RING];
    let size = low32(words[RING_SIZE]);
    match open(mem, gpa, size) {
        Opening::BadRing => {
            fault_ring(words);
        }
        Opening::NoWork => {
            let all = &words[..];
            words[DOORBELL] = 0;
        }
        Opening::Refused(job, why) => {
            let fault = Fault {
                code: number(why),
                place: 0,
            };
            store_job(words, job);
            settle_refused(words, mem, fault);
        }
        Opening::Started(o) => {
            start(words, o);
        }
    }
}
