// How the submission in work is settled, on the device's words: its error if it has one, its fence, then head and page in guest memory.
// Nothing is in work afterwards, and no word is left of what was. Resources and tokens are not touched: a good answer only says which tables of
// them are the device's from now on.
#![tactic(auto)]

ghost use Rattle.std.specs.Prelude.{◌≡◌, not, ◌<◌};
ghost use Rattle.run_state.specs.Views.{set_in};
ghost use Rattle.run_settle.specs.Views.{Signals, Turns, Finishes, Refuses, Accepts};

use rules::Fault;
use run_state::{
    COMPLETED, COPIED, ERROR_CODE, ERROR_COUNT, ERROR_DETAIL, ERROR_FENCE, FAILED, FENCE_PAGE,
    FENCED, HELD, HELD_TOKENS, JOB_SIGNAL, JOB_SILENT, LIVE, SIDE, TOKEN_SIDE, TOKENS,
    TOKENS_COPIED, Words, flag, is_set, job_in, rest,
};
use settle::mark;
use settle_registers::{completed_after, fenced_after, one_more};
use widths::u32_to_word;
use words::low32;

// The fence of the submission in work is signalled, and nothing is in work.
fn signal(words: &mut Words)
    ensures { Signals words.old words.new }
{
    let fence = words[JOB_SIGNAL];
    let silent = is_set(words[JOB_SILENT]);
    let before = words[COMPLETED];
    let fenced = flag(fenced_after(is_set(words[FENCED]), before, fence, silent));
    let completed = completed_after(before, fence);
    words[COMPLETED] = completed;
    words[FENCED] = fenced;
    rest(words);
}

// The fence, then head and page in guest memory.
fn finish(words: &mut Words, mem: &mut [u8])
    ensures { Finishes words.old mem.old words.new mem.new }
{
    let job = job_in(words);
    signal(words);
    mark(mem, job, words[FENCE_PAGE], words[COMPLETED]);
}

// Settles the submission in work with an error and its place; the device's resources and tokens stay.
pub fn settle_refused(words: &mut Words, mem: &mut [u8], why: Fault)
    ensures { Refuses words.old mem.old why words.new mem.new }
{
    let errors = u32_to_word(one_more(low32(words[ERROR_COUNT])));
    let code = u32_to_word(why.code);
    let place = u32_to_word(why.place);
    let fence = words[JOB_SIGNAL];
    let all = &words[..];
    words[FAILED] = 1;
    words[ERROR_CODE] = code;
    words[ERROR_FENCE] = fence;
    words[ERROR_COUNT] = errors;
    words[ERROR_DETAIL] = place;
    finish(words, mem);
}

// The other of two tables: 0 is the first, any other number the second.
fn other_side(side: u64) -> u64
    ensures { set_in result ≡ not (set_in side) }
{
    if side == 0 { 1 } else { 0 }
}

// Which of two tables is the device's after a good answer: the other one, if the submission had it for its own. Few have. `side` is the word that
// names the table, `copied` the one that says whether the submission has its own.
#[tactic(auto, using(crate::specs::Settling::turning))]
fn turn(words: &mut Words, side: usize, copied: usize)
    requires { (side < 36) × (copied < 36) }
    ensures { Turns side copied words.old words.new }
{
    if words[copied] != 0 {
        words[side] = other_side(words[side]);
    }
}

// Settles the submission in work without an error: its resources and tokens become the device's, and none is copied.
pub fn settle_accepted(words: &mut Words, mem: &mut [u8])
    ensures { Accepts words.old mem.old words.new mem.new }
{
    let held = words[HELD];
    let used = words[HELD_TOKENS];
    let all = &words[..];
    turn(words, SIDE, COPIED);
    turn(words, TOKEN_SIDE, TOKENS_COPIED);
    words[LIVE] = held;
    words[TOKENS] = used;
    finish(words, mem);
}
