// The calls on a device's words and tables that are lent guest memory: run and answer. Another memory than the device was made for is
// refused before anything else; a refused call writes no word, no row and no byte.
#![tactic(auto)]

ghost use Rattle.std.specs.Prelude.{◌≡◌};
ghost use Rattle.device_memory_calls.specs.Views.{lent_memory, Runs, Answers};

use call_errors::CallError;
use kept_entries::Entries;
use kept_records::Records;
use kept_resources::resources::Resources;
use kept_tokens::Tokens;
use rules::Ended;
use run_answered::{ended_in, settle_answered};
use run_sides::run_on;
use run_state::{MEMORY, TAG, WAITING, Words};
use widths::word_to_usize;

// What a run or an answer gives: the units spent and how it ended.
#[derive(Clone, Copy)]
pub struct Spent {
    pub units: u16,
    pub ended: Ended,
}

// What stands beside the answer of a refused run.
pub const NOTHING_SPENT: Spent = Spent {
    units: 0,
    ended: Ended::Idle,
};

// Whether the memory lent is as long as that which the device was made for.
fn own_memory(words: &Words, mem: &[u8]) -> Result<(), CallError>
    ensures { result ≡ lent_memory words.now mem.now }
{
    if mem.len() == word_to_usize(words[MEMORY]) {
        Ok(())
    } else {
        Err(CallError::OtherMemory)
    }
}

// As many units as are allowed, over the memory lent now; says how many were spent and how it ended.
pub fn run(
    words: &mut Words,
    entries: &mut Entries,
    first: &mut Resources,
    second: &mut Resources,
    firsttokens: &mut Tokens,
    secondtokens: &mut Tokens,
    records: &mut Records,
    mem: &mut [u8],
    allowance: u16,
) -> Result<Spent, CallError>
    ensures { Runs allowance
        (record {
          words = words.old;
          entries = entries.old;
          first = first.old;
          second = second.old;
          first_tokens = firsttokens.old;
          second_tokens = secondtokens.old;
          records = records.old;
          mem = mem.old;
        })
        result
        (record {
          words = words.new;
          entries = entries.new;
          first = first.new;
          second = second.new;
          first_tokens = firsttokens.new;
          second_tokens = secondtokens.new;
          records = records.new;
          mem = mem.new;
        }) }
{
    match own_memory(words, mem) {
        Ok(()) => {}
        Err(other) => return Err(other),
    }
    let units = run_on(
        words,
        entries,
        first,
        second,
        firsttokens,
        secondtokens,
        records,
        mem,
        allowance,
    );
    Ok(Spent {
        units,
        ended: ended_in(words),
    })
}

// The host's answer to what waits, and at once as many units as are allowed; says how many were spent and how it ended. An allowance of 0
// is an answer alone.
pub fn answer(
    words: &mut Words,
    entries: &mut Entries,
    first: &mut Resources,
    second: &mut Resources,
    firsttokens: &mut Tokens,
    secondtokens: &mut Tokens,
    records: &mut Records,
    mem: &mut [u8],
    good: bool,
    allowance: u16,
) -> Result<Spent, CallError>
    ensures { Answers good allowance
        (record {
          words = words.old;
          entries = entries.old;
          first = first.old;
          second = second.old;
          first_tokens = firsttokens.old;
          second_tokens = secondtokens.old;
          records = records.old;
          mem = mem.old;
        })
        result
        (record {
          words = words.new;
          entries = entries.new;
          first = first.new;
          second = second.new;
          first_tokens = firsttokens.new;
          second_tokens = secondtokens.new;
          records = records.new;
          mem = mem.new;
        }) }
{
    match own_memory(words, mem) {
        Ok(()) => {}
        Err(why) => return Err(why),
    }
    if words[TAG] < WAITING {
        return Err(CallError::NothingWaits);
    }
    settle_answered(words, mem, good);
    if allowance > 0 {
        let units = run_on(
            words,
            entries,
            first,
            second,
            firsttokens,
            secondtokens,
            records,
            mem,
            allowance,
        );
        return Ok(Spent {
            units,
            ended: ended_in(words),
        });
    }
    Ok(Spent {
        units: 0,
        ended: ended_in(words),
    })
}
