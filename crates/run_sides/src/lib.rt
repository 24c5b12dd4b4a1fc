// A run over the arrays that a host lends, whichever of two tables of resources is the device's.
#![tactic(auto)]

ghost use Rattle.run_sides.specs.Views.{RanOn};

use kept_entries::Entries;
use kept_records::Records;
use kept_resources::resources::Resources;
use kept_tokens::Tokens;
use run_state::{SIDE, Words};

// A run, with the table of resources that is the device's and the other. Without an allowance nothing is looked at.
pub fn run_on(
    words: &mut Words,
    entries: &mut Entries,
    first: &mut Resources,
    second: &mut Resources,
    firsttokens: &mut Tokens,
    secondtokens: &mut Tokens,
    records: &mut Records,
    mem: &mut [u8],
    allowance: u16,
) -> u16
    ensures { RanOn allowance
        (record {
          words = words.old;
          entries = entries.old;
          first = first.old;
          second = second.old;
          first_tokens = firsttokens.old;
          second_tokens = secondtokens.old;
          records = records.old;
          mem = mem.old;
        })
        result
        (record {
          words = words.new;
          entries = entries.new;
          first = first.new;
          second = second.new;
          first_tokens = firsttokens.new;
          second_tokens = secondtokens.new;
          records = records.new;
          mem = mem.new;
        }) }
{
    if allowance == 0 {
        return 0;
    }
    if words[SIDE] == 0 {
        return run_loop::run(
            words,
            entries,
            first,
            second,
            firsttokens,
            secondtokens,
            records,
            mem,
            allowance,
        );
    }
    run_loop::run(
        words,
        entries,
        second,
        first,
        firsttokens,
        secondtokens,
        records,
        mem,
        allowance,
    )
}
