// A run on the device's words, turn by turn: an opening is one unit, a phase as many as the allowance and its own length let.
// So the hot loops are the phases', and the contract is still unit by unit.
#![tactic(auto)]

ghost use Rattle.std.specs.Prelude.{◌<◌};
ghost use Rattle.run_turns.specs.Views.{TurnOf};
ghost use Rattle.run_loop.specs.Views.{RanFor};

use kept_entries::Entries;
use kept_records::Records;
use kept_resources::resources::Resources;
use kept_tokens::Tokens;
use run_open::open_ring;
use run_state::{DOORBELL, ENABLED, ENTRIES, NOTHING, PACKETS, TAG, Words};
use run_turns::{entries_turn, packets_turn};

// One turn: an opening, or a phase for as long as the allowance lets; none where the device has stopped.
fn turn_once(
    words: &mut Words,
    mem: &mut [u8],
    entries: &mut Entries,
    resources: &Resources,
    own: &mut Resources,
    firsttokens: &mut Tokens,
    secondtokens: &mut Tokens,
    records: &mut Records,
    left: u16,
) -> u16
    requires { 0 < left }
    ensures { TurnOf left words.old
        (record { entries = entries.old; resources = resources.now; own = own.old; first_tokens = firsttokens.old; second_tokens = secondtokens.old; records = records.old })
        mem.old result words.new
        (record { entries = entries.new; resources = resources.now; own = own.new; first_tokens = firsttokens.new; second_tokens = secondtokens.new; records = records.new })
        mem.new }
{
    if words[ENABLED] == 0 {
        return 0;
    }
    let tag = words[TAG];
    if tag == PACKETS {
        return packets_turn(
            words,
            mem,
            entries,
            resources,
            own,
            firsttokens,
            secondtokens,
            records,
            left,
        );
    }
    if tag == ENTRIES {
        return entries_turn(words, mem, entries, left);
    }
    if tag != NOTHING {
        return 0;
    }
    if words[DOORBELL] == 0 {
        return 0;
    }
    open_ring(words, mem);
    1
}

// As many units as are allowed, until they are spent, nothing is due, or a submission waits: how many were spent. What is lent stands in the order in
// which a host lends it, so that a call hands it on as it is.
pub fn run(
    words: &mut Words,
    entries: &mut Entries,
    resources: &Resources,
    own: &mut Resources,
    firsttokens: &mut Tokens,
    secondtokens: &mut Tokens,
    records: &mut Records,
    mem: &mut [u8],
    allowance: u16,
) -> u16
    ensures { RanFor allowance words.old
        (record { entries = entries.old; resources = resources.now; own = own.old; first_tokens = firsttokens.old; second_tokens = secondtokens.old; records = records.old })
        mem.old result words.new
        (record { entries = entries.new; resources = resources.now; own = own.new; first_tokens = firsttokens.new; second_tokens = secondtokens.new; records = records.new })
        mem.new }
{
    let mut units: u16 = 0;
    while units < allowance {
        let spent = turn_once(
            words,
            mem,
            entries,
            resources,
            own,
            firsttokens,
            secondtokens,
            records,
            allowance - units,
        );
        if spent == 0 {
            return units;
        }
        units += spent;
    }
    units
}
