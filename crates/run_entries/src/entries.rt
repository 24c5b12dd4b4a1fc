// The phase of entries: one a unit, each over the memory lent at that unit.
ghost use Rattle.std.specs.Prelude.{◌≡◌, ◌+◌, ◌≤◌};
ghost use Rattle.rules.specs.Numbers.{most};
ghost use Rattle.run_entries.specs.Entries.{EntryStepped, EntriesRan};

use crate::ending::{Ending, ending_at};
use kept_entries::Entries;
use rules::Table;

// Where the entries stand: how many are kept, and how the phase stands.
#[derive(Clone, Copy)]
pub struct EntriesPlace {
    pub kept: usize,
    pub ending: Ending,
}

// Where the entries stand after some units, and how many those were.
#[derive(Clone, Copy)]
pub struct EntriesRun {
    pub place: EntriesPlace,
    pub units: u16,
}

// One unit: the entry after those that are kept.
fn step_entry(mem: &[u8], t: Table, entries: &mut Entries, p: EntriesPlace) -> EntriesPlace
    requires { p.kept ≤ most }
    ensures { EntryStepped mem.now t p entries.old result entries.new }
{
    let kept = p.kept;
    match table_entries::entry::take_entry(mem, t, entries, kept) {
        Err(why) => EntriesPlace {
            kept,
            ending: Ending::Broken(why),
        },
        Ok(()) => {
            let next = kept + 1;
            EntriesPlace {
                kept: next,
                ending: ending_at(next, t.count as usize),
            }
        }
    }
}

// Entries, one a unit, until the allowance is spent, the table is done or a rule is broken.
pub fn read_entries(
    mem: &[u8],
    t: Table,
    entries: &mut Entries,
    kept: usize,
    allowance: u16,
) -> EntriesRun
    requires { kept ≤ most }
    ensures { EntriesRan mem.now t kept entries.old allowance result entries.new }
{
    let mut p = EntriesPlace {
        kept,
        ending: Ending::Going,
    };
    for units in 0..allowance {
        p = step_entry(mem, t, entries, p);
        let Ending::Going = p.ending else {
            return EntriesRun {
                place: p,
                units: units + 1,
            };
        };
    }
    EntriesRun {
        place: p,
        units: allowance,
    }
}
