// The whole table at once, for a host that asks what the steps would find in it: its bytes alone
// are read, and nothing is kept.
ghost use Rattle.std.specs.Prelude.{◌≡◌, []};
ghost use Rattle.rules.specs.Table.{entries_of, judge_entries, table_finding};
ghost use Rattle.table_whole.specs.Whole.{shown, Within};

use kept_entries::entry_at;
use refusals::number;
use rules::{Fault, Refusal, Table};
use table_entries::entry::sound;
use table_header::header::{check_header, entry_offset};

// The first fault among the entries of a checked table that stands at the front of `table`: number and index, both 0 for none.
fn entries_fault(table: &[u8], memory: u64, t: Table) -> Fault
    requires { Within table.now t }
    ensures { result ≡ shown (judge_entries memory [] (entries_of table.now t)).finding }
{
    let mut fault = Fault { code: 0, place: 0 };
    'scan: for i in 0..t.count {
        let e = entry_at(table, entry_offset(t.stride, i) as usize);
        if !sound(memory, e) {
            fault = Fault {
                code: Refusal::BadEntry as u32,
                place: i,
            };
            break 'scan;
        }
        for j in 0..i {
            let earlier = words::u32_at(table, entry_offset(t.stride, j) as usize);
            if earlier == e.id {
                fault = Fault {
                    code: Refusal::TwiceInTable as u32,
                    place: i,
                };
                break 'scan;
            }
        }
    }
    fault
}

// For the emulator's host: the number of the table's first broken rule and where it broke, for a memory of so many bytes. The number
// is 0 for none; the place is the entry's index for 14 and 15, else 0.
pub fn first_fault(table: &[u8], memory: u64) -> Fault
    ensures { result ≡ shown (table_finding table.now memory) }
{
    match check_header(table, 0, table.len() as u64) {
        Ok(t) => entries_fault(table, memory, t),
        Err(why) => Fault {
            code: number(why),
            place: 0,
        },
    }
}
