// What a packet came to: its verdict, and how many resources and records are held after it.
ghost use Rattle.std.specs.Prelude.{◌≡◌, ◌≤◌};
ghost use Rattle.packet_ranges.specs.Views.{refused_with, renamed_nothing};

use rules::Refusal;

// A verdict, and the counts of live resources and of records made.
#[derive(Clone, Copy)]
pub struct Applied {
    pub verdict: Result<(), Refusal>,
    pub live: usize,
    pub made: usize,
}

// What a packet came to that may change a resource's lowest name: tokens that had the old one have the new one then. They are equal
// where nothing changes.
#[derive(Clone, Copy)]
pub struct Renamed {
    pub applied: Applied,
    pub old: u32,
    pub new: u32,
}

// Refused by a rule: what was held stays.
pub fn refuse(why: Refusal, live: usize, made: usize) -> Applied
    ensures { result ≡ refused_with why live made }
{
    Applied {
        verdict: Err(why),
        live,
        made,
    }
}

// The same of a packet that might have changed a name.
pub fn refuse_renaming(why: Refusal, live: usize, made: usize) -> Renamed
    ensures { result ≡ renamed_nothing (refused_with why live made) }
{
    Renamed {
        applied: refuse(why, live, made),
        old: 0,
        new: 0,
    }
}
