// How a phase of a submission stands: the loop that reads it is left as soon as it does not go on.
ghost use Rattle.std.specs.Prelude.{◌≡◌};
ghost use Rattle.run_entries.specs.Ending.{ending_at};

use rules::Refusal;

// More of a phase is left, all of it is done, a rule was broken, or its loop was left at a packet that is yet to be done.
#[derive(Clone, Copy, Debug, PartialEq, Eq)]
pub enum Ending {
    Going,
    Done,
    Broken(Refusal),
    Left,
}

// How a phase stands at a place of what ends there: more is left below the end.
pub fn ending_at(at: usize, end: usize) -> Ending
    ensures { result ≡ ending_at at end }
{
    if at < end {
        Ending::Going
    } else {
        Ending::Done
    }
}
