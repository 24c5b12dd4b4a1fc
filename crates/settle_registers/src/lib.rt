// What the end of a submission makes of the numbers in the registers: the completed fence, its status bit and the count of errors.
#![tactic(auto)]

ghost use Rattle.std.specs.Prelude.{◌≡◌, not, ◌&&◌, ◌||◌, ltb};
ghost use Rattle.rules.specs.Shapes.{larger};
ghost use Rattle.rules.specs.Settle.{one_more};

// The count of errors stops here.
const MOST_ERRORS: u32 = 4294967295;

// The completed fence after one is signalled: it never falls.
pub fn completed_after(completed: u64, signal: u64) -> u64
    ensures { result ≡ larger completed signal }
{
    if completed < signal {
        return signal;
    }
    completed
}

// The fence's status bit after one is signalled: set if the completed fence rose and the submission is not silent.
pub fn fenced_after(fenced: bool, completed: u64, signal: u64, silent: bool) -> bool
    ensures { result ≡ (fenced || (ltb completed signal && not silent)) }
{
    if fenced {
        return true;
    }
    if silent {
        return false;
    }
    completed < signal
}

// One error more, as far as they are counted.
pub fn one_more(errors: u32) -> u32
    ensures { result ≡ one_more errors }
{
    if errors >= MOST_ERRORS {
        return errors;
    }
    errors + 1
}
