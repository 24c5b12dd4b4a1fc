// What waits settled with the host's answer, and how a run ends: on the words, with no table.
#![tactic(auto)]

ghost use Rattle.std.specs.Prelude.{◌≤◌};
ghost use Rattle.run_state.specs.Views.{tag_in};
ghost use Rattle.run_answered.specs.Views.{Ends, SettlesAnswered};

use rules::{Ended, Fault, Refusal};
use run_settle::{settle_accepted, settle_refused};
use run_state::{DOORBELL, ENABLED, NOTHING, TAG, WAITING, Words};

// How a run ends, by what the device then is.
pub fn ended_in(words: &Words) -> Ended
    ensures { Ends words.now result }
{
    let tag = words[TAG];
    if tag >= WAITING {
        return Ended::Waiting;
    }
    if words[ENABLED] == 0 {
        return Ended::Idle;
    }
    if tag != NOTHING {
        return Ended::Paused;
    }
    if words[DOORBELL] == 0 {
        return Ended::Idle;
    }
    Ended::Paused
}

// Settles what waits with the host's answer. No table is needed: a good answer only says which one is the device's from now on.
pub fn settle_answered(words: &mut Words, mem: &mut [u8], good: bool)
    requires { 3 ≤ tag_in words.old }
    ensures { SettlesAnswered words.old mem.old good words.new mem.new }
{
    if good {
        settle_accepted(words, mem);
        return;
    }
    let fault = Fault {
        code: Refusal::HostFailed as u32,
        place: 0,
    };
    settle_refused(words, mem, fault);
}
