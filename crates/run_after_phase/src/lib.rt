// Where a phase has come to, on the device's words: going on, done, or broken by a rule. A refusal settles within its unit, and the
// device's resources and tokens stay as they were. A phase that was left at a packet that nobody has done is refused too, with no rule's number.
// What each packet passes is inlined, so that its enums stay in registers.
#![tactic(auto)]

ghost use Rattle.std.specs.Prelude.{◌≡◌, ◌≤◌};
ghost use Rattle.rules.specs.Judging.{fault_at};
ghost use Rattle.rules.specs.Numbers.{most};
ghost use Rattle.run_state.specs.Views.{tag_in};
ghost use Rattle.run_after_phase.specs.Views.{unruled_at, LandsEntries, LandsPackets};

use refusals::number;
use rules::{Fault, Refusal};
use run_begin::begin_packets;
use run_entries::ending::Ending;
use run_entries::entries::EntriesPlace;
use run_packets::PacketsPlace;
use run_settle::settle_refused;
use run_state::{
    COPIED, HELD, KEPT, MADE, PLACE, STREAM_GPA, STREAM_SIZE, TAG, TARGET, WAITING, Words, flag,
};
use widths::{u32_to_word, usize_to_word};
use words::low32;

// A rule that a phase broke, at the place where the phase stands.
fn fault(why: Refusal, at: usize) -> Fault
    ensures { result ≡ fault_at at why }
{
    let place = low32(usize_to_word(at));
    Fault {
        code: number(why),
        place,
    }
}

// No rule, at the place where the phase was left.
fn unruled(at: usize) -> Fault
    ensures { result ≡ unruled_at at }
{
    let place = low32(usize_to_word(at));
    Fault { code: 0, place }
}

// The entries at a place.
pub fn land_entries(words: &mut Words, p: EntriesPlace, mem: &mut [u8])
    requires { (tag_in words.old ≡ 1) × (p.kept ≤ most) }
    ensures { LandsEntries words.old p mem.old words.new mem.new }
{
    match p.ending {
        Ending::Going => {
            let kept = usize_to_word(p.kept);
            let all = &words[..];
            words[KEPT] = kept;
        }
        Ending::Done => {
            begin_packets(words, p.kept);
        }
        Ending::Broken(why) => {
            settle_refused(words, mem, fault(why, p.kept));
        }
        Ending::Left => {
            settle_refused(words, mem, unruled(p.kept));
        }
    }
}

// The packets at a place; the tokens are in the words already. A submission that waits has no word of its stream left.
#[inline(always)]
pub fn land_packets(words: &mut Words, p: PacketsPlace, mem: &mut [u8])
    requires { (tag_in words.old ≡ 2) × (p.held.live ≤ most) × (p.held.made ≤ most) }
    ensures { LandsPackets words.old p mem.old words.new mem.new }
{
    let held = p.held;
    let at = usize_to_word(p.at);
    let live = usize_to_word(held.live);
    let made = usize_to_word(held.made);
    let copied = flag(held.copied);
    let target = u32_to_word(held.target);
    match p.ending {
        Ending::Going => {
            let all = &words[..];
            words[PLACE] = at;
            words[HELD] = live;
            words[MADE] = made;
            words[COPIED] = copied;
            words[TARGET] = target;
        }
        Ending::Done => {
            let all = &words[..];
            words[TAG] = WAITING;
            words[STREAM_GPA] = 0;
            words[STREAM_SIZE] = 0;
            words[PLACE] = 0;
            words[HELD] = live;
            words[MADE] = made;
            words[COPIED] = copied;
            words[TARGET] = target;
        }
        Ending::Broken(why) => {
            settle_refused(words, mem, fault(why, p.at));
        }
        Ending::Left => {
            settle_refused(words, mem, unruled(p.at));
        }
    }
}
