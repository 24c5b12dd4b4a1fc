// A packet that needs tokens, on the device's words and the tables that a host lends: which of two tables of tokens is the device's, and how many
// tokens the submission has, stand in the words.
#![tactic(auto)]

ghost use Rattle.std.specs.Prelude.{◌≤◌};
ghost use Rattle.rules.specs.Numbers.{most, most_tokens};
ghost use Rattle.run_shared.specs.Shared.{TokensHeldIn, StoresTokens, SharedStepped, SharesOn, SharesSided};

use kept_resources::resources::Resources;
use kept_tokens::Tokens;
use packet_apply_shared::apply_shared;
use packet_held::tokens::HeldTokens;
use run_packets::{Left, PacketsPlace, place_after};
use run_state::{HELD_TOKENS, TOKEN_SIDE, TOKENS_COPIED, Words, flag, is_set, tokens_in};
use widths::u32_to_word;

// The submission's tokens, by the device's words.
fn held_tokens(words: &Words) -> HeldTokens
    ensures { TokensHeldIn words.now result }
{
    HeldTokens {
        used: tokens_in(words[HELD_TOKENS]),
        copied: is_set(words[TOKENS_COPIED]),
    }
}

// The submission's tokens, into the device's words.
fn store_tokens(words: &mut Words, t: HeldTokens)
    requires { t.used ≤ most_tokens }
    ensures { StoresTokens words.old t words.new }
{
    let used = u32_to_word(t.used);
    let copied = flag(t.copied);
    let all = &words[..];
    words[HELD_TOKENS] = used;
    words[TOKENS_COPIED] = copied;
}

// The place after a packet that was left, and the submission's tokens.
#[derive(Clone, Copy)]
struct SharedStep {
    place: PacketsPlace,
    tokens: HeldTokens,
}

// One unit: a packet that was left.
fn step_shared(
    end: usize,
    resources: &Resources,
    own: &mut Resources,
    tokens: &Tokens,
    owntokens: &mut Tokens,
    p: PacketsPlace,
    left: Left,
    t: HeldTokens,
) -> SharedStep
    requires { ((p.held.live ≤ most) × (p.held.made ≤ most)) × (t.used ≤ most_tokens) }
    ensures { SharedStepped end resources.now own.old tokens.now owntokens.old p left t result
        own.new owntokens.new }
{
    let held = p.held;
    let packet = left.packet;
    let x = apply_shared(resources, own, tokens, owntokens, held, t, packet);
    let changed = x.changed;
    let after = x.tokens;
    SharedStep {
        place: place_after(p.at, left.next, end, changed),
        tokens: after,
    }
}

// The same on the device's words, with the table of tokens that is the device's and the other: the place after it.
fn share_on(
    words: &mut Words,
    end: usize,
    resources: &Resources,
    own: &mut Resources,
    tokens: &Tokens,
    owntokens: &mut Tokens,
    p: PacketsPlace,
    left: Left,
) -> PacketsPlace
    requires { (p.held.live ≤ most) × (p.held.made ≤ most) }
    ensures { SharesOn end resources.now p left words.old own.old tokens.now owntokens.old result
        words.new own.new owntokens.new }
{
    let t = held_tokens(words);
    let x = step_shared(end, resources, own, tokens, owntokens, p, left, t);
    let after = x.tokens;
    store_tokens(words, after);
    x.place
}

// One unit: the place after a packet that was left, whichever of two tables of tokens is the device's. The submission's tokens are in the words then.
pub fn share(
    words: &mut Words,
    end: usize,
    resources: &Resources,
    own: &mut Resources,
    firsttokens: &mut Tokens,
    secondtokens: &mut Tokens,
    p: PacketsPlace,
    left: Left,
) -> PacketsPlace
    requires { (p.held.live ≤ most) × (p.held.made ≤ most) }
    ensures { SharesSided end resources.now p left words.old own.old firsttokens.old secondtokens.old result
        words.new own.new firsttokens.new secondtokens.new }
{
    if words[TOKEN_SIDE] == 0 {
        return share_on(
            words,
            end,
            resources,
            own,
            firsttokens,
            secondtokens,
            p,
            left,
        );
    }
    share_on(
        words,
        end,
        resources,
        own,
        secondtokens,
        firsttokens,
        p,
        left,
    )
}
