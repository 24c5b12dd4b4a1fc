// The tokens of a submission. They are the device's until its first change of one; that copies them to a table of its own.
ghost use Rattle.std.specs.Prelude.{◌≡◌, true, [], ◌∷◌, ◌≤◌, ◌<◌};
ghost use Rattle.machine.specs.Machine.{pick};
ghost use Rattle.rules.specs.Numbers.{most_tokens};
ghost use Rattle.rules.specs.Lists.{over, pushed};
ghost use Rattle.rules.specs.Names.{rebind};
ghost use Rattle.kept_tokens.specs.Views.{tokens_of, spent_at};
ghost use Rattle.kept_tokens.specs.Tokens.{is_bound};
ghost use Rattle.packet_held.specs.Tokens.{tokens_held, Retokened};

use kept_tokens::Tokens;
use kept_tokens::finding::is_bound;
use kept_tokens::storing::{copy_tokens, push_token, rebind, spend};
use rules::Token;
use widths::u32_to_usize;

// How many tokens a submission has, and whether they are in its own table.
#[derive(Clone, Copy)]
pub struct HeldTokens {
    pub used: u32,
    pub copied: bool,
}

// The table that has the submission's tokens.
pub fn chosen_tokens<'a>(tokens: &'a Tokens, own: &'a Tokens, copied: bool) -> &'a Tokens
    ensures { result.now ≡ pick copied own.now tokens.now }
{
    if copied { own } else { tokens }
}

// Whether a token of the submission is bound to the resource that has this lowest name.
fn has_token<'a>(tokens: &'a Tokens, own: &'a Tokens, x: HeldTokens, name: u32) -> bool
    requires { x.used ≤ most_tokens }
    ensures { result ≡ is_bound name (tokens_held x tokens.now own.now) }
{
    let table = chosen_tokens(tokens, own, x.copied);
    is_bound(table, u32_to_usize(x.used), name)
}

// Sees that the submission's tokens are in its own table.
fn take_own_tokens(tokens: &Tokens, own: &mut Tokens, x: HeldTokens)
    requires { x.used ≤ most_tokens }
    ensures { tokens_of x.used own.new ≡ tokens_held x tokens.now own.old }
{
    if !x.copied {
        copy_tokens(tokens, own, u32_to_usize(x.used));
    }
}

// The tokens of a resource that has another lowest name now, or none.
fn rebound_all(tokens: &Tokens, own: &mut Tokens, x: HeldTokens, old: u32, new: u32) -> HeldTokens
    requires { x.used ≤ most_tokens }
    ensures { Retokened tokens.now (rebind old new (tokens_held x tokens.now own.old)) result own.new }
{
    if !has_token(tokens, own, x, old) {
        return x;
    }
    take_own_tokens(tokens, own, x);
    rebind(own, u32_to_usize(x.used), old, new);
    HeldTokens {
        used: x.used,
        copied: true,
    }
}

// The same, where it may have the name that it had: then nothing is looked at.
pub fn rebound(tokens: &Tokens, own: &mut Tokens, x: HeldTokens, old: u32, new: u32) -> HeldTokens
    requires { x.used ≤ most_tokens }
    ensures { Retokened tokens.now (rebind old new (tokens_held x tokens.now own.old)) result own.new }
{
    if old == new {
        return x;
    }
    rebound_all(tokens, own, x, old, new)
}

// One token more, if it is new.
pub fn with_token(
    tokens: &Tokens,
    own: &mut Tokens,
    x: HeldTokens,
    new: bool,
    t: Token,
) -> HeldTokens
    requires { (x.used ≤ most_tokens) × (new ≡ true → x.used < most_tokens) }
    ensures { Retokened tokens.now (pick new (pushed (tokens_held x tokens.now own.old) t)
        (tokens_held x tokens.now own.old)) result own.new }
{
    if !new {
        return x;
    }
    take_own_tokens(tokens, own, x);
    push_token(own, u32_to_usize(x.used), t);
    HeldTokens {
        used: x.used + 1,
        copied: true,
    }
}

// The token at a place is spent.
pub fn without_token(tokens: &Tokens, own: &mut Tokens, x: HeldTokens, place: usize) -> HeldTokens
    requires { (x.used ≤ most_tokens) × (place < x.used) }
    ensures { Retokened tokens.now (over place (spent_at (pick x.copied own.old tokens.now) place ∷ [])
        (tokens_held x tokens.now own.old)) result own.new }
{
    take_own_tokens(tokens, own, x);
    spend(own, u32_to_usize(x.used), place);
    HeldTokens {
        used: x.used,
        copied: true,
    }
}
