// Tokens added, spent, bound to another name and copied.
ghost use Rattle.std.specs.Prelude.{◌≡◌, [], ◌∷◌, ◌+◌, ◌≤◌, ◌<◌};
ghost use Rattle.rules.specs.Numbers.{most_tokens};
ghost use Rattle.rules.specs.Lists.{over, pushed};
ghost use Rattle.rules.specs.Names.{rebind};
ghost use Rattle.kept_tokens.specs.Views.{tokens_of, spent_at};

use crate::{Tokens, WORDS};
use rules::Token;
use widths::u32_to_word;

// The word of a row that has the name.
const NAME: usize = 0;

// One token more, after `used` others.
pub fn push_token(tokens: &mut Tokens, used: usize, t: Token)
    requires { used < most_tokens }
    ensures { tokens_of (used + 1) tokens.new ≡ pushed (tokens_of used tokens.old) t }
{
    let all = &tokens[..];
    let b = WORDS * used;
    tokens[b] = u32_to_word(t.name);
    tokens[b + 1] = t.token;
}

// The token of row i is spent: it stays, with no name.
pub fn spend(tokens: &mut Tokens, used: usize, i: usize)
    requires { (used ≤ most_tokens) × (i < used) }
    ensures { tokens_of used tokens.new ≡ over i (spent_at tokens.old i ∷ []) (tokens_of used tokens.old) }
{
    let all = &tokens[..];
    tokens[WORDS * i] = 0;
}

// The tokens that had the name `old` have `new` from now on.
pub fn rebind(tokens: &mut Tokens, used: usize, old: u32, new: u32)
    requires { used ≤ most_tokens }
    ensures { tokens_of used tokens.new ≡ rebind old new (tokens_of used tokens.old) }
{
    rows_renaming::rename_rows(tokens, WORDS, NAME, used, old, new);
}

// The first `used` tokens of one table over another's.
pub fn copy_tokens(from: &Tokens, to: &mut Tokens, used: usize)
    requires { used ≤ most_tokens }
    ensures { tokens_of used to.new ≡ tokens_of used from.now }
{
    rows::copy_words(from, to, WORDS * used);
}
