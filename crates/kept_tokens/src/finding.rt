// Tokens found: by the token, and by the name that it is bound to.
ghost use Rattle.std.specs.Prelude.{◌≡◌, ◌≤◌};
ghost use Rattle.rules.specs.Numbers.{most_tokens};
ghost use Rattle.rules.specs.Names.{token_of};
ghost use Rattle.rows.specs.Keys.{place_of};
ghost use Rattle.kept_tokens.specs.Views.{tokens_of};
ghost use Rattle.kept_tokens.specs.Tokens.{is_bound};

use crate::{Tokens, WORDS};
use rows_finding::{Key, find_row};

// The word of a row that has the token.
const TOKEN: usize = 1;

// A token as the key of a row: the whole of its second word.
#[derive(Clone, Copy)]
struct TokenKey {
    token: u64,
}

impl Key for TokenKey {
    ghost word = { 1 };

    ghost reading = { λ x. x };

    ghost sought = { λ k. k.token };

    #[inline]
    fn is_at(self, rows: &[u64], at: usize) -> bool {
        rows[at + TOKEN] == self.token
    }
}

// The place of a token among the first `used`, if it is one of them.
pub fn find_token(tokens: &Tokens, used: usize, token: u64) -> Option<usize>
    requires { used ≤ most_tokens }
    ensures { result ≡ place_of token_of token (tokens_of used tokens.now) }
{
    find_row(tokens, WORDS, used, TokenKey { token })
}

// Whether some token of the first `used` is bound to a name.
pub fn is_bound(tokens: &Tokens, used: usize, name: u32) -> bool
    requires { used ≤ most_tokens }
    ensures { result ≡ is_bound name (tokens_of used tokens.now) }
{
    find_row(tokens, WORDS, used, name).is_some()
}
