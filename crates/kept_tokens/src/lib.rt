// Tokens as rows of words in a lent array: read, found, added, spent, bound to another name and copied (02, wish 5).
// Only this crate sees a word's index.
#![tactic(auto)]

pub mod finding;
pub mod storing;

ghost use Rattle.std.specs.Prelude.{◌≡◌, ◌<◌};
ghost use Rattle.rules.specs.Numbers.{most_tokens};
ghost use Rattle.rows.specs.Rows.{row_at};
ghost use Rattle.kept_tokens.specs.Views.{token_of_row};

use rules::Token;
use words::low32;

// A table of tokens, 256 rows, each a name and a token.
pub type Tokens = [u64; 512];

// The words of a row.
pub const WORDS: usize = 2;

// The token of row i.
pub fn token_row(tokens: &Tokens, i: usize) -> Token
    requires { i < most_tokens }
    ensures { result ≡ token_of_row (row_at 2 tokens.now i) }
{
    let b = WORDS * i;
    Token {
        name: low32(tokens[b]),
        token: tokens[b + 1],
    }
}
