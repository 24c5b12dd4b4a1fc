// The tokens of a good file, stored as rows of a device's table.
#![tactic(auto)]

ghost use Rattle.std.specs.Prelude.{◌≡◌, ◌+◌, ◌*◌, ◌≤◌, length};
ghost use Rattle.rules.specs.Numbers.{most_tokens};
ghost use Rattle.kept_tokens.specs.Views.{tokens_of};
ghost use Rattle.rules.specs.Saved.{token_bytes};
ghost use Rattle.rules.specs.Loaded.{loaded_token, loaded_tokens};

use kept_tokens::Tokens;
use kept_tokens::storing::push_token;
use rules::Token;
use widths::u32_to_usize;
use words::{u32_at, u64_at};

// The bytes of a token.
const TOKEN_BYTES: usize = 12;

// The token whose fields stand from a place on: its two halves, and the name that it is bound to.
fn token_at(file: &[u8], at: usize) -> Token
    requires { at + token_bytes ≤ length file.now }
    ensures { result ≡ loaded_token file.now at }
{
    Token {
        name: u32_at(file, at + 8),
        token: u64_at(file, at),
    }
}

// Stores so many tokens, of which the first one's fields stand from a place on, in their order.
pub fn load_tokens(tokens: &mut Tokens, file: &[u8], start: u32, count: usize)
    requires { (count ≤ most_tokens) × (start + token_bytes * count ≤ length file.now) }
    ensures { tokens_of count tokens.new ≡ loaded_tokens count file.now start }
{
    let first = u32_to_usize(start);
    for i in 0..count {
        let t = token_at(file, first + TOKEN_BYTES * i);
        push_token(tokens, i, t);
    }
}
