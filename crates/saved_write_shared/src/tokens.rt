// Section 4 of a saved desk: each token with the lowest name that it is bound to, or 0.
ghost use Rattle.std.specs.Prelude.{◌≡◌, ◌∷◌, ◌+◌, ◌*◌, ◌≤◌, length};
ghost use Rattle.rules.specs.Numbers.{most_tokens};
ghost use Rattle.rules.specs.Lists.{over};
ghost use Rattle.rules.specs.Saved.{file_of, token_bytes};
ghost use Rattle.saved_order.specs.Orders.{Rows, tokens_listed};
ghost use Rattle.saved_write.specs.Items.{all_fields};
ghost use Rattle.saved_write_shared.specs.Shared.{token_fields};

use kept_tokens::{Tokens, token_row};
use registers::high;
use rules::Token;
use saved_order::tokens::TokenOrder;
use saved_write::put_fields;
use words::low32;

// The bytes of a token.
pub const TOKEN_BYTES: usize = 12;

// Writes a token, its lower half first, and the name that it is bound to from a place on.
fn put_token(buffer: &mut [u8], at: usize, t: Token)
    requires { at + token_bytes ≤ length buffer.old }
    ensures { buffer.new ≡ over at (file_of (token_fields t)) buffer.old }
{
    let fields: [u32; 3] = [low32(t.token), high(t.token), t.name];
    put_fields(buffer, at, &fields);
}

// Writes the tokens of some rows, in this order.
fn put_tokens(buffer: &mut [u8], at: usize, tokens: &Tokens, order: &TokenOrder, count: usize)
    requires { Rows most_tokens order.now count × (at + token_bytes * count ≤ length buffer.old) }
    ensures { buffer.new ≡ over at (file_of (all_fields token_fields (tokens_listed count tokens.now order.now))) buffer.old }
{
    for i in 0..count {
        let start = at + TOKEN_BYTES * i;
        let t = token_row(tokens, order[i]);
        put_token(buffer, start, t);
    }
}

// Writes section 4 from a place on: how many tokens there are, then the tokens.
pub fn put_token_section(
    buffer: &mut [u8],
    at: usize,
    tokens: &Tokens,
    order: &TokenOrder,
    count: usize,
)
    requires { Rows most_tokens order.now count × (at + 4 + token_bytes * count ≤ length buffer.old) }
    ensures { buffer.new ≡ over at (file_of (count ∷ all_fields token_fields (tokens_listed count tokens.now order.now))) buffer.old }
{
    let counts: [u32; 1] = [count as u32];
    put_fields(buffer, at, &counts);
    put_tokens(buffer, at + 4, tokens, order, count);
}
