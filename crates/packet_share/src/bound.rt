// The live resource that a token is bound to.
ghost use Rattle.std.specs.Prelude.{◌≡◌, ◌≤◌};
ghost use Rattle.rules.specs.Numbers.{most, most_tokens};
ghost use Rattle.packet_share.specs.Bound.{row_bound, BindsToken};

use kept_resources::resources::{Resources, find_resource};
use kept_tokens::finding::find_token;
use kept_tokens::{Tokens, token_row};

// A token that is bound: its place, and the row of its resource.
#[derive(Clone, Copy)]
pub struct Bound {
    pub place: usize,
    pub row: usize,
}

// The row of the resource that the token at a place is bound to, if it is bound to one. Past the last token there is none.
pub fn bound_row(
    resources: &Resources,
    live: usize,
    tokens: &Tokens,
    used: usize,
    place: usize,
) -> Option<usize>
    requires { (live ≤ most) × (used ≤ most_tokens) }
    ensures { result ≡ row_bound live resources.now used tokens.now place }
{
    if place >= used {
        return None;
    }
    let t = token_row(tokens, place);
    if t.name == 0 {
        return None;
    }
    find_resource(resources, live, t.name)
}

// Finds a token that is bound to a live resource.
pub fn find_bound(
    resources: &Resources,
    live: usize,
    tokens: &Tokens,
    used: usize,
    token: u64,
) -> Option<Bound>
    requires { (live ≤ most) × (used ≤ most_tokens) }
    ensures { BindsToken live resources.now used tokens.now token result }
{
    let place = find_token(tokens, used, token)?;
    let row = bound_row(resources, live, tokens, used, place)?;
    Some(Bound { place, row })
}
