// The release packet: a token is spent. The names of its resource stay, and so do its other tokens.
ghost use Rattle.std.specs.Prelude.{◌≤◌};
ghost use Rattle.rules.specs.Numbers.{most, most_tokens};
ghost use Rattle.packet_share.specs.Release.{Releases};

use crate::bound::find_bound;
use kept_resources::resources::Resources;
use kept_tokens::Tokens;
use packet_ranges::applied::{Applied, refuse};
use rules::{Refusal, ReleaseToken};

// What a release packet came to, and the place of the token that is spent, if it was accepted.
#[derive(Clone, Copy)]
pub struct Released {
    pub applied: Applied,
    pub place: usize,
}

// Judges a release packet. The token is spent by who has the tokens.
pub fn on_release(
    resources: &Resources,
    live: usize,
    made: usize,
    tokens: &Tokens,
    used: usize,
    c: ReleaseToken,
) -> Released
    requires { ((live ≤ most) × (made ≤ most)) × (used ≤ most_tokens) }
    ensures { Releases c live made used resources.now tokens.now result }
{
    let Some(bound) = find_bound(resources, live, tokens, used, c.token) else {
        let applied = refuse(Refusal::UnboundToken, live, made);
        return Released { applied, place: 0 };
    };
    let applied = Applied {
        verdict: Ok(()),
        live,
        made,
    };
    Released {
        applied,
        place: bound.place,
    }
}
