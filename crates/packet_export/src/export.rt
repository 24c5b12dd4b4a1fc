// The export packet: a token is bound to a texture, so that other programs may reach it.
ghost use Rattle.std.specs.Prelude.{◌≡◌, ◌≤◌};
ghost use Rattle.rules.specs.Numbers.{most, most_tokens};
ghost use Rattle.packet_export.specs.Export.{Binds, Exports, exported_nothing};

use kept_names::naming::shareable;
use kept_resources::resources::{Resources, find_resource, resource_row};
use kept_tokens::finding::find_token;
use kept_tokens::{Tokens, token_row};
use packet_ranges::applied::{Applied, refuse};
use rules::numbers::MOST_TOKENS;
use rules::{ExportSurface, Refusal};

// What an export packet came to: whether the token is a new one, and the name that it is bound to then.
#[derive(Clone, Copy)]
pub struct Exported {
    pub applied: Applied,
    pub added: bool,
    pub name: u32,
}

// Refused by a rule: no token is bound.
fn refuse_export(why: Refusal, live: usize, made: usize) -> Exported
    ensures { result ≡ exported_nothing why live made }
{
    let applied = refuse(why, live, made);
    Exported {
        applied,
        added: false,
        name: 0,
    }
}

// Whether a token may be bound to the resource with this lowest name, and whether it is a new one.
fn bind(tokens: &Tokens, used: usize, live: usize, made: usize, low: u32, token: u64) -> Exported
    requires { ((live ≤ most) × (made ≤ most)) × (used ≤ most_tokens) }
    ensures { Binds low token live made used tokens.now result }
{
    if token == 0 {
        return refuse_export(Refusal::BadToken, live, made);
    }
    let applied = Applied {
        verdict: Ok(()),
        live,
        made,
    };
    if let Some(place) = find_token(tokens, used, token) {
        let t = token_row(tokens, place);
        if t.name != low {
            return refuse_export(Refusal::BadToken, live, made);
        }
        return Exported {
            applied,
            added: false,
            name: low,
        };
    }
    if used >= MOST_TOKENS {
        return refuse_export(Refusal::TooMany, live, made);
    }
    Exported {
        applied,
        added: true,
        name: low,
    }
}

// Judges an export packet. A new token is added by who has the tokens.
pub fn on_export(
    resources: &Resources,
    live: usize,
    made: usize,
    tokens: &Tokens,
    used: usize,
    c: ExportSurface,
) -> Exported
    requires { ((live ≤ most) × (made ≤ most)) × (used ≤ most_tokens) }
    ensures { Exports c live made used resources.now tokens.now result }
{
    let Some(i) = find_resource(resources, live, c.handle) else {
        return refuse_export(Refusal::BadHandle, live, made);
    };
    let r = resource_row(resources, i);
    if !shareable(r.kind) {
        return refuse_export(Refusal::BadShape, live, made);
    }
    bind(tokens, used, live, made, r.lowest, c.token)
}
