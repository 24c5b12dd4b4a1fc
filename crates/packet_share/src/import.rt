// The import packet: a handle becomes another name for the texture that a token is bound to.
ghost use Rattle.std.specs.Prelude.{◌≡◌, ◌≤◌, ◌<◌};
ghost use Rattle.rules.specs.Numbers.{most, most_tokens};
ghost use Rattle.kept_resources.specs.Views.{resources_of};
ghost use Rattle.packet_share.specs.Import.{taken_in, AddsName, Imports};

use crate::bound::find_bound;
use kept_names::naming::rename;
use kept_resources::resources::{Resources, find_resource, resource_row};
use kept_storing::push_resource;
use kept_tokens::Tokens;
use packet_ranges::applied::{Applied, Renamed, refuse_renaming};
use rules::numbers::MOST_ROWS;
use rules::{ImportSurface, Refusal, Resource};

// Whether a handle is no new name: it is 0, or live.
fn is_taken(resources: &Resources, live: usize, handle: u32) -> bool
    requires { live ≤ most }
    ensures { result ≡ taken_in handle (resources_of live resources.now) }
{
    if handle == 0 {
        return true;
    }
    find_resource(resources, live, handle).is_some()
}

// A resource by one name more. If that is the lowest, all its names follow.
fn add_name(own: &mut Resources, live: usize, made: usize, handle: u32, r: Resource) -> Renamed
    requires { (live < most) × (made ≤ most) }
    ensures { AddsName live made handle r own.old result own.new }
{
    push_resource(own, live, Resource { handle, ..r });
    let applied = Applied {
        verdict: Ok(()),
        live: live + 1,
        made,
    };
    let old = r.lowest;
    if handle >= old {
        return Renamed {
            applied,
            old,
            new: old,
        };
    }
    rename(own, live + 1, old, handle);
    Renamed {
        applied,
        old,
        new: handle,
    }
}

// Applies an import packet, in place.
pub fn on_import(
    own: &mut Resources,
    live: usize,
    made: usize,
    tokens: &Tokens,
    used: usize,
    c: ImportSurface,
) -> Renamed
    requires { ((live ≤ most) × (made ≤ most)) × (used ≤ most_tokens) }
    ensures { Imports c live made used own.old tokens.now result own.new }
{
    if is_taken(own, live, c.handle) {
        return refuse_renaming(Refusal::BadHandle, live, made);
    }
    let Some(bound) = find_bound(own, live, tokens, used, c.token) else {
        return refuse_renaming(Refusal::UnboundToken, live, made);
    };
    if live >= MOST_ROWS {
        return refuse_renaming(Refusal::TooMany, live, made);
    }
    let r = resource_row(own, bound.row);
    add_name(own, live, made, c.handle, r)
}
