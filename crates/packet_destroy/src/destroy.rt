// The destroy packet: a name of a live resource is gone, and the last of the others takes its row. Where the resource may have other
// names, its lowest name is the lowest of those that are left (02, wish 5), and tokens follow; most have one name and no token.
// The records are not lent: the contract holds whatever they are. Nor are the tokens: the answer says how they follow.
ghost use Rattle.std.specs.Prelude.{◌≤◌};
ghost use Rattle.rules.specs.Numbers.{most};
ghost use Rattle.packet_destroy.specs.Destroy.{Destroys, DestroysUnshared};

use kept_names::naming::{rename_left, shareable};
use kept_resources::resources::{Resources, find_resource, resource_row};
use kept_storing::remove_resource;
use packet_ranges::applied::{Applied, Renamed, refuse, refuse_renaming};
use rules::{DestroyResource, Refusal};

// Applies a destroy packet, in place.
pub fn on_destroy(own: &mut Resources, live: usize, made: usize, c: DestroyResource) -> Renamed
    requires { (live ≤ most) × (made ≤ most) }
    ensures { Destroys c live made own.old result own.new }
{
    let Some(place) = find_resource(own, live, c.handle) else {
        return refuse_renaming(Refusal::BadHandle, live, made);
    };
    let r = resource_row(own, place);
    let left = live - 1;
    remove_resource(own, live, place);
    let applied = Applied {
        verdict: Ok(()),
        live: left,
        made,
    };
    if !shareable(r.kind) {
        return Renamed {
            applied,
            old: 0,
            new: 0,
        };
    }
    let old = r.lowest;
    let new = rename_left(own, left, old);
    Renamed { applied, old, new }
}

// Applies a destroy packet in place, unless its resource is a texture that may be shared, of one mip and one layer: that is left, shared or not,
// and nothing changes: then there is no answer.
pub fn destroy_unshared(
    own: &mut Resources,
    live: usize,
    made: usize,
    c: DestroyResource,
) -> Option<Applied>
    requires { (live ≤ most) × (made ≤ most) }
    ensures { DestroysUnshared c live made own.old result own.new }
{
    let Some(place) = find_resource(own, live, c.handle) else {
        return Some(refuse(Refusal::BadHandle, live, made));
    };
    let r = resource_row(own, place);
    if shareable(r.kind) {
        return None;
    }
    remove_resource(own, live, place);
    Some(Applied {
        verdict: Ok(()),
        live: live - 1,
        made,
    })
}
