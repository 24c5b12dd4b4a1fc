// The target, a live texture, and the scissor, which is clipped to it and handed to the host as a record.
#![tactic(auto)]

ghost use Rattle.std.specs.Prelude.{◌≡◌, [], ◌≤◌};
ghost use Rattle.rules.specs.Numbers.{most};
ghost use Rattle.rules.specs.StatePackets.{bad_sides, rectangle, clip_of};
ghost use Rattle.rules.specs.Packets.{live_texture, on_scissor_packet};
ghost use Rattle.kept_resources.specs.Views.{holdings_of};
ghost use Rattle.packet_ranges.specs.Views.{Applies};
ghost use Rattle.packet_ranges.specs.Handout.{HandsOut};
ghost use Rattle.packet_target.specs.Target.{aimed_of, Targets, clipped};

use kept_records::{Records, push_record};
use kept_resources::resources::{Resources, find_resource, resource_row};
use packet_ranges::applied::{Applied, refuse};
use rules::numbers::{CLIPS, MOST_ROWS};
use rules::{Kind, Record, Refusal, SetScissor, SetTarget, Shape};
use signed::{begins, common, is_negative};
use widths::u32_to_word;

// Looks for the live texture that has a handle. Handle 0 is not live.
fn live_texture(resources: &Resources, live: usize, handle: u32) -> Option<Shape>
    requires { live ≤ most }
    ensures { result ≡ aimed_of (live_texture handle (holdings_of live resources.now 0 [])) }
{
    if handle == 0 {
        return None;
    }
    let Some(place) = find_resource(resources, live, handle) else {
        return None;
    };
    match resource_row(resources, place).kind {
        Kind::Buffer => None,
        Kind::Texture(shape) => Some(shape),
    }
}

// Applies a target packet. The records are not lent: the contract holds whatever they are.
pub fn on_target(resources: &Resources, live: usize, made: usize, c: SetTarget) -> Applied
    requires { (live ≤ most) × (made ≤ most) }
    ensures { Targets c live made resources.now result }
{
    match live_texture(resources, live, c.handle) {
        None => refuse(Refusal::BadHandle, live, made),
        Some(_) => Applied {
            verdict: Ok(()),
            live,
            made,
        },
    }
}

// Whether a scissor has a negative side.
fn bad_sides(c: SetScissor) -> bool
    ensures { result ≡ bad_sides c }
{
    if is_negative(c.width) {
        return true;
    }
    is_negative(c.height)
}

// A rectangle as a record.
fn rectangle(left: u32, top: u32, width: u32, height: u32) -> Record
    ensures { result ≡ rectangle left top width height }
{
    Record {
        kind: CLIPS,
        handle: left,
        id: top,
        gpa: u32_to_word(width),
        length: u32_to_word(height),
    }
}

// What a scissor leaves of a texture's first mip: all 0 where it leaves nothing.
fn clip_of(shape: Shape, c: SetScissor) -> Record
    ensures { result ≡ clip_of shape c }
{
    let width = common(c.x, c.width, shape.width);
    if width == 0 {
        return rectangle(0, 0, 0, 0);
    }
    let height = common(c.y, c.height, shape.height);
    if height == 0 {
        return rectangle(0, 0, 0, 0);
    }
    rectangle(begins(c.x), begins(c.y), width, height)
}

// Hands a scissor's clipped rectangle to the host, for which there must be room.
fn clip_to(records: &mut Records, made: usize, live: usize, shape: Shape, c: SetScissor) -> Applied
    requires { (live ≤ most) × (made ≤ most) }
    ensures { HandsOut (clipped shape c) live made records.old result records.new }
{
    if bad_sides(c) {
        return refuse(Refusal::BadState, live, made);
    }
    if made >= MOST_ROWS {
        return refuse(Refusal::TooMany, live, made);
    }
    let clip = clip_of(shape, c);
    push_record(records, made, clip);
    Applied {
        verdict: Ok(()),
        live,
        made: made + 1,
    }
}

// Applies a scissor packet, in place, in a submission that has this target.
pub fn on_scissor(
    resources: &Resources,
    live: usize,
    records: &mut Records,
    made: usize,
    target: u32,
    c: SetScissor,
) -> Applied
    requires { (live ≤ most) × (made ≤ most) }
    ensures { Applies (on_scissor_packet target (holdings_of live resources.now made records.old) c)
        result resources.now records.new }
{
    match live_texture(resources, live, target) {
        None => refuse(Refusal::BadState, live, made),
        Some(shape) => clip_to(records, made, live, shape, c),
    }
}
