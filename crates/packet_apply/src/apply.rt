// What each packet does to what a submission holds: resources, records and target, by the crate of its kind. A packet that needs tokens is left.
// What each packet passes is inlined, so that its enums stay in registers.
ghost use Rattle.std.specs.Prelude.{◌≡◌, ◌≤◌};
ghost use Rattle.rules.specs.Numbers.{most};
ghost use Rattle.rules.specs.Packets.{on_buffer_packet, on_texture_packet, on_dirty_packet, on_copy_packet, on_target_packet, on_scissor_packet, target_after};
ghost use Rattle.rules.specs.declared.Packet.TheVariants.{Target};
ghost use Rattle.kept_entries.specs.Views.{entries_of};
ghost use Rattle.packet_ranges.specs.Views.{RowsExist};
ghost use Rattle.packet_held.specs.Held.{holdings_held};
ghost use Rattle.packet_apply.specs.Apply.{Leaves, Takes, TakesDestroy};

use kept_entries::Entries;
use kept_records::Records;
use kept_resources::resources::Resources;
use packet_copy::copy::on_copy;
use packet_create::create::{on_buffer, on_texture};
use packet_destroy::destroy::destroy_unshared;
use packet_dirty::dirty::on_dirty;
use packet_held::held::{
    Changed, Held, SharedPacket, chosen, if_fine, take_own, with_own, without,
};
use packet_ranges::applied::refuse;
use packet_state::values::{on_clear, on_viewport};
use packet_target::{on_scissor, on_target};
use rules::{
    CopyBuffer, CreateBuffer, CreateTexture, DestroyResource, DirtyRange, Packet, Refusal,
    SetScissor, SetTarget,
};

// What a packet came to. Of one that nobody knows, and of one that is left, here is what is held as it was. That nobody knows it is a hint: more
// such packets are likely to come.
#[derive(Clone, Copy)]
pub enum Taken {
    Plain(Changed),
    Unknown(Held),
    Left(Held, SharedPacket),
}

#[inline(always)]
fn make_buffer(
    entries: &Entries,
    kept: usize,
    resources: &Resources,
    own: &mut Resources,
    records: &mut Records,
    h: Held,
    c: CreateBuffer,
) -> Changed
    requires { RowsExist kept h.live h.made }
    ensures { Leaves (on_buffer_packet (entries_of kept entries.now)
        (holdings_held h resources.now own.old records.old) c) h.target
        resources.now result own.new records.new }
{
    take_own(resources, own, h.copied, h.live);
    let a = on_buffer(entries, kept, own, h.live, records, h.made, c);
    with_own(a, true, h.target)
}

#[inline(always)]
fn make_texture(
    entries: &Entries,
    kept: usize,
    resources: &Resources,
    own: &mut Resources,
    records: &mut Records,
    h: Held,
    c: CreateTexture,
) -> Changed
    requires { RowsExist kept h.live h.made }
    ensures { Leaves (on_texture_packet (entries_of kept entries.now)
        (holdings_held h resources.now own.old records.old) c) h.target
        resources.now result own.new records.new }
{
    take_own(resources, own, h.copied, h.live);
    let a = on_texture(entries, kept, own, h.live, records, h.made, c);
    with_own(a, true, h.target)
}

#[inline(always)]
fn destroy(
    resources: &Resources,
    own: &mut Resources,
    records: &Records,
    h: Held,
    c: DestroyResource,
) -> Taken
    requires { (h.live ≤ most) × (h.made ≤ most) }
    ensures { TakesDestroy h resources.now own.old records.now c result own.new records.now }
{
    take_own(resources, own, h.copied, h.live);
    match destroy_unshared(own, h.live, h.made, c) {
        Some(a) => {
            let verdict = a.verdict;
            let target = if_fine(verdict, without(c.handle, h.target), h.target);
            Taken::Plain(with_own(a, true, target))
        }
        None => {
            let held = Held {
                live: h.live,
                made: h.made,
                copied: true,
                target: h.target,
            };
            Taken::Left(held, SharedPacket::Destroy(c))
        }
    }
}

#[inline(always)]
fn dirty<'a>(
    entries: &Entries,
    kept: usize,
    resources: &'a Resources,
    own: &'a Resources,
    records: &mut Records,
    h: Held,
    c: DirtyRange,
) -> Changed
    requires { RowsExist kept h.live h.made }
    ensures { Leaves (on_dirty_packet (entries_of kept entries.now)
        (holdings_held h resources.now own.now records.old) c) h.target
        resources.now result own.now records.new }
{
    let table = chosen(resources, own, h.copied);
    let a = on_dirty(entries, kept, table, h.live, records, h.made, c);
    with_own(a, h.copied, h.target)
}

#[inline(always)]
fn copy<'a>(
    entries: &Entries,
    kept: usize,
    resources: &'a Resources,
    own: &'a Resources,
    records: &mut Records,
    h: Held,
    c: CopyBuffer,
) -> Changed
    requires { RowsExist kept h.live h.made }
    ensures { Leaves (on_copy_packet (entries_of kept entries.now)
        (holdings_held h resources.now own.now records.old) c) h.target
        resources.now result own.now records.new }
{
    let table = chosen(resources, own, h.copied);
    let a = on_copy(entries, kept, table, h.live, records, h.made, c);
    with_own(a, h.copied, h.target)
}

#[inline(always)]
fn aim<'a>(
    resources: &'a Resources,
    own: &'a Resources,
    records: &Records,
    h: Held,
    c: SetTarget,
) -> Changed
    requires { (h.live ≤ most) × (h.made ≤ most) }
    ensures { Leaves (on_target_packet (holdings_held h resources.now own.now records.now) c)
        (target_after (Target c) (on_target_packet (holdings_held h resources.now own.now records.now) c).verdict h.target) resources.now result own.now records.now }
{
    let table = chosen(resources, own, h.copied);
    let a = on_target(table, h.live, h.made, c);
    let verdict = a.verdict;
    let target = if_fine(verdict, c.handle, h.target);
    with_own(a, h.copied, target)
}

#[inline(always)]
fn cut<'a>(
    resources: &'a Resources,
    own: &'a Resources,
    records: &mut Records,
    h: Held,
    c: SetScissor,
) -> Changed
    requires { (h.live ≤ most) × (h.made ≤ most) }
    ensures { Leaves (on_scissor_packet h.target
        (holdings_held h resources.now own.now records.old) c) h.target
        resources.now result own.now records.new }
{
    let table = chosen(resources, own, h.copied);
    let a = on_scissor(table, h.live, records, h.made, h.target, c);
    with_own(a, h.copied, h.target)
}

// What a packet does to what a submission holds, by the entries of its table. `resources` is the device's table of resources, `own` the
// submission's own, which has its resources where `copied` says so.
#[inline(always)]
pub fn apply_packet(
    entries: &Entries,
    kept: usize,
    resources: &Resources,
    own: &mut Resources,
    records: &mut Records,
    h: Held,
    p: Packet,
) -> Taken
    requires { RowsExist kept h.live h.made }
    ensures { Takes (entries_of kept entries.now) h resources.now own.old records.old p result
        own.new records.new }
{
    match p {
        Packet::Buffer(c) => Taken::Plain(make_buffer(
            entries, kept, resources, own, records, h, c,
        )),
        Packet::Texture(c) => Taken::Plain(make_texture(
            entries, kept, resources, own, records, h, c,
        )),
        Packet::Destroy(c) => destroy(resources, own, records, h, c),
        Packet::Dirty(c) => Taken::Plain(dirty(entries, kept, resources, own, records, h, c)),
        Packet::Copy(c) => Taken::Plain(copy(entries, kept, resources, own, records, h, c)),
        Packet::Target(c) => Taken::Plain(aim(resources, own, records, h, c)),
        Packet::Viewport(c) => Taken::Plain(with_own(
            on_viewport(h.live, h.made, c),
            h.copied,
            h.target,
        )),
        Packet::Scissor(c) => Taken::Plain(cut(resources, own, records, h, c)),
        Packet::Clear(c) => Taken::Plain(with_own(on_clear(h.live, h.made, c), h.copied, h.target)),
        Packet::Export(c) => Taken::Left(h, SharedPacket::Export(c)),
        Packet::Import(c) => Taken::Left(h, SharedPacket::Import(c)),
        Packet::Release(c) => Taken::Left(h, SharedPacket::Release(c)),
        Packet::NotANumber => Taken::Plain(with_own(
            refuse(Refusal::BadState, h.live, h.made),
            h.copied,
            h.target,
        )),
        Packet::Unknown => Taken::Unknown(h),
    }
}
