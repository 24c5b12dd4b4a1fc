// What the packets that need tokens do to what a submission holds: a destroy of what may be shared, an export, an import, a release. `resources` is
// the device's table of resources, `own` the submission's own, which has its resources where `copied` says so; `tokens` and `owntokens` likewise.
#![tactic(auto)]

ghost use Rattle.std.specs.Prelude.{◌≡◌, ◌≤◌};
ghost use Rattle.machine.specs.Machine.{pick};
ghost use Rattle.rules.specs.Numbers.{most, most_tokens};
ghost use Rattle.rules.specs.declared.Packet.TheVariants.{Destroy, Export, Import, Release};
ghost use Rattle.packet_export.specs.Export.{Exports};
ghost use Rattle.packet_share.specs.Import.{Imports};
ghost use Rattle.packet_share.specs.Release.{Releases};
ghost use Rattle.packet_held.specs.Held.{packet_of};
ghost use Rattle.packet_apply_shared.specs.Shared.{shared_of, Shares};

use kept_resources::resources::Resources;
use kept_tokens::Tokens;
use packet_destroy::destroy::on_destroy;
use packet_export::export::{Exported, on_export};
use packet_held::held::{
    Changed, Held, SharedPacket, chosen, if_fine, take_own, with_own, without,
};
use packet_held::tokens::{HeldTokens, chosen_tokens, rebound, with_token, without_token};
use packet_ranges::applied::Renamed;
use packet_share::import::on_import;
use packet_share::release::{Released, on_release};
use rules::{DestroyResource, ExportSurface, ImportSurface, ReleaseToken, Token};
use widths::u32_to_usize;

// What a packet came to that needs tokens, and the tokens after it.
#[derive(Clone, Copy)]
pub struct Shared {
    pub changed: Changed,
    pub tokens: HeldTokens,
}

// What a packet came to, and the tokens after it.
fn with_tokens(changed: Changed, tokens: HeldTokens) -> Shared
    ensures { result ≡ shared_of changed tokens }
{
    Shared { changed, tokens }
}

fn destroy(
    resources: &Resources,
    own: &mut Resources,
    tokens: &Tokens,
    owntokens: &mut Tokens,
    h: Held,
    t: HeldTokens,
    c: DestroyResource,
) -> Shared
    requires { ((h.live ≤ most) × (h.made ≤ most)) × (t.used ≤ most_tokens) }
    ensures { Shares h t resources.now own.old tokens.now owntokens.old (Destroy c) result
        own.new owntokens.new }
{
    take_own(resources, own, h.copied, h.live);
    let x = on_destroy(own, h.live, h.made, c);
    let held = rebound(tokens, owntokens, t, x.old, x.new);
    let a = x.applied;
    let verdict = a.verdict;
    let target = if_fine(verdict, without(c.handle, h.target), h.target);
    with_tokens(with_own(a, true, target), held)
}

// What the rules say of an export, by the table that has the submission's tokens.
fn judge_export<'a>(
    table: &Resources,
    tokens: &'a Tokens,
    owntokens: &'a Tokens,
    h: Held,
    t: HeldTokens,
    c: ExportSurface,
) -> Exported
    requires { ((h.live ≤ most) × (h.made ≤ most)) × (t.used ≤ most_tokens) }
    ensures { Exports c h.live h.made t.used table.now (pick t.copied owntokens.now tokens.now) result }
{
    let used = chosen_tokens(tokens, owntokens, t.copied);
    on_export(table, h.live, h.made, used, u32_to_usize(t.used), c)
}

fn export<'a>(
    resources: &'a Resources,
    own: &'a Resources,
    tokens: &Tokens,
    owntokens: &mut Tokens,
    h: Held,
    t: HeldTokens,
    c: ExportSurface,
) -> Shared
    requires { ((h.live ≤ most) × (h.made ≤ most)) × (t.used ≤ most_tokens) }
    ensures { Shares h t resources.now own.now tokens.now owntokens.old (Export c) result
        own.now owntokens.new }
{
    let table = chosen(resources, own, h.copied);
    let x = judge_export(table, tokens, owntokens, h, t, c);
    let token = Token {
        name: x.name,
        token: c.token,
    };
    let held = with_token(tokens, owntokens, t, x.added, token);
    let a = x.applied;
    with_tokens(with_own(a, h.copied, h.target), held)
}

// What an import does to the submission's own resources, by the table that has its tokens.
fn judge_import<'a>(
    own: &mut Resources,
    tokens: &'a Tokens,
    owntokens: &'a Tokens,
    h: Held,
    t: HeldTokens,
    c: ImportSurface,
) -> Renamed
    requires { ((h.live ≤ most) × (h.made ≤ most)) × (t.used ≤ most_tokens) }
    ensures { Imports c h.live h.made t.used own.old (pick t.copied owntokens.now tokens.now) result own.new }
{
    let used = chosen_tokens(tokens, owntokens, t.copied);
    on_import(own, h.live, h.made, used, u32_to_usize(t.used), c)
}

fn import(
    resources: &Resources,
    own: &mut Resources,
    tokens: &Tokens,
    owntokens: &mut Tokens,
    h: Held,
    t: HeldTokens,
    c: ImportSurface,
) -> Shared
    requires { ((h.live ≤ most) × (h.made ≤ most)) × (t.used ≤ most_tokens) }
    ensures { Shares h t resources.now own.old tokens.now owntokens.old (Import c) result
        own.new owntokens.new }
{
    take_own(resources, own, h.copied, h.live);
    let x = judge_import(own, tokens, owntokens, h, t, c);
    let held = rebound(tokens, owntokens, t, x.old, x.new);
    let a = x.applied;
    with_tokens(with_own(a, true, h.target), held)
}

// What the rules say of a release, by the table that has the submission's tokens.
fn judge_release<'a>(
    table: &Resources,
    tokens: &'a Tokens,
    owntokens: &'a Tokens,
    h: Held,
    t: HeldTokens,
    c: ReleaseToken,
) -> Released
    requires { ((h.live ≤ most) × (h.made ≤ most)) × (t.used ≤ most_tokens) }
    ensures { Releases c h.live h.made t.used table.now (pick t.copied owntokens.now tokens.now) result }
{
    let used = chosen_tokens(tokens, owntokens, t.copied);
    on_release(table, h.live, h.made, used, u32_to_usize(t.used), c)
}

fn release<'a>(
    resources: &'a Resources,
    own: &'a Resources,
    tokens: &Tokens,
    owntokens: &mut Tokens,
    h: Held,
    t: HeldTokens,
    c: ReleaseToken,
) -> Shared
    requires { ((h.live ≤ most) × (h.made ≤ most)) × (t.used ≤ most_tokens) }
    ensures { Shares h t resources.now own.now tokens.now owntokens.old (Release c) result
        own.now owntokens.new }
{
    let table = chosen(resources, own, h.copied);
    let x = judge_release(table, tokens, owntokens, h, t, c);
    let a = x.applied;
    let verdict = a.verdict;
    match verdict {
        Ok(()) => {
            let held = without_token(tokens, owntokens, t, x.place);
            with_tokens(with_own(a, h.copied, h.target), held)
        }
        Err(_) => with_tokens(with_own(a, h.copied, h.target), t),
    }
}

// What a packet that was left does to what a submission holds.
pub fn apply_shared(
    resources: &Resources,
    own: &mut Resources,
    tokens: &Tokens,
    owntokens: &mut Tokens,
    h: Held,
    t: HeldTokens,
    p: SharedPacket,
) -> Shared
    requires { ((h.live ≤ most) × (h.made ≤ most)) × (t.used ≤ most_tokens) }
    ensures { Shares h t resources.now own.old tokens.now owntokens.old (packet_of p) result
        own.new owntokens.new }
{
    match p {
        SharedPacket::Destroy(c) => destroy(resources, own, tokens, owntokens, h, t, c),
        SharedPacket::Export(c) => export(resources, own, tokens, owntokens, h, t, c),
        SharedPacket::Import(c) => import(resources, own, tokens, owntokens, h, t, c),
        SharedPacket::Release(c) => release(resources, own, tokens, owntokens, h, t, c),
    }
}
