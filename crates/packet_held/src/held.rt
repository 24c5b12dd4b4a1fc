// What a submission holds, and how a packet leaves it: resources are the device's until the first create, destroy or import; that copies them to
// a table of its own. The target ends with its handle. Few packets need tokens, so these stand apart.
ghost use Rattle.std.specs.Prelude.{◌≡◌, ◌≤◌, eqb};
ghost use Rattle.machine.specs.Machine.{pick};
ghost use Rattle.rules.specs.Numbers.{most};
ghost use Rattle.rules.specs.Packets.{if-fine};
ghost use Rattle.kept_resources.specs.Views.{resources_of};
ghost use Rattle.packet_held.specs.Held.{changed_of};

use kept_resources::resources::Resources;
use kept_storing::copy_resources;
use packet_ranges::applied::Applied;
use rules::{DestroyResource, ExportSurface, ImportSurface, Refusal, ReleaseToken};

// What a submission holds, beside the rows of its tables and its tokens: how many resources and records there are, whether the resources are in
// the submission's own table, and the handle of its target, 0 for none.
#[derive(Clone, Copy)]
pub struct Held {
    pub live: usize,
    pub made: usize,
    pub copied: bool,
    pub target: u32,
}

// What a packet came to, and what is held after it.
#[derive(Clone, Copy)]
pub struct Changed {
    pub verdict: Result<(), Refusal>,
    pub held: Held,
}

// A packet that is left for whoever has the submission's tokens.
#[derive(Clone, Copy)]
pub enum SharedPacket {
    Destroy(DestroyResource),
    Export(ExportSurface),
    Import(ImportSurface),
    Release(ReleaseToken),
}

// What was applied, with the rest of what is then held.
pub fn with_own(a: Applied, copied: bool, target: u32) -> Changed
    ensures { result ≡ changed_of a copied target }
{
    let held = Held {
        live: a.live,
        made: a.made,
        copied,
        target,
    };
    Changed {
        verdict: a.verdict,
        held,
    }
}

// The target after a packet that would change it: one that is refused does not.
pub fn if_fine(verdict: Result<(), Refusal>, new: u32, old: u32) -> u32
    ensures { result ≡ if-fine verdict new old }
{
    match verdict {
        Ok(()) => new,
        Err(_) => old,
    }
}

// The target once a handle is destroyed: none, if it was that one.
pub fn without(handle: u32, target: u32) -> u32
    ensures { result ≡ pick (eqb handle target) 0 target }
{
    if handle == target { 0 } else { target }
}

// The table that has the submission's resources.
pub fn chosen<'a>(resources: &'a Resources, own: &'a Resources, copied: bool) -> &'a Resources
    ensures { result.now ≡ pick copied own.now resources.now }
{
    if copied { own } else { resources }
}

// Sees that the submission's resources are in its own table.
pub fn take_own(resources: &Resources, own: &mut Resources, copied: bool, live: usize)
    requires { live ≤ most }
    ensures { resources_of live own.new ≡ resources_of live (pick copied own.old resources.now) }
{
    if !copied {
        copy_resources(resources, own, live);
    }
}
