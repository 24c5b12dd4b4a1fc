// Section 3 of a saved desk of form 2: the other names of its resources, each judged after the one before it. Section 2 is all there by then, and
// its resources are looked up where they stand in the file.
#![tactic(auto)]

ghost use Rattle.std.specs.Prelude.{◌≡◌, ◌&&◌, ◌≤◌, ltb, Ok};
ghost use Rattle.rules.specs.Numbers.{most};
ghost use Rattle.rules.specs.Lists.{lookup};
ghost use Rattle.rules.specs.Names.{shareable};
ghost use Rattle.rules.specs.Packets.{handle_of};
ghost use Rattle.rules.specs.Loaded.{loaded_resource, is_free, may_be_shared, name_rules, names_rules, names_place};
ghost use Rattle.saved_fields.specs.Judging.{judge_rules};
ghost use Rattle.rules.specs.declared.Form.TheVariants.{Two};
ghost use Rattle.saved_names.specs.Scan.{Standing, StandsWhole, stands, WholeAt, resources_of, furthest_first, furthest_name};
ghost use Rattle.saved_names.specs.Names.{section_3_names};

use rules::numbers::BUFFER_KIND;
use saved_fields::{field_at, must};
use saved_resources::RESOURCE_BYTES;

// Where the first resource stands in form 2.
pub const FIRST_RESOURCE: u32 = 96;

// The bytes of another name, and of a section's count.
pub const NAME_BYTES: u32 = 8;

pub const COUNT_BYTES: u32 = 4;

// At most so many names in all.
pub const MOST_NAMES: u32 = 64;

// The resource of section 2 with this name.
fn place_of(file: &[u8], count: u32, name: u32) -> Option<u32>
    requires { Standing file.now count }
    ensures { (lookup handle_of name (resources_of file.now count) ≡ stands file.now result) × StandsWhole file.now result }
{
    let mut at: u32 = FIRST_RESOURCE;
    for _ in 0..count {
        if field_at(file, at) == name {
            return Some(at);
        }
        at += RESOURCE_BYTES;
    }
    None
}

// Whether the resource that stands there is a texture of one mip and one layer.
fn shareable_at(file: &[u8], at: u32) -> bool
    requires { WholeAt file.now at }
    ensures { result ≡ shareable (loaded_resource file.now at).kind }
{
    if field_at(file, at + 4) == BUFFER_KIND {
        return false;
    }
    if field_at(file, at + 28) != 1 {
        return false;
    }
    field_at(file, at + 32) == 1
}

// Whether a name is that of a resource of section 2 that may have other names and tokens.
pub fn may_be_shared(file: &[u8], count: u32, name: u32) -> bool
    requires { Standing file.now count }
    ensures { result ≡ may_be_shared (lookup handle_of name (resources_of file.now count)) }
{
    match place_of(file, count, name) {
        None => false,
        Some(at) => shareable_at(file, at),
    }
}

// Whether another name is above the one before it, and no resource of section 2 has it.
fn good_name(file: &[u8], count: u32, before: u32, name: u32) -> bool
    requires { Standing file.now count }
    ensures { result ≡ (ltb before name && is_free (lookup handle_of name (resources_of file.now count))) }
{
    if name <= before {
        return false;
    }
    match place_of(file, count, name) {
        None => true,
        Some(_) => false,
    }
}

// Whether the lowest name is below the other one, and is that of a resource that may be shared.
fn good_lowest(file: &[u8], count: u32, name: u32, lowest: u32) -> bool
    requires { Standing file.now count }
    ensures { result ≡ (ltb lowest name && may_be_shared (lookup handle_of lowest (resources_of file.now count))) }
{
    if name <= lowest {
        return false;
    }
    may_be_shared(file, count, lowest)
}

// The other name that stands there, after the name `before`, with its lowest name.
fn judge_name(
    sofar: Result<(), u32>,
    file: &[u8],
    count: u32,
    at: u32,
    before: u32,
) -> Result<(), u32>
    requires { Standing file.now count × (at ≤ furthest_name) }
    ensures { result ≡ judge_rules sofar (name_rules (resources_of file.now count) file.now at before) }
{
    let name = field_at(file, at);
    let lowest = field_at(file, at + 4);
    let free = good_name(file, count, before, name);
    let other = must(sofar, file.len(), at, free);
    let shared = good_lowest(file, count, name, lowest);
    must(other, file.len(), at + 4, shared)
}

// So many other names, the first of which stands there.
fn judge_names(file: &[u8], count: u32, first: u32, n: u32) -> Result<(), u32>
    requires { Standing file.now count × ((first ≤ furthest_first) × (n ≤ most)) }
    ensures { result ≡ judge_rules (Ok tt) (names_rules n (resources_of file.now count) file.now first 0) }
{
    let mut check = Ok(());
    let mut before: u32 = 0;
    let mut at: u32 = first;
    for _ in 0..n {
        check = judge_name(check, file, count, at, before);
        before = field_at(file, at);
        at += NAME_BYTES;
    }
    check
}

// Section 3 after so many resources. Where it says too many names, nothing after that is looked at.
pub fn check_names(file: &[u8], count: u32) -> Result<(), u32>
    requires { Standing file.now count }
    ensures { result ≡ judge_rules (Ok tt) (section_3_names (resources_of file.now count) file.now (names_place Two count)) }
{
    let at = FIRST_RESOURCE + RESOURCE_BYTES * count;
    let n = field_at(file, at);
    let few = must(Ok(()), file.len(), at, n <= MOST_NAMES - count);
    match few {
        Err(_) => few,
        Ok(()) => judge_names(file, count, at + COUNT_BYTES, n),
    }
}
