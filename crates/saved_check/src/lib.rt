// Whether a file is a saved desk that can be loaded, and else the place of the first rule that it breaks.
#![tactic(auto)]

ghost use Rattle.std.specs.Prelude.{◌≡◌, ◌≤◌, Ok};
ghost use Rattle.rules.specs.Numbers.{most};
ghost use Rattle.rules.specs.Saved.{head_bytes};
ghost use Rattle.rules.specs.Loaded.{resources_rules, first_broken, names_place, section_3_rules, sections_rules, bad_place};
ghost use Rattle.saved_fields.specs.Judging.{checked, judge_rules};
ghost use Rattle.saved_names.specs.Scan.{Standing, resources_of};
ghost use Rattle.rules.specs.declared.Form.TheVariants.{Two};
ghost use Rattle.saved_check.specs.Whole.{AllThere, later};

use rules::Form;
use saved_fields::{field_at, must_end};
use saved_forms::{before_sections, form_in, more_registers};
use saved_head::{COUNT_PLACE, HEAD_BYTES, MOST_RESOURCES, REGISTER_BYTES, check_head};
use saved_names::{COUNT_BYTES, FIRST_RESOURCE, NAME_BYTES, check_names};
use saved_resources::{RESOURCE_BYTES, judge_resource, read_resource};
use saved_tokens::check_tokens;

// The bytes of a file's number.
const NUMBER: u32 = 4;

// So many resources, one after the other, the first of which stands there.
fn check_resources(sofar: Result<(), u32>, file: &[u8], first: u32, count: u32) -> Result<(), u32>
    requires { (first ≤ head_bytes Two) × (count ≤ most) }
    ensures { result ≡ judge_rules sofar (resources_rules count file.now first 0) }
{
    let mut check = sofar;
    let mut before: u32 = 0;
    let mut at: u32 = first;
    for _ in 0..count {
        let s = read_resource(file, at);
        check = judge_resource(check, file.len(), at, before, s);
        before = s.handle;
        at += RESOURCE_BYTES;
    }
    check
}

// Sections 3 and 4 after so many good resources.
fn check_shared(file: &[u8], count: u32) -> Result<(), u32>
    requires { Standing file.now count }
    ensures { result ≡ judge_rules (Ok tt) (section_3_rules (resources_of file.now count) file.now (names_place Two count)) }
{
    let names = check_names(file, count);
    match names {
        Err(_) => names,
        Ok(()) => {
            let at = FIRST_RESOURCE + RESOURCE_BYTES * count;
            let n = field_at(file, at);
            check_tokens(file, count, at + COUNT_BYTES + NAME_BYTES * n)
        }
    }
}

// What comes after so many resources. Where a rule before was broken, nothing more is looked at.
fn check_later(sofar: Result<(), u32>, file: &[u8], form: Form, count: u32) -> Result<(), u32>
    requires { (count ≤ most) × AllThere file.now (names_place form count) sofar }
    ensures { result ≡ judge_rules sofar (later form file.now count) }
{
    match form {
        Form::One => must_end(sofar, file.len(), HEAD_BYTES + RESOURCE_BYTES * count),
        Form::Two => match sofar {
            Err(_) => sofar,
            Ok(()) => check_shared(file, count),
        },
    }
}

// All sections of a file of this form. Where they say too many resources, nothing after that is looked at.
fn check_sections(file: &[u8], form: Form) -> Result<(), u32>
    ensures { result ≡ checked (first_broken (sections_rules form file.now)) }
{
    let more = REGISTER_BYTES * more_registers(form);
    let head = check_head(file, form);
    let count = field_at(file, COUNT_PLACE + more);
    if count > MOST_RESOURCES {
        return head;
    }
    let resources = check_resources(head, file, HEAD_BYTES + more, count);
    check_later(resources, file, form, count)
}

// Judges a whole file: an error is the place of the first field that breaks a rule. Places count from the file's first byte, its number included.
pub fn check_file(file: &[u8]) -> Result<(), u32>
    ensures { result ≡ checked (bad_place file.now) }
{
    let before = before_sections(file);
    let form = form_in(file);
    let found = check_sections(&file[before..], form);
    if before == 0 {
        return found;
    }
    match found {
        Ok(()) => found,
        Err(place) => Err(place + NUMBER),
    }
}
