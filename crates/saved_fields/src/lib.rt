// The fields of a saved desk, each judged by its rule: the first rule that is broken is kept, with the place that it is reported at.
#![tactic(auto)]

ghost use Rattle.std.specs.Prelude.{◌≡◌, eqb, leb};
ghost use Rattle.rules.specs.Layouts.{word};
ghost use Rattle.rules.specs.Loaded.{must as must-hold, any};
ghost use Rattle.saved_fields.specs.Judging.{rule, ends, judge_rule, seen};

use widths::u32_to_usize;
use words::u32_at;

// The bytes of a field.
const FIELD: usize = 4;

// The field at a place, 0 where it is not all there.
pub fn field_at(file: &[u8], at: u32) -> u32
    ensures { result ≡ seen file.now at }
{
    let place = u32_to_usize(at);
    if file.len() < place + FIELD {
        return 0;
    }
    u32_at(file, place)
}

// One rule more: the field at a place has to be there, and this has to hold. An error is the place of the first field that breaks a rule.
pub fn must(sofar: Result<(), u32>, bytes: usize, at: u32, kept: bool) -> Result<(), u32>
    ensures { result ≡ judge_rule sofar (rule bytes at kept) }
{
    sofar?; // the first broken rule is told
    if bytes < u32_to_usize(at) + FIELD || !kept {
        return Err(at);
    }
    Ok(())
}

// A field that may be any number.
pub fn must_be_there(sofar: Result<(), u32>, file: &[u8], at: u32) -> Result<(), u32>
    ensures { result ≡ judge_rule sofar (any file.now at) }
{
    must(sofar, file.len(), at, true)
}

// A field that is fixed.
pub fn must_be(sofar: Result<(), u32>, file: &[u8], at: u32, n: u32) -> Result<(), u32>
    ensures { result ≡ judge_rule sofar (must-hold file.now at (eqb (word file.now at) n)) }
{
    let v = field_at(file, at);
    must(sofar, file.len(), at, v == n)
}

// A field that has a greatest number.
pub fn must_be_at_most(sofar: Result<(), u32>, file: &[u8], at: u32, n: u32) -> Result<(), u32>
    ensures { result ≡ judge_rule sofar (must-hold file.now at (leb (word file.now at) n)) }
{
    let v = field_at(file, at);
    must(sofar, file.len(), at, v <= n)
}

// No byte may follow the last field.
pub fn must_end(sofar: Result<(), u32>, bytes: usize, end: u32) -> Result<(), u32>
    ensures { result ≡ judge_rule sofar (ends bytes end) }
{
    sofar?;
    if u32_to_usize(end) < bytes {
        return Err(end);
    }
    Ok(())
}
