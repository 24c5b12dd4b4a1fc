// Which form a file has, and where its sections begin: "A first u32, 1 or 2, tells the forms apart; old files without it are form 1" (02, wish 11).
#![tactic(auto)]

ghost use Rattle.std.specs.Prelude.{◌≡◌, ◌≤◌, length};
ghost use Rattle.rules.specs.Saved.{more_registers};
ghost use Rattle.rules.specs.Loaded.{form_in, before_sections};

use rules::Form;
use saved_fields::field_at;

// The numbers that a file of form 1 and one of form 2 begin with.
pub const NUMBER_1: u32 = 1;

pub const NUMBER_2: u32 = 2;

// The bytes of that number.
pub const NUMBER_BYTES: usize = 4;

// How many registers the form has more than form 1.
pub fn more_registers(form: Form) -> u32
    ensures { (result ≡ more_registers form) × (result ≤ 1) }
{
    match form {
        Form::One => 0,
        Form::Two => 1,
    }
}

// The form of a file.
pub fn form_in(file: &[u8]) -> Form
    ensures { result ≡ form_in file.now }
{
    if field_at(file, 0) == NUMBER_2 {
        return Form::Two;
    }
    Form::One
}

// The bytes before a file's sections.
pub fn before_sections(file: &[u8]) -> usize
    ensures { (result ≡ before_sections file.now) × (result ≤ length file.now) }
{
    let first = field_at(file, 0);
    if first == NUMBER_1 {
        return NUMBER_BYTES;
    }
    if first == NUMBER_2 {
        return NUMBER_BYTES;
    }
    0
}
