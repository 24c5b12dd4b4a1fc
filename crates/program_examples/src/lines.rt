// How the lines of several examples say what a rule makes of something.
ghost use Rattle.std.specs.Prelude.{◌≡◌, ◌≢◌, Some};
ghost use Rattle.program_examples.specs.declared.lines.Judged.TheVariants.{Passes, Refused};
ghost use Rattle.program_examples.specs.Judged.{words_of};

use std::fmt;

// What was asked about keeps every rule, or breaks the one with this number.
#[derive(Clone, Copy)]
pub enum Judged {
    Passes,
    Refused(u32),
}

// From the number of the rule that was broken; 0 is none.
impl From<u32> for Judged {
    ghost from_gives = { λ code judged. (code ≡ 0 → judged ≡ Passes) × (code ≢ 0 → judged ≡ Refused code) };

    fn from(code: u32) -> Judged {
        match code {
            0 => Judged::Passes,
            _ => Judged::Refused(code),
        }
    }
}

impl fmt::Display for Judged {
    ghost output = { λ judged. Some (words_of judged) };

    fn fmt<W: fmt::Write>(&self, f: &mut fmt::Formatter<W>) -> fmt::Result {
        match self {
            Judged::Passes => write!(f, "passes"),
            Judged::Refused(code) => write!(f, "refused {code}"),
        }
    }
}
