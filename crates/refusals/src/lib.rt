// The number of a rule, as the error register and the texts have it.
#![tactic(auto)]

ghost use Rattle.std.specs.Prelude.{◌≡◌};
ghost use Rattle.rules.specs.Judging.{error_number};

use rules::Refusal;

// The number of the rule that was broken.
pub fn number(why: Refusal) -> u32
    ensures { result ≡ error_number why }
{
    why as u32
}
