// Why a call is refused: the rule book's answers 1 to 10, each a variant. A call that is done answers 0.
#![tactic(auto)]

ghost use Rattle.std.specs.Prelude.{◌≡◌};
ghost use Rattle.call_errors.specs.Answers.{number_of, answer_of};

use rules::numbers::DONE;

// A refusal of a call, with its number.
#[derive(Clone, Copy, Debug, PartialEq, Eq)]
pub enum CallError {
    OtherMemory = 1,
    NoRegister = 2,
    NothingWaits = 3,
    NoRecord = 4,
    InWork = 5,
    TooShort = 6,
    BadFile = 7,
    NotInForm = 8,
    TooMuch = 9,
    BadFeed = 10,
}

impl CallError {
    // The answer that stands for the refusal.
    pub fn number(self) -> u32
        ensures { result ≡ number_of self }
    {
        self as u32
    }
}

// The answer of a call: 0 where it is done, else the refusal's number.
pub fn answer<T: Copy>(outcome: Result<T, CallError>) -> u32
    ensures { result ≡ answer_of outcome }
{
    match outcome {
        Ok(_) => DONE,
        Err(error) => error.number(),
    }
}
