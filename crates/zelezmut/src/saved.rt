// A desk that is saved and loaded: the device over state that the host owns, and a file that it lends; and a file moved to the other form. What
// stands beside a call's answer is in one number with it.
ghost use Rattle.rules.specs.declared.Form.TheVariants.{One, Two};
ghost use Rattle.zelezmut.specs.Said.{SaysSaved, SaysLoaded, SaysMoved};

use export_numbers::{beside, said_value};
use kept_resources::resources::Resources;
use kept_tokens::Tokens;
use rules::Form;
use rules::numbers::{BAD_FILE, DONE};
use run_state::Words;

// Writes the device, at rest, into the lent buffer, in form 1: the length, and 2^32 times the call's answer.
pub fn zelezmut_save(
    words: &Words,
    first: &Resources,
    second: &Resources,
    firsttokens: &Tokens,
    secondtokens: &Tokens,
    buffer: &mut [u8],
) -> u64
    ensures { SaysSaved One words.now first.now second.now firsttokens.now secondtokens.now buffer.old result buffer.new }
{
    said_value(saved_save::save(
        Form::One,
        words,
        first,
        second,
        firsttokens,
        secondtokens,
        buffer,
    ))
}

// The same in form 2.
pub fn zelezmut_save_form_2(
    words: &Words,
    first: &Resources,
    second: &Resources,
    firsttokens: &Tokens,
    secondtokens: &Tokens,
    buffer: &mut [u8],
) -> u64
    ensures { SaysSaved Two words.now first.now second.now firsttokens.now secondtokens.now buffer.old result buffer.new }
{
    said_value(saved_save::save(
        Form::Two,
        words,
        first,
        second,
        firsttokens,
        secondtokens,
        buffer,
    ))
}

// Makes the device what a saved desk says, whatever it was: the place of the first bad field or byte, and 2^32 times the call's answer.
pub fn zelezmut_load(
    words: &mut Words,
    first: &mut Resources,
    firsttokens: &mut Tokens,
    file: &[u8],
) -> u64
    ensures { SaysLoaded words.old first.old firsttokens.old file.now result words.new first.new firsttokens.new }
{
    match saved_load::load(words, first, firsttokens, file) {
        Ok(()) => beside(0, DONE),
        Err(bad) => beside(bad.place, BAD_FILE),
    }
}

// Writes a saved desk into the lent buffer in the other form: the length, and 2^32 times the call's answer.
pub fn zelezmut_move(file: &[u8], buffer: &mut [u8]) -> u64
    ensures { SaysMoved file.now buffer.old result buffer.new }
{
    let x = saved_move::move_form(file, buffer);
    said_value(x)
}
