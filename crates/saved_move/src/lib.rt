// A saved desk moved to the other form (02, wish 11): what the file says is loaded into a device of its own, and saved in the other form. Only
// files are lent, and a refused move writes nothing.
#![tactic(auto)]

ghost use Rattle.std.specs.Prelude.{◌≡◌};
ghost use Rattle.rules.specs.Loaded.{other_form, call_move};
ghost use Rattle.saved_save.specs.Views.{saved_of};

use call_errors::CallError;
use kept_resources::resources::Resources;
use kept_tokens::Tokens;
use rules::Form;
use run_state::Words;
use saved_forms::form_in;
use saved_load::load;
use saved_save::save;

// The form that is not this one.
fn other_form(form: Form) -> Form
    ensures { result ≡ other_form form }
{
    match form {
        Form::One => Form::Two,
        Form::Two => Form::One,
    }
}

// Writes into the buffer, in the other form, the device that the file says: how many bytes were written.
pub fn move_form(file: &[u8], buffer: &mut [u8]) -> Result<u32, CallError>
    ensures { saved_of result buffer.new ≡ call_move file.now buffer.old }
{
    let mut words: Words = [0; 36];
    let mut resources: Resources = [0; 768];
    let mut tokens: Tokens = [0; 512];
    match load(&mut words, &mut resources, &mut tokens, file) {
        Ok(()) => {}
        Err(why) => return Err(CallError::from(why)),
    }
    let form = other_form(form_in(file));
    save(
        form, &words, &resources, &resources, &tokens, &tokens, buffer,
    )
}
