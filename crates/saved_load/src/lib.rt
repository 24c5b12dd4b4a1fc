// Loading: a device that was saved is read back from a file of either form, in place. A bad file changes nothing.
#![tactic(auto)]

ghost use Rattle.std.specs.Prelude.{◌≡◌};
ghost use Rattle.call_errors.specs.declared.CallError.TheVariants.{BadFile as bad_file};
ghost use Rattle.saved_fields.specs.Good.{GoodFile};
ghost use Rattle.saved_load.specs.Views.{LoadsGood, Loads};

use call_errors::CallError;
use kept_resources::resources::Resources;
use kept_tokens::Tokens;
use run_state::Words;
use saved_check::check_file;
use saved_forms::{before_sections, form_in};
use saved_load_sections::load_sections;

// Why a file is not loaded: the place of the first field or byte that breaks a rule.
#[derive(Clone, Copy, Debug, PartialEq, Eq)]
pub struct BadFile {
    pub place: u32,
}

impl From<BadFile> for CallError {
    ghost from_gives = { λ _ e. e ≡ bad_file };

    fn from(_file: BadFile) -> CallError {
        CallError::BadFile
    }
}

// A good file's device.
fn load_good(words: &mut Words, first: &mut Resources, firsttokens: &mut Tokens, file: &[u8])
    requires { GoodFile file.now }
    ensures { LoadsGood file.now words.new first.new firsttokens.new }
{
    let before = before_sections(file);
    let form = form_in(file);
    load_sections(words, first, firsttokens, form, &file[before..]);
}

// Loads a device from a file, over the one that is there, whatever it does. Its tables of resources and of tokens are the first; all
// others may hold anything.
pub fn load(
    words: &mut Words,
    first: &mut Resources,
    firsttokens: &mut Tokens,
    file: &[u8],
) -> Result<(), BadFile>
    ensures { Loads file.now words.old first.old firsttokens.old words.new first.new firsttokens.new result }
{
    match check_file(file) {
        Err(place) => Err(BadFile { place }),
        Ok(()) => {
            load_good(words, first, firsttokens, file);
            Ok(())
        }
    }
}
