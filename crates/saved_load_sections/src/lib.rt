// The device that the sections of a good file say. Places count from their first byte.
#![tactic(auto)]

ghost use Rattle.std.specs.Prelude.{◌≡◌, ◌+◌, ◌≤◌, length};
ghost use Rattle.rules.specs.Numbers.{most};
ghost use Rattle.rules.specs.Layouts.{word};
ghost use Rattle.kept_resources.specs.Views.{resources_of};
ghost use Rattle.rules.specs.Saved.{count_place};
ghost use Rattle.rules.specs.Loaded.{names_place, section_2, loaded_belongings};
ghost use Rattle.rules.specs.declared.Form.TheVariants.{Two};
ghost use Rattle.saved_fields.specs.Good.{GoodShared, GoodSections};
ghost use Rattle.saved_load_sections.specs.Views.{LoadsResources, LoadsRows, LoadsSections};

use kept_resources::resources::Resources;
use kept_tokens::Tokens;
use rules::Form;
use run_state::Words;
use saved_forms::more_registers;
use saved_head::{COUNT_PLACE, HEAD_BYTES, REGISTER_BYTES};
use saved_load_names::load_names;
use saved_load_resources::load_resources;
use saved_load_tokens::load_tokens;
use saved_load_words::load_words;
use saved_names::{COUNT_BYTES, FIRST_RESOURCE, NAME_BYTES};
use saved_resources::RESOURCE_BYTES;
use widths::u32_to_usize;
use words::u32_at;

// How many rows were stored: of resources under all their names, and of tokens.
#[derive(Clone, Copy)]
pub struct LoadedRows {
    pub live: usize,
    pub used: usize,
}

// The count of a section, which stands at this place.
fn count_at(file: &[u8], at: u32) -> u32
    requires { at + 4 ≤ length file.now }
    ensures { result ≡ word file.now at }
{
    u32_at(file, u32_to_usize(at))
}

// Section 2: the resources, each under its lowest name. The answer is how many there are.
fn load_section_2(first: &mut Resources, form: Form, file: &[u8]) -> u32
    requires { GoodSections form file.now }
    ensures { LoadsResources form file.now first.new result }
{
    let more = REGISTER_BYTES * more_registers(form);
    let count = count_at(file, COUNT_PLACE + more);
    load_resources(first, file, HEAD_BYTES + more, u32_to_usize(count));
    count
}

// Sections 3 and 4, of which section 3's count stands at this place, after so many resources.
fn load_shared(
    first: &mut Resources,
    firsttokens: &mut Tokens,
    file: &[u8],
    at: u32,
    count: usize,
) -> LoadedRows
    requires { (count ≤ most) × ((at ≤ names_place Two most) × GoodShared (resources_of count first.old) file.now at) }
    ensures { LoadsRows (loaded_belongings Two (resources_of count first.old) file.now at) first.new firsttokens.new result }
{
    let names = count_at(file, at);
    load_names(first, count, file, at + COUNT_BYTES, u32_to_usize(names));
    let tokens_at = at + COUNT_BYTES + NAME_BYTES * names;
    let used = u32_to_usize(count_at(file, tokens_at));
    load_tokens(firsttokens, file, tokens_at + COUNT_BYTES, used);
    LoadedRows {
        live: count + u32_to_usize(names),
        used,
    }
}

// All that the device has.
fn load_belongings(
    first: &mut Resources,
    firsttokens: &mut Tokens,
    form: Form,
    file: &[u8],
) -> LoadedRows
    requires { GoodSections form file.now }
    ensures { LoadsRows (loaded_belongings form (section_2 form file.now) file.now (names_place form (word file.now (count_place form)))) first.new firsttokens.new result }
{
    let count = load_section_2(first, form, file);
    let rows = u32_to_usize(count);
    match form {
        Form::One => LoadedRows {
            live: rows,
            used: 0,
        },
        Form::Two => load_shared(
            first,
            firsttokens,
            file,
            FIRST_RESOURCE + RESOURCE_BYTES * count,
            rows,
        ),
    }
}

// Loads a device from the sections of a good file. Its resources and its tokens are those of the first tables.
pub fn load_sections(
    words: &mut Words,
    first: &mut Resources,
    firsttokens: &mut Tokens,
    form: Form,
    file: &[u8],
)
    requires { GoodSections form file.now }
    ensures { LoadsSections form file.now words.new first.new firsttokens.new }
{
    let rows = load_belongings(first, firsttokens, form, file);
    load_words(words, form, file, rows.live, rows.used);
}
