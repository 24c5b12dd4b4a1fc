// The sections of a saved desk, one after the other: those that both forms have, and all of form 2 (02, wish 11).
#![tactic(auto)]

ghost use Rattle.std.specs.Prelude.{◌≡◌, ◌+◌, ◌*◌, ◌≤◌, length};
ghost use Rattle.rules.specs.Numbers.{most, most_tokens};
ghost use Rattle.rules.specs.Lists.{over};
ghost use Rattle.rules.specs.Saved.{file_of, number_bytes};
ghost use Rattle.rules.specs.Loaded.{names_place};
ghost use Rattle.saved_order.specs.Orders.{Rows, resources_listed, tokens_listed};
ghost use Rattle.saved_write_forms.specs.Sections.{front_fields, back_fields};

use kept_resources::resources::Resources;
use kept_tokens::Tokens;
use rules::Form;
use run_state::Words;
use saved_order::Order;
use saved_order::tokens::TokenOrder;
use saved_write::resources::put_resources;
use saved_write_head::{head_end, put_head};
use saved_write_shared::names::{NAME_BYTES, put_name_section};
use saved_write_shared::tokens::put_token_section;

// Writes the number and sections 1 and 2 of a form.
pub fn put_front(
    buffer: &mut [u8],
    words: &Words,
    form: Form,
    resources: &Resources,
    order: &Order,
    count: usize,
)
    requires { Rows most order.now count × (number_bytes + names_place form count ≤ length buffer.old) }
    ensures { buffer.new ≡ over 0 (file_of (front_fields form words.now count (resources_listed count resources.now order.now))) buffer.old }
{
    put_head(buffer, words, form, count as u32);
    put_resources(buffer, head_end(form), resources, order, count);
}

// Writes sections 3 and 4 from a place on.
pub fn put_back(
    buffer: &mut [u8],
    at: usize,
    resources: &Resources,
    others: &Order,
    count: usize,
    tokens: &Tokens,
    order: &TokenOrder,
    used: usize,
)
    requires { Rows most others.now count × Rows most_tokens order.now used × (at + 8 + 8 * count + 12 * used ≤ length buffer.old) }
    ensures { buffer.new ≡ over at (file_of (back_fields count (resources_listed count resources.now others.now) used (tokens_listed used tokens.now order.now))) buffer.old }
{
    put_name_section(buffer, at, resources, others, count);
    put_token_section(buffer, at + 4 + NAME_BYTES * count, tokens, order, used);
}
