// Saving (02, wishes 1 and 11): a device at rest, written into a lent buffer in one of the two forms. It asks nothing of its caller; a refused
// one leaves the buffer.
#![tactic(auto)]

ghost use Rattle.std.specs.Prelude.{[]};
ghost use Rattle.rules.specs.Numbers.{most, most_tokens};
ghost use Rattle.rules.specs.declared.Form.TheVariants.{One, Two};
ghost use Rattle.saved_order.specs.Orders.{Rows, resources_listed, tokens_listed};
ghost use Rattle.saved_save.specs.Views.{resources_in, tokens_in, Writes, SavesOf, SavesWith, Saves};

use call_errors::CallError;
use kept_resources::resources::Resources;
use kept_tokens::Tokens;
use rules::Form;
use run_state::{LIVE, NOTHING, SIDE, TAG, TOKEN_SIDE, TOKENS, Words, rows_in, tokens_in};
use saved_order::tokens::{TokenOrder, order_tokens};
use saved_order::{Order, order_rows};
use saved_order_names::form::is_beyond;
use saved_order_names::keep_rows;
use saved_write::resources::RESOURCE_BYTES;
use saved_write_forms::{put_back, put_front};
use saved_write_head::head_end;
use saved_write_shared::names::NAME_BYTES;
use saved_write_shared::tokens::TOKEN_BYTES;

// The bytes of the counts of sections 3 and 4.
const COUNTS: usize = 8;

// Saves a device that form 1 has fields for, if the buffer has room.
fn save_one(words: &Words, resources: &Resources, buffer: &mut [u8]) -> Result<u32, CallError>
    ensures { Writes One words.now (resources_in words.now resources.now) [] buffer.old result buffer.new }
{
    let mut order: Order = [0; 64];
    let count = order_rows(resources, rows_in(words[LIVE]), &mut order);
    let mut firsts: Order = [0; 64];
    let kept = keep_rows(resources, &order, count, false, &mut firsts);
    let length = head_end(Form::One) + RESOURCE_BYTES * kept;
    if buffer.len() < length {
        return Err(CallError::TooShort);
    }
    put_front(buffer, words, Form::One, resources, &firsts, kept);
    Ok(length as u32)
}

// Writes form 2 of the resources and tokens of some rows, in this order, if the buffer has room.
fn write_two(
    words: &Words,
    resources: &Resources,
    order: &Order,
    count: usize,
    tokens: &Tokens,
    tokenorder: &TokenOrder,
    used: usize,
    buffer: &mut [u8],
) -> Result<u32, CallError>
    requires { Rows most order.now count × Rows most_tokens tokenorder.now used }
    ensures { Writes Two words.now (resources_listed count resources.now order.now) (tokens_listed used tokens.now tokenorder.now) buffer.old result buffer.new }
{
    let mut firsts: Order = [0; 64];
    let kept = keep_rows(resources, order, count, false, &mut firsts);
    let mut others: Order = [0; 64];
    let named = keep_rows(resources, order, count, true, &mut others);
    let at = head_end(Form::Two) + RESOURCE_BYTES * kept;
    let length = at + COUNTS + NAME_BYTES * named + TOKEN_BYTES * used;
    if buffer.len() < length {
        return Err(CallError::TooShort);
    }
    put_front(buffer, words, Form::Two, resources, &firsts, kept);
    put_back(
        buffer, at, resources, &others, named, tokens, tokenorder, used,
    );
    Ok(length as u32)
}

// Saves a device in form 2, if the buffer has room.
fn save_two(
    words: &Words,
    resources: &Resources,
    tokens: &Tokens,
    buffer: &mut [u8],
) -> Result<u32, CallError>
    ensures { Writes Two words.now (resources_in words.now resources.now) (tokens_in words.now tokens.now) buffer.old result buffer.new }
{
    let mut order: Order = [0; 64];
    let count = order_rows(resources, rows_in(words[LIVE]), &mut order);
    let mut tokenorder: TokenOrder = [0; 256];
    let used = order_tokens(tokens, tokens_in(words[TOKENS]) as usize, &mut tokenorder);
    write_two(
        words,
        resources,
        &order,
        count,
        tokens,
        &tokenorder,
        used,
        buffer,
    )
}

// Saves a device whose resources and tokens are those of a table each.
fn save_of(
    form: Form,
    words: &Words,
    resources: &Resources,
    tokens: &Tokens,
    buffer: &mut [u8],
) -> Result<u32, CallError>
    ensures { SavesOf form words.now resources.now tokens.now buffer.old result buffer.new }
{
    if words[TAG] != NOTHING {
        return Err(CallError::InWork);
    }
    match form {
        Form::One => {
            if is_beyond(words, resources) {
                return Err(CallError::NotInForm);
            }
            save_one(words, resources, buffer)
        }
        Form::Two => save_two(words, resources, tokens, buffer),
    }
}

// Saves a device whose resources are those of a table.
fn save_with(
    form: Form,
    words: &Words,
    resources: &Resources,
    firsttokens: &Tokens,
    secondtokens: &Tokens,
    buffer: &mut [u8],
) -> Result<u32, CallError>
    ensures { SavesWith form words.now resources.now firsttokens.now secondtokens.now buffer.old result buffer.new }
{
    if words[TOKEN_SIDE] == 0 {
        return save_of(form, words, resources, firsttokens, buffer);
    }
    save_of(form, words, resources, secondtokens, buffer)
}

// Saves the device that stands in the words and in its tables of resources and of tokens: how many bytes were written.
pub fn save(
    form: Form,
    words: &Words,
    first: &Resources,
    second: &Resources,
    firsttokens: &Tokens,
    secondtokens: &Tokens,
    buffer: &mut [u8],
) -> Result<u32, CallError>
    ensures { Saves form words.now first.now second.now firsttokens.now secondtokens.now buffer.old result buffer.new }
{
    if words[SIDE] == 0 {
        return save_with(form, words, first, firsttokens, secondtokens, buffer);
    }
    save_with(form, words, second, firsttokens, secondtokens, buffer)
}
