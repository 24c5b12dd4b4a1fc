// Section 4 of a saved desk of form 2, its last: the tokens, each judged after the one before it, and that no byte follows.
#![tactic(auto)]

ghost use Rattle.std.specs.Prelude.{◌≡◌, ◌||◌, ◌+◌, ◌≤◌, eqb, Ok};
ghost use Rattle.rules.specs.Numbers.{no_name, most_tokens};
ghost use Rattle.rules.specs.Lists.{lookup};
ghost use Rattle.rules.specs.Packets.{handle_of};
ghost use Rattle.saved_fields.specs.Judging.{judge_rules};
ghost use Rattle.saved_names.specs.Scan.{Standing, resources_of, furthest_name};
ghost use Rattle.rules.specs.Loaded.{may_be_shared, token_rules, tokens_rules, section_4_rules};
ghost use Rattle.saved_tokens.specs.Tokens.{seen_long, furthest_token};

use saved_fields::{field_at, must, must_be_at_most, must_be_there, must_end};
use saved_names::{COUNT_BYTES, may_be_shared};
use widths::u32_to_usize;
use words::u64_at;

// The bytes of a token, and of a number of 64 bits.
pub const TOKEN_BYTES: u32 = 12;

const LONG: usize = 8;

// At most so many tokens.
pub const MOST_SAVED_TOKENS: u32 = 256;

// The number of 64 bits at a place, 0 where it is not all there.
fn long_at(file: &[u8], at: u32) -> u64
    ensures { result ≡ seen_long file.now at }
{
    let place = u32_to_usize(at);
    if file.len() < place + LONG {
        return 0;
    }
    u64_at(file, place)
}

// Whether a token may be bound to this name: the lowest of a resource that may be shared, or none where it is spent.
fn may_be_bound(file: &[u8], count: u32, name: u32) -> bool
    requires { Standing file.now count }
    ensures { result ≡ (eqb name no_name || may_be_shared (lookup handle_of name (resources_of file.now count))) }
{
    if name == 0 {
        return true;
    }
    may_be_shared(file, count, name)
}

// The token that stands there, after the token `before`, with its name.
fn judge_token(
    sofar: Result<(), u32>,
    file: &[u8],
    count: u32,
    at: u32,
    before: u64,
) -> Result<(), u32>
    requires { Standing file.now count × (at ≤ furthest_token) }
    ensures { result ≡ judge_rules sofar (token_rules (resources_of file.now count) file.now at before) }
{
    let low = must_be_there(sofar, file, at);
    let token = long_at(file, at);
    let rising = must(low, file.len(), at + 4, before < token);
    let name = field_at(file, at + 8);
    let bound = may_be_bound(file, count, name);
    must(rising, file.len(), at + 8, bound)
}

// So many tokens, the first of which stands there.
fn judge_tokens(file: &[u8], count: u32, first: u32, n: u32) -> Result<(), u32>
    requires { Standing file.now count × ((first ≤ furthest_name + 4) × (n ≤ most_tokens)) }
    ensures { result ≡ judge_rules (Ok tt) (tokens_rules n (resources_of file.now count) file.now first 0) }
{
    let mut check = Ok(());
    let mut before: u64 = 0;
    let mut at: u32 = first;
    for _ in 0..n {
        check = judge_token(check, file, count, at, before);
        before = long_at(file, at);
        at += TOKEN_BYTES;
    }
    check
}

// Section 4, whose count stands there, after so many resources. Where it says too many tokens, nothing after that is looked at.
pub fn check_tokens(file: &[u8], count: u32, at: u32) -> Result<(), u32>
    requires { Standing file.now count × (at ≤ furthest_name) }
    ensures { result ≡ judge_rules (Ok tt) (section_4_rules (resources_of file.now count) file.now at) }
{
    let n = field_at(file, at);
    let few = must_be_at_most(Ok(()), file, at, MOST_SAVED_TOKENS);
    match few {
        Err(_) => few,
        Ok(()) => {
            let tokens = judge_tokens(file, count, at + COUNT_BYTES, n);
            must_end(tokens, file.len(), at + COUNT_BYTES + TOKEN_BYTES * n)
        }
    }
}
