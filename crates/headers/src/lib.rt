// What the headers of an allocation table and of a command stream share: magic, version and size, judged by the same tests.
#![tactic(auto)]

ghost use Rattle.std.specs.Prelude.{◌≡◌};
ghost use Rattle.rules.specs.Headers.{wrong_header};

use rules::numbers::{GOOD_MAJOR, MINORS};
use widths::u32_to_word;

// Whether a header is none, by its magic, version and size: `wanted` is the magic that it should have, `header` the bytes that a header
// takes, `range` those that it stands in.
pub fn wrong_header(
    wanted: u32,
    header: u64,
    range: u64,
    magic: u32,
    version: u32,
    size: u32,
) -> bool
    ensures { result ≡ wrong_header wanted header range magic version size }
{
    let bytes = u32_to_word(size);
    if range < header {
        return true;
    }
    if magic != wanted {
        return true;
    }
    if version / MINORS != GOOD_MAJOR {
        return true;
    }
    if bytes < header {
        return true;
    }
    range < bytes
}
