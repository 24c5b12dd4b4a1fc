// Signed numbers: a word read as one, its sign, and what a part of a side that may start before it has in common with the side.
#![tactic(auto)]

ghost use Rattle.std.specs.Prelude.{◌≡◌, ◌-◌, min, nat_abs};
ghost use Rattle.rules.specs.Layouts.{signed};
ghost use Rattle.rules.specs.StatePackets.{negative, begins as begin-of, ends as end_of_lem, common as common-of};

// The first word that is negative as a signed number, and the last.
const FIRST_NEGATIVE: u32 = 2147483648;

const LAST_WORD: u32 = 4294967295;

// A word as a signed number.
pub fn signed_of(word: u32) -> i32
    ensures { result ≡ signed word }
{
    if word < FIRST_NEGATIVE {
        return word as i32;
    }
    -1 - ((LAST_WORD - word) as i32)
}

// Whether a number is below 0.
pub fn is_negative(x: i32) -> bool
    ensures { result ≡ negative x }
{
    x < 0
}

// A number without its sign. That of the least one fits no i32.
fn size_of(x: i32) -> u32
    ensures { result ≡ nat_abs x }
{
    if is_negative(x) {
        let less = -1 - x;
        return less as u32 + 1;
    }
    x as u32
}

// Where a part that starts at `x` begins on its side: at 0 if it starts before.
pub fn begins(x: i32) -> u32
    ensures { result ≡ begin-of x }
{
    if is_negative(x) {
        return 0;
    }
    size_of(x)
}

// A number less another, or 0 where that is more.
fn less(a: u32, b: u32) -> u32
    ensures { result ≡ a - b }
{
    if a < b {
        return 0;
    }
    a - b
}

// Where such a part, so long, ends on its side.
fn ends(x: i32, long: u32) -> u64
    ensures { result ≡ end_of_lem x long }
{
    let from = size_of(x);
    if is_negative(x) {
        return less(long, from) as u64;
    }
    let end = from as u64 + long as u64;
    end
}

// The end of a part, or of its side if that is nearer.
fn nearer(end: u64, side: u32) -> u32
    ensures { result ≡ min end side }
{
    if end < side as u64 {
        return end as u32;
    }
    side
}

// How much of such a part lies on its side. Nothing wraps: the sum is that of plain integers.
pub fn common(x: i32, long: i32, side: u32) -> u32
    ensures { result ≡ common-of x (nat_abs long) side }
{
    let end = nearer(ends(x, size_of(long)), side);
    less(end, begins(x))
}
