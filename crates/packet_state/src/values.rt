// The viewport and the clear: packets of floats, judged by their bits, that hold and record nothing.
// Neither resources nor records are lent: the contracts hold whatever they are.
ghost use Rattle.std.specs.Prelude.{◌≡◌, not, ◌||◌, ◌≤◌};
ghost use Rattle.rules.specs.Numbers.{most};
ghost use Rattle.rules.specs.Floats.{not_finite, outside as is-outside, below as is_below, float_zero};
ghost use Rattle.rules.specs.StatePackets.{bad_bounds, bad_viewport, bad_values, bad_clear};
ghost use Rattle.packet_state.specs.Values.{Views, Clears};

use floats::{below, bits_of, not_finite, outside};
use packet_ranges::applied::{Applied, refuse};
use rules::numbers::MOST_FLAGS;
use rules::{ClearValues, Refusal, SetViewport};

// The bits of 0.
const FLOAT_ZERO: u32 = 0;

// The bits of 1.
const FLOAT_ONE: u32 = 1065353216;

// The bits of infinity. Those of NaNs and of all floats with a sign are above them.
const FLOAT_INFINITY: u32 = 2139095040;

// Whether one of two floats is infinite or a NaN.
fn either_not_finite(a: u32, b: u32) -> bool
    ensures { result ≡ (not_finite a || not_finite b) }
{
    if not_finite(a) {
        return true;
    }
    not_finite(b)
}

// Whether a width or a height is no number, infinite or not above 0. One range says it: the bits of all others are between those of 0 and
// those of infinity.
fn bad_side(side: u32) -> bool
    ensures { result ≡ (not_finite side || not (is_below float_zero side)) }
{
    if side == FLOAT_ZERO {
        return true;
    }
    side >= FLOAT_INFINITY
}

// Whether a viewport's width or height is bad.
fn bad_area(width: u32, height: u32) -> bool
    ensures { result ≡ ((not_finite width || not (is_below float_zero width)) || (not_finite height || not (is_below float_zero height))) }
{
    if bad_side(width) {
        return true;
    }
    bad_side(height)
}

// Whether one of two depths is no number or outside 0 to 1, or the near one is above the far one. Two that have no sign are in order as their
// bits are.
fn bad_depths(near: u32, far: u32) -> bool
    ensures { result ≡ ((not_finite near || not_finite far) || (is_below far near || (is-outside near || is-outside far))) }
{
    if near <= far {
        if far <= FLOAT_ONE {
            return false;
        }
    }
    if either_not_finite(near, far) {
        return true;
    }
    if below(far, near) {
        return true;
    }
    if outside(near) {
        return true;
    }
    outside(far)
}

// Whether a depth is no number or outside 0 to 1.
fn bad_depth(depth: u32) -> bool
    ensures { result ≡ (not_finite depth || is-outside depth) }
{
    if depth <= FLOAT_ONE {
        return false;
    }
    if not_finite(depth) {
        return true;
    }
    outside(depth)
}

// Whether the bits of a viewport's floats are bad.
fn bad_bounds(x: u32, y: u32, width: u32, height: u32, near: u32, far: u32) -> bool
    ensures { result ≡ bad_bounds x y width height near far }
{
    if either_not_finite(x, y) {
        return true;
    }
    if bad_area(width, height) {
        return true;
    }
    bad_depths(near, far)
}

// Whether a viewport is bad.
fn bad_viewport(v: SetViewport) -> bool
    ensures { result ≡ bad_viewport v }
{
    bad_bounds(
        bits_of(v.x),
        bits_of(v.y),
        bits_of(v.width),
        bits_of(v.height),
        bits_of(v.near),
        bits_of(v.far),
    )
}

// Applies a viewport packet.
pub fn on_viewport(live: usize, made: usize, v: SetViewport) -> Applied
    requires { (live ≤ most) × (made ≤ most) }
    ensures { Views v live made result }
{
    if bad_viewport(v) {
        return refuse(Refusal::BadState, live, made);
    }
    Applied {
        verdict: Ok(()),
        live,
        made,
    }
}

// Whether the bits of a clear's values are bad.
fn bad_values(flags: u32, red: u32, green: u32, blue: u32, alpha: u32, depth: u32) -> bool
    ensures { result ≡ bad_values flags red green blue alpha depth }
{
    if either_not_finite(red, green) {
        return true;
    }
    if either_not_finite(blue, alpha) {
        return true;
    }
    if bad_depth(depth) {
        return true;
    }
    flags > MOST_FLAGS
}

// Whether a clear is bad.
fn bad_clear(c: ClearValues) -> bool
    ensures { result ≡ bad_clear c }
{
    bad_values(
        c.flags,
        bits_of(c.red),
        bits_of(c.green),
        bits_of(c.blue),
        bits_of(c.alpha),
        bits_of(c.depth),
    )
}

// Applies a clear packet.
pub fn on_clear(live: usize, made: usize, c: ClearValues) -> Applied
    requires { (live ≤ most) × (made ≤ most) }
    ensures { Clears c live made result }
{
    if bad_clear(c) {
        return refuse(Refusal::BadState, live, made);
    }
    Applied {
        verdict: Ok(()),
        live,
        made,
    }
}
