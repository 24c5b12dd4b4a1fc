// Floats by their bits: which bits are no number's, which of two floats is below the other, and the way from bits to a float and back.
#![tactic(auto)]

ghost use Rattle.std.specs.Prelude.{◌≡◌, false};
ghost use Rattle.rules.specs.Floats.{float_of, bits_of, is_nan_bits, not_finite, key, below as is_below, outside as is-outside};

// The highest bit: the sign.
const SIGN_BIT: u32 = 2147483648;

// The bits of an infinity without a sign: an exponent of ones, no fraction.
const INFINITY: u32 = 2139095040;

// The bits of a NaN that stand for all of them.
const NAN: u32 = 2143289344;

// The bits of 0 and of 1.
const FLOAT_ZERO: u32 = 0;

const FLOAT_ONE: u32 = 1065353216;

// Whether bits are a NaN's.
pub fn is_nan(bits: u32) -> bool
    ensures { result ≡ is_nan_bits bits }
{
    INFINITY < bits % SIGN_BIT
}

// Whether bits are an infinity's or a NaN's.
pub fn not_finite(bits: u32) -> bool
    ensures { result ≡ not_finite bits }
{
    INFINITY <= bits % SIGN_BIT
}

// A number that grows with the float: both zeros are in the middle, floats with a sign below it.
fn key(bits: u32) -> u32
    ensures { result ≡ key bits }
{
    if bits < SIGN_BIT {
        return SIGN_BIT + bits;
    }
    SIGN_BIT - (bits - SIGN_BIT)
}

// Whether the float of bits `a` is below that of bits `b`; -0 is equal to 0.
pub fn below(a: u32, b: u32) -> bool
    ensures { result ≡ is_below a b }
{
    key(a) < key(b)
}

// Whether the float of these bits is below 0 or above 1.
pub fn outside(bits: u32) -> bool
    ensures { result ≡ is-outside bits }
{
    if below(bits, FLOAT_ZERO) {
        return true;
    }
    below(FLOAT_ONE, bits)
}

// The float of some bits, which are no NaN's.
pub fn float_of(bits: u32) -> f32
    requires { is_nan_bits bits ≡ false }
    ensures { result ≡ float_of bits }
{
    f32::from_bits(bits)
}

// The bits of a float; those of a NaN are `NAN`.
pub fn bits_of(x: f32) -> u32
    ensures { result ≡ bits_of x }
{
    if x != x {
        return NAN;
    }
    f32::to_bits(x)
}
