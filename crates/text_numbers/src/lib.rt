// Numbers as text, written into a lent buffer from a place on: what the lines of a program are made of.
#![tactic(auto)]

ghost use Rattle.std.specs.Prelude.{◌≡◌, ◌+◌, ◌≤◌, ◌<◌, length};
ghost use Rattle.rules.specs.Text.{digit as digit-of, hex_digit as hex-digit-of, decimal, hex};
ghost use Rattle.text_numbers.specs.Writing.{Puts};

// The digit of a number below 10.
fn digit(d: u64) -> u8
    requires { d < 10 }
    ensures { result ≡ digit-of d }
{
    b'0' + d as u8
}

// The digit of a number below 16, in lower case.
fn hex_digit(d: u64) -> u8
    requires { d < 16 }
    ensures { result ≡ hex-digit-of d }
{
    if d < 10 {
        b'0' + d as u8
    } else {
        b'a' - 10 + d as u8
    }
}

// How many digits a number below 10000 has.
fn few_digits(n: u64) -> usize
    requires { n < 10000 }
    ensures { result ≡ length (decimal n) }
{
    match n {
        0..10 => 1,
        10..100 => 2,
        100..1000 => 3,
        _ => 4,
    }
}

// How many digits a number has.
fn digits(n: u64) -> usize
    ensures { result ≡ length (decimal n) }
{
    match n {
        0..10_000 => few_digits(n),
        10_000..100_000_000 => 4 + few_digits(n / 10_000),
        100_000_000..1_000_000_000_000 => 8 + few_digits(n / 100_000_000),
        1_000_000_000_000..10_000_000_000_000_000 => 12 + few_digits(n / 1_000_000_000_000),
        _ => 16 + few_digits(n / 10_000_000_000_000_000),
    }
}

// Writes the decimal digits of a number, the last one first, and gives the place behind them.
pub fn put_decimal(out: &mut [u8], at: usize, n: u64) -> usize
    requires { at + length (decimal n) ≤ length out.old }
    ensures { Puts at (decimal n) out.old result out.new }
{
    let count = digits(n);
    let mut rest = n;
    for i in (0..count).rev() {
        out[at + i] = digit(rest % 10);
        rest /= 10;
    }
    at + count
}

// Writes the last `count` hexadecimal digits of a number, the last one first, and gives the place behind them.
pub fn put_hex(out: &mut [u8], at: usize, count: usize, n: u64) -> usize
    requires { at + count ≤ length out.old }
    ensures { Puts at (hex count n) out.old result out.new }
{
    let mut rest = n;
    for i in (0..count).rev() {
        out[at + i] = hex_digit(rest % 16);
        rest /= 16;
    }
    at + count
}
