// Numbers alone: the same number in another width, which changes none, and a sum held against a bound without being made.
#![tactic(auto)]

ghost use Rattle.std.specs.Prelude.{◌≡◌, ◌+◌, ◌<◌, ltb};

// A small number in a word, known to be one of four bytes.
pub fn u32_to_word(small: u32) -> u64
    ensures { (result ≡ small) × (result < 4294967296) }
{
    small as u64
}

// A length or a place as a word.
pub fn usize_to_word(at: usize) -> u64
    ensures { (result ≡ at) × (result < 18446744073709551616) }
{
    at as u64
}

// A word as a place in memory.
pub fn word_to_usize(word: u64) -> usize
    ensures { result ≡ word }
{
    word as usize
}

// A small number as a place or a length.
pub fn u32_to_usize(i: u32) -> usize
    ensures { result ≡ i }
{
    i as usize
}

// A count of units as a word.
pub fn u16_to_word(units: u16) -> u64
    ensures { result ≡ units }
{
    units as u64
}

// Whether the `n` bytes from a place on end beyond so many bytes. The sum is that of plain numbers: nothing wraps.
pub fn beyond(at: u64, n: u64, bytes: u64) -> bool
    ensures { result ≡ ltb bytes (at + n) }
{
    if n > bytes {
        return true;
    }
    at > bytes - n
}
