// Rows of words found by a key: the first of many that has it.
#![tactic(auto)]

ghost use Rattle.std.specs.Prelude.{◌≡◌, ℕ, ◌+◌, ◌-◌, ◌*◌, ◌%◌, ◌≤◌, ◌<◌, length, eqb, get_or};
ghost use Rattle.rules.specs.Lists.{index_of};
ghost use Rattle.rows.specs.Keys.{place_of};
ghost use Rattle.rows.specs.Rows.{table, table_from};
ghost use Rattle.rows_finding.specs.Among.{Among, key_in};

use words::low32;

// What rows are sought by: one word of each row, read as a number.
pub trait Key: Copy {
    // which word of a row it is
    ghost word: { ℕ };

    // the number that this word stands for
    ghost reading: { ℕ → ℕ };

    // the number that is sought
    ghost sought: { Self → ℕ };

    // Whether the row that begins at a place has this key.
    fn is_at(self, rows: &[u64], at: usize) -> bool
        requires { at + word < length rows.now }
        ensures { result ≡ eqb (reading (get_or rows.now (at + word) 0)) (sought self) };
}

// A number of four bytes is the low half of a row's first word.
impl Key for u32 {
    ghost word = { 0 };

    ghost reading = { λ x. x % 4294967296 };

    ghost sought = { λ k. k };

    #[inline]
    fn is_at(self, rows: &[u64], at: usize) -> bool {
        low32(rows[at]) == self
    }
}

// Whether row `i` has the key: 0 if it has, or 1.
fn of_one<K: Key>(rows: &[u64], width: usize, i: usize, key: K) -> usize
    requires { (K.word < width) × (width * (i + 1) ≤ length rows.now) }
    ensures { Among (λ x. x) (key_in K.word K.reading) (K.sought key) width rows.now i 1 result }
{
    if key.is_at(rows, width * i) {
        return 0;
    }
    1
}

// Which of two rows from `i` on has the key first, or 2.
fn of_two<K: Key>(rows: &[u64], width: usize, i: usize, key: K) -> usize
    requires { (K.word < width) × (width * (i + 2) ≤ length rows.now) }
    ensures { Among (λ x. x) (key_in K.word K.reading) (K.sought key) width rows.now i 2 result }
{
    let r = of_one(rows, width, i, key);
    if r < 1 {
        return r;
    }
    1 + of_one(rows, width, i + 1, key)
}

// Which of four rows from `i` on has the key first, or 4.
fn of_four<K: Key>(rows: &[u64], width: usize, i: usize, key: K) -> usize
    requires { (K.word < width) × (width * (i + 4) ≤ length rows.now) }
    ensures { Among (λ x. x) (key_in K.word K.reading) (K.sought key) width rows.now i 4 result }
{
    let r = of_two(rows, width, i, key);
    if r < 2 {
        return r;
    }
    2 + of_two(rows, width, i + 2, key)
}

// Which of eight rows from `i` on has the key first, or 8.
fn of_eight<K: Key>(rows: &[u64], width: usize, i: usize, key: K) -> usize
    requires { (K.word < width) × (width * (i + 8) ≤ length rows.now) }
    ensures { Among (λ x. x) (key_in K.word K.reading) (K.sought key) width rows.now i 8 result }
{
    let r = of_four(rows, width, i, key);
    if r < 4 {
        return r;
    }
    4 + of_four(rows, width, i + 4, key)
}

// The end of a scan: the key's place, or `count`. Eight rows a turn, and as many turns as are left.
fn by_eight<K: Key>(rows: &[u64], width: usize, from: usize, count: usize, key: K) -> usize
    requires { ((K.word < width) × (width * count ≤ length rows.now)) × ((from ≤ count) × ((count - from) % 8 ≡ 0)) }
    ensures { result ≡ from + index_of (key_in K.word K.reading) (K.sought key) (table_from (λ x. x) width from count rows.now) }
{
    let mut i = from;
    let place = loop {
        if i == count {
            break count;
        }
        let r = of_eight(rows, width, i, key);
        if r < 8 {
            break i + r;
        }
        i += 8;
    };
    place
}

// The index of the first of `count` rows that has a key, or `count`: a number, since an option at each row costs more than an instruction a row.
// The rows that make no eight stand in front, so that eight rows a turn need no test of how many are left.
fn scan<K: Key>(rows: &[u64], width: usize, count: usize, key: K) -> usize
    requires { (K.word < width) × (width * count ≤ length rows.now) }
    ensures { result ≡ index_of (key_in K.word K.reading) (K.sought key) (table (λ x. x) width count rows.now) }
{
    let few = count % 8;
    let mut i: usize = 0;
    let place = loop {
        if i >= few {
            break by_eight(rows, width, few, count, key);
        }
        let r = of_one(rows, width, i, key);
        if r < 1 {
            break i + r;
        }
        i += 1;
    };
    place
}

// Finds a key among the first `count` rows: the first row that has it, if one has.
#[tactic(auto, using(crate::specs::Finding::placing))]
pub fn find_row<K: Key>(rows: &[u64], width: usize, count: usize, key: K) -> Option<usize>
    requires { (K.word < width) × (width * count ≤ length rows.now) }
    ensures { result ≡ place_of (key_in K.word K.reading) (K.sought key) (table (λ x. x) width count rows.now) }
{
    let place = scan(rows, width, count, key);
    if place < count { Some(place) } else { None }
}
