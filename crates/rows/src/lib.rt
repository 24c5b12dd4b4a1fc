// Rows of words in a flat list: moved, copied, and counted out in a guest's table.

#![tactic(auto)]

ghost use Rattle.std.specs.Prelude.{◌≡◌, ◌+◌, ◌*◌, ◌≤◌, length, take};
ghost use Rattle.rules.specs.Lists.{over};
ghost use Rattle.rows.specs.Rows.{row_at};

// Copies a row over another: the last row takes a removed one's place.
pub fn move_row(rows: &mut [u64], width: usize, from: usize, to: usize)
    requires { (width * from + width ≤ length rows.old) × (width * to + width ≤ length rows.old) }
    ensures { rows.new ≡ over (width * to) (row_at width rows.old from) rows.old }
{
    let source = width * from;
    let target = width * to;
    for k in 0..width {
        rows[target + k] = rows[source + k];
    }
}

// Copies the first `n` words of one list over another's.
pub fn copy_words(from: &[u64], to: &mut [u64], n: usize)
    requires { (n ≤ length from.now) × (n ≤ length to.old) }
    ensures { to.new ≡ over 0 (take n from.now) to.old }
{
    for done in 0..n {
        to[done] = from[done];
    }
}

// Where row `i` of a guest's table stands, by the table's own header size and stride. Nothing wraps, and another word still fits.
pub fn row_offset(header: u32, i: u32, stride: u32) -> u64
    ensures { (result ≡ header + i * stride) × (result + 4294967296 ≤ 18446744073709551616) }
{
    header as u64 + i as u64 * stride as u64
}
