// One word of each row, changed wherever it has a certain number.
#![tactic(auto)]

ghost use Rattle.std.specs.Prelude.{◌≡◌, ◌*◌, ◌≤◌, ◌<◌, length};
ghost use Rattle.rows_renaming.specs.Renaming.{word_renamed, rows_renamed};

use widths::u32_to_word;
use words::low32;

// The word at a place becomes `new`, if its lower half is `old`.
fn rename_word(rows: &mut [u64], place: usize, old: u32, new: u64)
    requires { place < length rows.old }
    ensures { rows.new ≡ word_renamed place old new rows.old }
{
    if low32(rows[place]) == old {
        rows[place] = new;
    }
}

// In each of the first `count` rows, the word `at` becomes `new`, if its lower half is `old`.
pub fn rename_rows(rows: &mut [u64], width: usize, at: usize, count: usize, old: u32, new: u32)
    requires { (at < width) × (width * count ≤ length rows.old) }
    ensures { rows.new ≡ rows_renamed width at old new count rows.old }
{
    let word = u32_to_word(new);
    for i in 0..count {
        rename_word(rows, width * i + at, old, word);
    }
}
