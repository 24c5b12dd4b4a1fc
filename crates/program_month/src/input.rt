// The submissions of the input. Each has a head of error u32, units u32 and count u32, and then so many records: kind u32 and length u64, 12
// bytes each.
ghost use Rattle.std.specs.Prelude.{◌≡◌, ◌*◌, ◌≤◌, length};
ghost use Rattle.rules.specs.Numbers.{most};
ghost use Rattle.kept_resources.specs.Views.{records_of};
ghost use Rattle.program_month.specs.Input.{records_in};

use kept_records::{Records, push_record};
use rules::Record;
use std::io;
use std::io::{BufRead, Read};

const MOST_RECORDS: u32 = 64;

const HEAD: usize = 12;

const WIDTH: usize = 12;

// 64 records.
const LONGEST: usize = 768;

// A finished submission. Its records are the first rows of the table, and none where they are more than 64.
#[derive(Clone, Copy)]
pub struct Submission {
    pub error: u32,
    pub units: u32,
    pub count: u32,
    pub records: Records,
}

// The input ended inside a submission, or could not be read on.
#[derive(Clone, Copy)]
pub struct Cut;

impl From<io::Error> for Cut {
    fn from(_: io::Error) -> Cut {
        Cut
    }
}

// Stores the records in these bytes as rows of a table.
fn put_records(bytes: &[u8], count: usize, records: &mut Records)
    requires { (count ≤ most) × (12 * count ≤ length bytes.now) }
    ensures { records_of count records.new ≡ records_in bytes.now count }
{
    for i in 0..count {
        let at = WIDTH * i;
        push_record(
            records,
            i,
            Record {
                kind: words::u32_at(bytes, at),
                handle: 0,
                id: 0,
                gpa: 0,
                length: words::u64_at(bytes, at + 4),
            },
        );
    }
}

// Skips a number of bytes of the input.
fn skip(input: &mut impl Read, bytes: u64) -> Result<(), Cut> {
    let skipped = io::copy(&mut input.by_ref().take(bytes), &mut io::sink())?;
    if skipped == bytes { Ok(()) } else { Err(Cut) }
}

// Reads the records of a submission into rows, or skips them if they are more than 64.
fn take_records(input: &mut impl Read, count: u32) -> Result<Records, Cut> {
    let mut records: Records = [0; 320];
    if count > MOST_RECORDS {
        skip(input, u64::from(count) * 12)?;
        return Ok(records);
    }
    let n = count as usize;
    let mut bytes = [0u8; LONGEST];
    input.read_exact(&mut bytes[..WIDTH * n])?;
    put_records(&bytes, n, &mut records);
    Ok(records)
}

// Whether there is no more to read.
fn is_at_end(input: &mut impl BufRead) -> bool {
    match input.fill_buf() {
        Ok(ahead) => ahead.is_empty(),
        Err(_) => true,
    }
}

// The next submission; none at the end of the input.
pub fn next_submission(input: &mut impl BufRead) -> Result<Option<Submission>, Cut> {
    if is_at_end(input) {
        return Ok(None);
    }
    let mut head = [0u8; HEAD];
    input.read_exact(&mut head)?;
    let count = words::u32_at(&head, 8);
    Ok(Some(Submission {
        error: words::u32_at(&head, 0),
        units: words::u32_at(&head, 4),
        count,
        records: take_records(input, count)?,
    }))
}
