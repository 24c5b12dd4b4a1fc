// The words of a device: what each means, and how it is read. They are the ones that a host can lend; any words mean some device, so
// nothing is ever asked of them. What changes is set in place by the crates above; what ends a submission's work stands here.
#![tactic(auto)]

ghost use Rattle.std.specs.Prelude.{◌≡◌, ◌≤◌};
ghost use Rattle.rules.specs.Numbers.{most, most_tokens};
ghost use Rattle.run_state.specs.Views.{set_in, flag_of, count_in, token_count_in, job_in, table_in, stream_in, rested};

use rules::{Job, Stream, Table};
use words::low32;

// A device's words: its memory's length, its registers, what is in work, how many rows of each table are live, and which of the two
// tables of resources, and of tokens, is the device's.
pub type Words = [u64; 36];

pub const MEMORY: usize = 0;

pub const RING: usize = 1;

pub const RING_SIZE: usize = 2;

pub const ENABLED: usize = 3;

pub const FENCE_PAGE: usize = 4;

pub const COMPLETED: usize = 5;

// The two bits of the IRQ status.
pub const FENCED: usize = 6;

pub const FAILED: usize = 7;

pub const IRQ_ENABLE: usize = 8;

pub const ERROR_CODE: usize = 9;

pub const ERROR_FENCE: usize = 10;

pub const ERROR_COUNT: usize = 11;

pub const DOORBELL: usize = 12;

// What is in work: nothing, entries, packets; any other number waits for the host.
pub const TAG: usize = 13;

pub const NOTHING: u64 = 0;

pub const ENTRIES: u64 = 1;

pub const PACKETS: u64 = 2;

pub const WAITING: u64 = 3;

// What settling needs of the submission in work.
pub const JOB_RING: usize = 14;

pub const JOB_HEAD: usize = 15;

pub const JOB_SIGNAL: usize = 16;

pub const JOB_SILENT: usize = 17;

// The numbers kept of its table and of its stream, and the place in the stream.
pub const TABLE_GPA: usize = 18;

pub const TABLE_COUNT: usize = 19;

pub const TABLE_STRIDE: usize = 20;

pub const STREAM_GPA: usize = 21;

pub const STREAM_SIZE: usize = 22;

pub const PLACE: usize = 23;

// How many rows are live: of the entries kept, the device's resources, the submission's, and its records.
pub const KEPT: usize = 24;

pub const LIVE: usize = 25;

pub const HELD: usize = 26;

pub const MADE: usize = 27;

// Which table of resources is the device's: 0 the first, else the second.
pub const SIDE: usize = 28;

// Whether the submission in work has changed its resources, and so has the other table for its own.
pub const COPIED: usize = 29;

// Where the last error broke: it goes with the three words of the error above.
pub const ERROR_DETAIL: usize = 30;

// The handle of the target that the submission in work has set, 0 while it has none.
pub const TARGET: usize = 31;

// How many tokens were used since the last reset: by the device, and with those of the submission in work.
pub const TOKENS: usize = 32;

pub const HELD_TOKENS: usize = 33;

// Which table of tokens is the device's: 0 the first, else the second.
pub const TOKEN_SIDE: usize = 34;

// Whether the submission in work has changed a token, and so has the other table of tokens for its own.
pub const TOKENS_COPIED: usize = 35;

// A flag as a word says it: any word but 0 is set.
pub fn is_set(word: u64) -> bool
    ensures { result ≡ set_in word }
{
    word != 0
}

// A flag as a word.
pub fn flag(b: bool) -> u64
    ensures { result ≡ flag_of b }
{
    if b { 1 } else { 0 }
}

// How many rows a word says; a count above 64 is 64.
pub fn rows_in(word: u64) -> usize
    ensures { (result ≡ count_in word) × (result ≤ most) }
{
    if 64 < word {
        return 64;
    }
    word as usize
}

// How many tokens a word says; a count above 256 is 256.
pub fn tokens_in(word: u64) -> u32
    ensures { (result ≡ token_count_in word) × (result ≤ most_tokens) }
{
    if 256 < word {
        return 256;
    }
    word as u32
}

// What settling needs of the submission in work.
pub fn job_in(words: &Words) -> Job
    ensures { result ≡ job_in words.now }
{
    Job {
        ring: words[JOB_RING],
        head: low32(words[JOB_HEAD]),
        signal: words[JOB_SIGNAL],
        silent: is_set(words[JOB_SILENT]),
    }
}

// The numbers kept of its table.
pub fn table_in(words: &Words) -> Table
    ensures { result ≡ table_in words.now }
{
    Table {
        gpa: words[TABLE_GPA],
        count: low32(words[TABLE_COUNT]),
        stride: low32(words[TABLE_STRIDE]),
    }
}

// The numbers kept of its stream.
pub fn stream_in(words: &Words) -> Stream
    ensures { result ≡ stream_in words.now }
{
    Stream {
        gpa: words[STREAM_GPA],
        size: low32(words[STREAM_SIZE]),
    }
}

// Nothing is in work from now on: each word that speaks of work is 0, so that none tells of work that is over.
pub fn rest(words: &mut Words)
    ensures { words.new ≡ rested words.old }
{
    words[TAG] = NOTHING;
    words[JOB_RING] = 0;
    words[JOB_HEAD] = 0;
    words[JOB_SIGNAL] = 0;
    words[JOB_SILENT] = 0;
    words[TABLE_GPA] = 0;
    words[TABLE_COUNT] = 0;
    words[TABLE_STRIDE] = 0;
    words[STREAM_GPA] = 0;
    words[STREAM_SIZE] = 0;
    words[PLACE] = 0;
    words[KEPT] = 0;
    words[HELD] = 0;
    words[MADE] = 0;
    words[COPIED] = 0;
    words[TARGET] = 0;
    words[HELD_TOKENS] = 0;
    words[TOKENS_COPIED] = 0;
}
