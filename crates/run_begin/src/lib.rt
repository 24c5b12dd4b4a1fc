// How a submission begins, on the device's words: with its first entry, its first packet, or waiting for the host. Its resources are the
// device's until it changes one.
#![tactic(auto)]

ghost use Rattle.std.specs.Prelude.{◌≤◌};
ghost use Rattle.rules.specs.Numbers.{most};
ghost use Rattle.run_begin.specs.Views.{Begins, StoresJob, StoresOpened, Starts};

use rules::numbers::STREAM_HEADER_SIZE;
use rules::{Job, Opened};
use run_state::{
    COPIED, ENTRIES, HELD, HELD_TOKENS, JOB_HEAD, JOB_RING, JOB_SIGNAL, JOB_SILENT, KEPT, LIVE,
    MADE, PACKETS, PLACE, STREAM_GPA, STREAM_SIZE, TABLE_COUNT, TABLE_GPA, TABLE_STRIDE, TAG,
    TARGET, TOKENS, TOKENS_COPIED, WAITING, Words, flag,
};
use widths::{u32_to_word, usize_to_word};
use words::low32;

// The packets come next, after so many entries: the submission holds the device's resources and tokens and no record, and has no target. Of its table no
// word is left, and of its stream none where no packet comes.
pub fn begin_packets(words: &mut Words, kept: usize)
    requires { kept ≤ most }
    ensures { Begins words.old kept words.new }
{
    let live = words[LIVE];
    let used = words[TOKENS];
    let size = low32(words[STREAM_SIZE]);
    let n = usize_to_word(kept);
    let all = &words[..];
    words[TABLE_GPA] = 0;
    words[TABLE_COUNT] = 0;
    words[TABLE_STRIDE] = 0;
    words[KEPT] = n;
    words[HELD] = live;
    words[MADE] = 0;
    words[COPIED] = 0;
    words[TARGET] = 0;
    words[HELD_TOKENS] = used;
    words[TOKENS_COPIED] = 0;
    if STREAM_HEADER_SIZE < size {
        words[PLACE] = STREAM_HEADER_SIZE as u64;
        words[TAG] = PACKETS;
        return;
    }
    words[STREAM_GPA] = 0;
    words[STREAM_SIZE] = 0;
    words[PLACE] = 0;
    words[TAG] = WAITING;
}

// What settling needs of a submission, kept from its opening on.
pub fn store_job(words: &mut Words, job: Job)
    ensures { StoresJob words.old job words.new }
{
    let head = u32_to_word(job.head);
    let silent = flag(job.silent);
    let all = &words[..];
    words[JOB_RING] = job.ring;
    words[JOB_HEAD] = head;
    words[JOB_SIGNAL] = job.signal;
    words[JOB_SILENT] = silent;
}

// The numbers of what was opened; its entries come next.
fn store_opened(words: &mut Words, o: Opened)
    ensures { StoresOpened words.old o words.new }
{
    let job = o.job;
    let table = o.table;
    let stream = o.stream;
    let n = u32_to_word(table.count);
    let stride = u32_to_word(table.stride);
    let size = u32_to_word(stream.size);
    store_job(words, job);
    let all = &words[..];
    words[TAG] = ENTRIES;
    words[TABLE_GPA] = table.gpa;
    words[TABLE_COUNT] = n;
    words[TABLE_STRIDE] = stride;
    words[STREAM_GPA] = stream.gpa;
    words[STREAM_SIZE] = size;
    words[KEPT] = 0;
}

// A submission that was opened: its first entry comes next, or its packets.
pub fn start(words: &mut Words, o: Opened)
    ensures { Starts words.old o words.new }
{
    let table = o.table;
    store_opened(words, o);
    if table.count == 0 {
        begin_packets(words, 0);
    }
}
