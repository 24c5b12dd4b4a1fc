// What settling writes to guest memory: the head of the opened ring, then the fence page, and no byte more.
#![tactic(auto)]

ghost use Rattle.std.specs.Prelude.{◌≡◌, ◌≤◌, length};
ghost use Rattle.rules.specs.Lists.{over};
ghost use Rattle.rules.specs.Layouts.{page_bytes};
ghost use Rattle.rules.specs.Settle.{head_written};
ghost use Rattle.settle.specs.Settling.{page_size, page_put};

use rules::Job;
use rules::numbers::{PAGE_MAGIC, VERSION};
use widths::{beyond, usize_to_word, word_to_usize};

// Where the head stands in a ring's header, and where it ends.
const HEAD_OFFSET: usize = 24;

const HEAD_END: usize = HEAD_OFFSET + 4;

// Where the fields of the fence page stand in it. Each ends where the next one begins, and the last one at the page's end.
const MAGIC_OFFSET: usize = 0;

const VERSION_OFFSET: usize = 4;

const COMPLETED_OFFSET: usize = 8;

const PAGE_SIZE: usize = 16;

// Writes the fence page into the bytes that were lent for it.
fn put_page(page: &mut [u8], completed: u64)
    requires { page_size ≤ length page.old }
    ensures { page.new ≡ over 0 (page_bytes completed) page.old }
{
    words::stores::put_u32(&mut page[MAGIC_OFFSET..VERSION_OFFSET], PAGE_MAGIC);
    words::stores::put_u32(&mut page[VERSION_OFFSET..COMPLETED_OFFSET], VERSION);
    words::stores::put_u64(&mut page[COMPLETED_OFFSET..PAGE_SIZE], completed);
}

// Moves the head of the opened ring on by one; where the ring does not lie within memory, nothing is written.
pub fn write_head(mem: &mut [u8], job: Job)
    ensures { mem.new ≡ head_written job mem.old }
{
    let memory = usize_to_word(mem.len());
    let ring = word_to_usize(job.ring);
    let next = std::num::wrapping_add_u32(job.head, 1);
    if beyond(job.ring, HEAD_END as u64, memory) {
        return;
    }
    let at = ring + HEAD_OFFSET;
    let end = ring + HEAD_END;
    words::stores::put_u32(&mut mem[at..end], next);
}

// Writes the fence page; at 0, and where it does not lie within memory, nothing is written.
pub fn write_page(mem: &mut [u8], gpa: u64, completed: u64)
    ensures { mem.new ≡ page_put gpa completed mem.old }
{
    let memory = usize_to_word(mem.len());
    let page = word_to_usize(gpa);
    if beyond(gpa, PAGE_SIZE as u64, memory) {
        return;
    }
    if page == 0 {
        return;
    }
    let end = page + PAGE_SIZE;
    put_page(&mut mem[page..end], completed);
}

// The head, then the page, with the completed fence as it now is.
pub fn mark(mem: &mut [u8], job: Job, gpa: u64, completed: u64)
    ensures { mem.new ≡ page_put gpa completed (head_written job mem.old) }
{
    write_head(mem, job);
    write_page(mem, gpa, completed);
}
