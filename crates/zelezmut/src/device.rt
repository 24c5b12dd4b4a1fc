// The device over state that the host owns: its words and its six tables. Zero or not, any words mean some device; `zelezmut_make` makes a
// new one of them. A call's values stand beside its answer in one number, or, for a record, in five words.
ghost use Rattle.run_state.specs.Views.{set_in};
ghost use Rattle.register_writes.specs.Views.{Writes};
ghost use Rattle.device_calls.specs.Views.{Makes};
ghost use Rattle.zelezmut.specs.Said.{SaysValue, SaysRun, SaysAnswer, SaysRecord};

use call_errors::answer;
use device_calls::ZERO_RECORD;
use export_numbers::{said, said_value, say_record};
use kept_entries::Entries;
use kept_records::Records;
use kept_resources::resources::Resources;
use kept_tokens::Tokens;
use run_state::{Words, is_set};
use widths::{u32_to_word, word_to_usize};

// A new device for a memory of so many bytes. Its tables may hold anything.
pub fn zelezmut_make(words: &mut Words, memory: u64)
    ensures { Makes memory words.new }
{
    device_calls::make(words, word_to_usize(memory));
}

// Writes a register: the call's answer.
pub fn zelezmut_write(words: &mut Words, offset: u32, value: u32) -> u32
    ensures { Writes words.old offset value result words.new }
{
    answer(register_writes::write(words, offset, value))
}

// Reads a register: its value, and 2^32 times the call's answer.
pub fn zelezmut_read(words: &Words, offset: u32) -> u64
    ensures { SaysValue words.now offset result }
{
    said_value(device_calls::read(words, offset))
}

// Runs over the memory lent now: the call's answer, 2^8 times how it ended (idle 0, waiting 1, paused 2) and 2^16 times the units spent.
pub fn zelezmut_run(
    words: &mut Words,
    entries: &mut Entries,
    first: &mut Resources,
    second: &mut Resources,
    firsttokens: &mut Tokens,
    secondtokens: &mut Tokens,
    records: &mut Records,
    mem: &mut [u8],
    allowance: u16,
) -> u64
    ensures { SaysRun allowance
        (record {
          words = words.old;
          entries = entries.old;
          first = first.old;
          second = second.old;
          first_tokens = firsttokens.old;
          second_tokens = secondtokens.old;
          records = records.old;
          mem = mem.old;
        })
        result
        (record {
          words = words.new;
          entries = entries.new;
          first = first.new;
          second = second.new;
          first_tokens = firsttokens.new;
          second_tokens = secondtokens.new;
          records = records.new;
          mem = mem.new;
        }) }
{
    let x = device_memory_calls::run(
        words,
        entries,
        first,
        second,
        firsttokens,
        secondtokens,
        records,
        mem,
        allowance,
    );
    said(x)
}

// Record i of the submission that waits: the call's answer, and says kind, handle, id, GPA and length.
pub fn zelezmut_record(words: &Words, records: &Records, i: u32, said: &mut [u64; 5]) -> u32
    ensures { SaysRecord words.now records.now i result said.new }
{
    let x = device_calls::record(words, records, i);
    say_record(said, x.unwrap_or(ZERO_RECORD));
    answer(x)
}

// The host's answer to what waits, 0 for failed, and at once a run over the memory lent now: said as a run says it.
pub fn zelezmut_answer(
    words: &mut Words,
    entries: &mut Entries,
    first: &mut Resources,
    second: &mut Resources,
    firsttokens: &mut Tokens,
    secondtokens: &mut Tokens,
    records: &mut Records,
    mem: &mut [u8],
    good: u32,
    allowance: u16,
) -> u64
    ensures { SaysAnswer (set_in good) allowance
        (record {
          words = words.old;
          entries = entries.old;
          first = first.old;
          second = second.old;
          first_tokens = firsttokens.old;
          second_tokens = secondtokens.old;
          records = records.old;
          mem = mem.old;
        })
        result
        (record {
          words = words.new;
          entries = entries.new;
          first = first.new;
          second = second.new;
          first_tokens = firsttokens.new;
          second_tokens = secondtokens.new;
          records = records.new;
          mem = mem.new;
        }) }
{
    let accepted = is_set(u32_to_word(good));
    let x = device_memory_calls::answer(
        words,
        entries,
        first,
        second,
        firsttokens,
        secondtokens,
        records,
        mem,
        accepted,
        allowance,
    );
    said(x)
}
