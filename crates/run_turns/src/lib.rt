// A turn of a phase on the device's words: the entries, or the packets, for as long as the allowance lets; packets at most up to one that needs
// tokens, and with it.
// What each packet passes is inlined, so that its enums stay in registers.
#![tactic(auto)]

ghost use Rattle.std.specs.Prelude.{◌≡◌, ◌<◌};
ghost use Rattle.rules.specs.Stream.{stream_bytes};
ghost use Rattle.packet_ranges.specs.Views.{RowsExist};
ghost use Rattle.run_entries.specs.declared.ending.Ending.TheVariants.{Going};
ghost use Rattle.run_packets.specs.Playing.{PacketsRan};
ghost use Rattle.run_state.specs.Views.{tag_in, stream_in};
ghost use Rattle.run_turns.specs.Views.{HeldIn, PlaysWords, PlaysShared, EntriesTurn, PacketsTurn};

use kept_entries::Entries;
use kept_records::Records;
use kept_resources::resources::Resources;
use kept_tokens::Tokens;
use packet_held::held::Held;
use rules::Stream;
use run_after_phase::{land_entries, land_packets};
use run_entries::ending::Ending;
use run_entries::entries::read_entries;
use run_packets::{PacketsPlace, PacketsRun, read_packets};
use run_shared::share;
use run_state::{
    COPIED, HELD, KEPT, MADE, PLACE, STREAM_SIZE, TARGET, Words, is_set, rows_in, stream_in,
    table_in,
};
use widths::{u32_to_usize, word_to_usize};
use words::low32;

// The stream's own part of the memory lent now.
fn stream_part(mem: &[u8], s: Stream) -> &[u8]
    ensures { result.now ≡ stream_bytes mem.now s }
{
    let end = mem.len();
    let from = word_to_usize(s.gpa);
    let size = u32_to_usize(s.size);
    if from > end {
        return &mem[end..end];
    }
    if size > end - from {
        return &mem[from..end];
    }
    let to = from + size;
    &mem[from..to]
}

// The phase of packets over the memory lent now.
#[inline(always)]
fn play(
    mem: &[u8],
    stream: Stream,
    entries: &Entries,
    kept: usize,
    resources: &Resources,
    own: &mut Resources,
    records: &mut Records,
    from: PacketsPlace,
    left: u16,
) -> PacketsRun
    requires { RowsExist kept from.held.live from.held.made × (from.ending ≡ Going) }
    ensures { PacketsRan (stream_bytes mem.now stream) stream.size kept
        (record { entries = entries.now; resources = resources.now; own = own.old; records = records.old })
        from left result
        (record { entries = entries.now; resources = resources.now; own = own.new; records = records.new }) }
{
    let part = stream_part(mem, stream);
    let end = u32_to_usize(stream.size);
    read_packets(
        part, end, entries, kept, resources, own, records, from, left,
    )
}

// A turn of the phase of entries: the units it spent.
pub fn entries_turn(words: &mut Words, mem: &mut [u8], entries: &mut Entries, left: u16) -> u16
    requires { (tag_in words.old ≡ 1) × (0 < left) }
    ensures { EntriesTurn words.old left mem.old entries.old result words.new
        mem.new entries.new }
{
    let table = table_in(words);
    let kept = rows_in(words[KEPT]);
    let run = read_entries(mem, table, entries, kept, left);
    let p = run.place;
    land_entries(words, p, mem);
    run.units
}

// What the submission holds but its tokens, by the device's words.
fn held_in(words: &Words) -> Held
    ensures { HeldIn words.now result }
{
    Held {
        live: rows_in(words[HELD]),
        made: rows_in(words[MADE]),
        copied: is_set(words[COPIED]),
        target: low32(words[TARGET]),
    }
}

// The phase of packets from where the words have it.
#[inline(always)]
fn play_words(
    words: &Words,
    mem: &[u8],
    entries: &Entries,
    resources: &Resources,
    own: &mut Resources,
    records: &mut Records,
    left: u16,
) -> PacketsRun
    ensures { PlaysWords words.now left mem.now
        (record { entries = entries.now; resources = resources.now; own = own.old; records = records.old }) result
        (record { entries = entries.now; resources = resources.now; own = own.new; records = records.new }) }
{
    let stream = stream_in(words);
    let kept = rows_in(words[KEPT]);
    let from = PacketsPlace {
        at: word_to_usize(words[PLACE]),
        held: held_in(words),
        ending: Ending::Going,
    };
    play(
        mem, stream, entries, kept, resources, own, records, from, left,
    )
}

// Where the stream in the words ends.
fn stream_end(words: &Words) -> usize
    ensures { result ≡ (stream_in words.now).size }
{
    u32_to_usize(low32(words[STREAM_SIZE]))
}

// Where the packets stand after some units, and how many those were.
#[derive(Drop)]
struct Played {
    place: PacketsPlace,
    units: u16,
}

// The phase of packets, and the packet at which it was left, if it was.
#[inline(always)]
fn play_shared(
    words: &mut Words,
    mem: &[u8],
    entries: &Entries,
    resources: &Resources,
    own: &mut Resources,
    firsttokens: &mut Tokens,
    secondtokens: &mut Tokens,
    records: &mut Records,
    left: u16,
) -> Played
    requires { 0 < left }
    ensures { PlaysShared words.old left mem.now
        (record { entries = entries.now; resources = resources.now; own = own.old; first_tokens = firsttokens.old; second_tokens = secondtokens.old; records = records.old })
        result.place result.units words.new
        (record { entries = entries.now; resources = resources.now; own = own.new; first_tokens = firsttokens.new; second_tokens = secondtokens.new; records = records.new }) }
{
    let run = play_words(words, mem, entries, resources, own, records, left);
    let place = run.place;
    let units = run.units;
    match run.left {
        None => Played { place, units },
        Some(rest) => {
            let end = stream_end(words);
            let after = share(
                words,
                end,
                resources,
                own,
                firsttokens,
                secondtokens,
                place,
                rest,
            );
            Played {
                place: after,
                units,
            }
        }
    }
}

// A turn of the phase of packets, at most up to one that needs tokens and with it: the units it spent.
#[inline(always)]
pub fn packets_turn(
    words: &mut Words,
    mem: &mut [u8],
    entries: &Entries,
    resources: &Resources,
    own: &mut Resources,
    firsttokens: &mut Tokens,
    secondtokens: &mut Tokens,
    records: &mut Records,
    left: u16,
) -> u16
    requires { (tag_in words.old ≡ 2) × (0 < left) }
    ensures { PacketsTurn words.old left mem.old
        (record { entries = entries.now; resources = resources.now; own = own.old; first_tokens = firsttokens.old; second_tokens = secondtokens.old; records = records.old })
        result words.new mem.new
        (record { entries = entries.now; resources = resources.now; own = own.new; first_tokens = firsttokens.new; second_tokens = secondtokens.new; records = records.new }) }
{
    let played = play_shared(
        words,
        mem,
        entries,
        resources,
        own,
        firsttokens,
        secondtokens,
        records,
        left,
    );
    let p = played.place;
    land_packets(words, p, mem);
    played.units
}
