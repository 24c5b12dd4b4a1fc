// The exports for a host that is not Rattle: plain numbers, lent bytes and lent words in, numbers out.
// Each only hands its words on, so that what it promises is the promise of the crate behind it. Crate `zelezmut_c` gives them their C names.
#![tactic(auto)]

pub mod device;
pub mod difference;
pub mod dump;
pub mod month;
pub mod saved;

ghost use Rattle.std.specs.Prelude.{◌≡◌};
ghost use Rattle.rules.specs.Shapes.{packed_size};
ghost use Rattle.rules.specs.Table.{table_error, table_place};
ghost use Rattle.export_numbers.specs.Layout.{layout_number};

// For a host, before its first call: what the words and rows that it lends mean and how many there are, in one number. From the lowest digit
// up, each of 4,096: words of records, of one table of tokens, of one of resources, of entries, of numbers; above these the version, which moves
// with what they mean.
pub fn zelezmut_layout() -> u64
    ensures { result ≡ layout_number }
{
    export_numbers::layout()
}

// For the emulator's host: the bytes of a backed texture, 0 for a bad shape or pitch.
pub fn zelezmut_packed_size(
    format: u32,
    width: u32,
    height: u32,
    mips: u32,
    layers: u32,
    pitch: u32,
) -> u64
    ensures { result ≡ packed_size (record { format = format; width = width; height = height; mips = mips; layers = layers }) pitch }
{
    texture_sizes::packed_size(format, width, height, mips, layers, pitch)
}

// The first error of an allocation table that lies in the lent bytes, for a guest memory of so many bytes: 13, 19, 14 or 15 as the
// steps would find it, or 0.
pub fn zelezmut_table_error(table: &[u8], memory: u64) -> u32
    ensures { result ≡ table_error table.now memory }
{
    let fault = table_whole::whole::first_fault(table, memory);
    fault.code
}

// Where that error stands: the index of the entry for 14 and 15, else 0.
pub fn zelezmut_table_place(table: &[u8], memory: u64) -> u32
    ensures { result ≡ table_place table.now memory }
{
    let found = table_whole::whole::first_fault(table, memory);
    found.place
}
