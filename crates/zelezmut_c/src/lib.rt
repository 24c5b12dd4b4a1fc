// The exports under their C names, as the static library that a host links: each is the function of crate `zelezmut` with its name, and
// promises what that promises.
#![tactic(auto)]

pub mod device;
pub mod difference;
pub mod dump;
pub mod month;
pub mod saved;

ghost use Rattle.std.specs.Prelude.{◌≡◌};
ghost use Rattle.rules.specs.Shapes.{packed_size};
ghost use Rattle.rules.specs.Table.{table_error, table_place};
ghost use Rattle.export_numbers.specs.Layout.{layout_number};

// For a host, before its first call: what the words and rows that it lends mean and how many there are, in one number. From the lowest digit
// up, each of 4,096: words of records, of one table of tokens, of one of resources, of entries, of numbers; above these the version, which moves
// with what they mean.
#[unsafe(no_mangle)]
pub extern "C" fn zelezmut_layout() -> u64
    ensures { result ≡ layout_number }
{
    zelezmut::zelezmut_layout()
}

// For the emulator's host: the bytes of a backed texture, 0 for a bad shape or pitch.
#[unsafe(no_mangle)]
pub extern "C" fn zelezmut_packed_size(
    format: u32,
    width: u32,
    height: u32,
    mips: u32,
    layers: u32,
    pitch: u32,
) -> u64
    ensures { result ≡ packed_size (record { format = format; width = width; height = height; mips = mips; layers = layers }) pitch }
{
    zelezmut::zelezmut_packed_size(format, width, height, mips, layers, pitch)
}

// The first error of an allocation table that lies in the lent bytes, for a guest memory of so many bytes: 13, 19, 14 or 15 as the
// steps would find it, or 0.
#[unsafe(no_mangle)]
pub extern "C" fn zelezmut_table_error(table: &[u8], memory: u64) -> u32
    ensures { result ≡ table_error table.now memory }
{
    zelezmut::zelezmut_table_error(table, memory)
}

// Where that error stands: the index of the entry for 14 and 15, else 0.
#[unsafe(no_mangle)]
pub extern "C" fn zelezmut_table_place(table: &[u8], memory: u64) -> u32
    ensures { result ≡ table_place table.now memory }
{
    zelezmut::zelezmut_table_place(table, memory)
}
