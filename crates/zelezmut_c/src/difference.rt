// What differs between two dumps, for a host that lends both as bytes. A question's answer is the number returned, 0, 1 (there is none), 16 or
// 17; its value is in the one word lent. A walk over all packets has a cursor of two words, which the host owns.
ghost use Rattle.std.specs.Prelude.{◌≡◌};
ghost use Rattle.rules.specs.Difference.{check, parts, class_asked, next_asked, start, pair_at, next_at, onward};
ghost use Rattle.export_difference.specs.Numbers.{Says, checked_said, found_said, class_said, place_said, SaysStart, cursor_in, cursor_words, pair_words};

// Whether both are valid streams: 0, or 16 or 17 beside which of the two it is, the first if both.
#[unsafe(no_mangle)]
pub extern "C" fn zelezmut_difference_check(first: &[u8], second: &[u8], said: &mut [u64; 1]) -> u32
    ensures { Says (checked_said (check first.now second.now)) result said.new }
{
    zelezmut::difference::zelezmut_difference_check(first, second, said)
}

// The first packet index that is not equal.
#[unsafe(no_mangle)]
pub extern "C" fn zelezmut_difference_parts(first: &[u8], second: &[u8], said: &mut [u64; 1]) -> u32
    ensures { Says (found_said (parts first.now second.now)) result said.new }
{
    zelezmut::difference::zelezmut_difference_parts(first, second, said)
}

// How the packets with an index compare: equal 0, same opcode 1, other opcode 2, only in the first 3, only in the second 4, in neither 5.
#[unsafe(no_mangle)]
pub extern "C" fn zelezmut_difference_class(
    first: &[u8],
    second: &[u8],
    index: u64,
    said: &mut [u64; 1],
) -> u32
    ensures { Says (class_said (class_asked first.now second.now index)) result said.new }
{
    zelezmut::difference::zelezmut_difference_class(first, second, index, said)
}

// The next differing offset of the packets with an index, from a given one on.
#[unsafe(no_mangle)]
pub extern "C" fn zelezmut_difference_next(
    first: &[u8],
    second: &[u8],
    index: u64,
    from: u64,
    said: &mut [u64; 1],
) -> u32
    ensures { Says (found_said (next_asked first.now second.now index from)) result said.new }
{
    zelezmut::difference::zelezmut_difference_next(first, second, index, from, said)
}

// Checks both streams and puts the cursor at their first packets; a refusal leaves it.
#[unsafe(no_mangle)]
pub extern "C" fn zelezmut_difference_start(
    first: &[u8],
    second: &[u8],
    cursor: &mut [u64; 2],
    said: &mut [u64; 1],
) -> u32
    ensures { SaysStart (start first.now second.now) cursor.old result cursor.new said.new }
{
    zelezmut::difference::zelezmut_difference_start(first, second, cursor, said)
}

// The packets at the cursor, in five words: the class, place and size in the first stream, place and size in the second. The streams are not
// checked again.
#[unsafe(no_mangle)]
pub extern "C" fn zelezmut_difference_pair(
    first: &[u8],
    second: &[u8],
    cursor: &[u64; 2],
    said: &mut [u64; 5],
)
    ensures { said.new ≡ pair_words (pair_at first.now second.now (cursor_in cursor.now)) }
{
    zelezmut::difference::zelezmut_difference_pair(first, second, cursor, said);
}

// The next differing offset of the packets at the cursor, from a given one on.
#[unsafe(no_mangle)]
pub extern "C" fn zelezmut_difference_pair_next(
    first: &[u8],
    second: &[u8],
    cursor: &[u64; 2],
    from: u64,
    said: &mut [u64; 1],
) -> u32
    ensures { Says (place_said (next_at first.now second.now (cursor_in cursor.now) from)) result said.new }
{
    zelezmut::difference::zelezmut_difference_pair_next(first, second, cursor, from, said)
}

// Moves each place of the cursor behind its packet; a place without a packet stays.
#[unsafe(no_mangle)]
pub extern "C" fn zelezmut_difference_onward(first: &[u8], second: &[u8], cursor: &mut [u64; 2])
    ensures { cursor.new ≡ cursor_words (onward first.now second.now (cursor_in cursor.old)) }
{
    zelezmut::difference::zelezmut_difference_onward(first, second, cursor);
}
