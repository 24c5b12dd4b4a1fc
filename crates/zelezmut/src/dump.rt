// The text of a dump for a host (02, wish 3): the raw stream and a buffer are lent. What is beside the call's answer is in one number with it.
ghost use Rattle.run_state.specs.Views.{set_in};
ghost use Rattle.zelezmut.specs.Said.{SaysDumped};

use call_errors::answer;
use export_numbers::beside_long;
use run_state::is_set;
use widths::u32_to_word;

// Writes the text of a dump to the front of the lent buffer: its length, and 2^56 times the call's answer. A dump of any length is read; 0 is not
// strict, any other number is. A buffer that is shorter than the text answers 6, and no byte of it is written.
pub fn zelezmut_dump(stream: &[u8], strict: u32, buffer: &mut [u8]) -> u64
    ensures { SaysDumped (set_in strict) stream.now buffer.old result buffer.new }
{
    let stops = is_set(u32_to_word(strict));
    let x = dump_listing::list_dump(stream, stops, buffer);
    beside_long(x.unwrap_or(0), answer(x))
}
