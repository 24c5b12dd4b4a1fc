// What saving writes (02, wishes 1 and 11): fields of four bytes, one after the other, each by one store.
#![tactic(auto)]

pub mod resources;

ghost use Rattle.std.specs.Prelude.{◌≡◌, ◌+◌, ◌*◌, ◌≤◌, length};
ghost use Rattle.rules.specs.Lists.{over};
ghost use Rattle.rules.specs.Saved.{file_of};

use words::stores::put_u32;

// The bytes of a field.
const FIELD: usize = 4;

// Writes some fields from a place on.
pub fn put_fields(buffer: &mut [u8], at: usize, fields: &[u32])
    requires { at + 4 * length fields.now ≤ length buffer.old }
    ensures { buffer.new ≡ over at (file_of fields.now) buffer.old }
{
    for (i, field) in fields.iter().enumerate() {
        let start = at + FIELD * i;
        let end = start + FIELD;
        put_u32(&mut buffer[start..end], *field);
    }
}
