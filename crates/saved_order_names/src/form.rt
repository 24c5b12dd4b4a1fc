// What form 1 has no field for: tokens, other names, and an error's detail (02, wishes 5 and 9).
ghost use Rattle.saved_order_names.specs.Form.{Beyond};

use crate::has_other_name;
use kept_resources::resources::Resources;
use run_state::{ERROR_DETAIL, LIVE, TOKENS, Words, rows_in};
use words::low32;

// Whether a device has what form 1 has no field for.
pub fn is_beyond(words: &Words, resources: &Resources) -> bool
    ensures { Beyond words.now resources.now result }
{
    if words[TOKENS] != 0 {
        return true;
    }
    if low32(words[ERROR_DETAIL]) != 0 {
        return true;
    }
    has_other_name(resources, rows_in(words[LIVE]))
}
