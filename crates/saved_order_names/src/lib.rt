// Which live rows are other names of a resource, and which the lowest (02, wishes 5 and 11).
#![tactic(auto)]

pub mod form;

ghost use Rattle.std.specs.Prelude.{◌≡◌, ◌≤◌, ◌<◌};
ghost use Rattle.rules.specs.Numbers.{most};
ghost use Rattle.rules.specs.Saved.{is_other_name, other_name_among};
ghost use Rattle.rows.specs.Rows.{row_at};
ghost use Rattle.kept_resources.specs.Views.{resource_of_row, resources_of};
ghost use Rattle.saved_order.specs.Orders.{Rows};
ghost use Rattle.saved_order_names.specs.Names.{asked, Keeps};

use kept_resources::resources::{Resources, handle_at, lowest_at};
use saved_order::Order;

// Whether row i is another name of a resource.
fn is_other(resources: &Resources, i: usize) -> bool
    requires { i < most }
    ensures { result ≡ is_other_name (resource_of_row (row_at 12 resources.now i)) }
{
    handle_at(resources, i) != lowest_at(resources, i)
}

// Whether a live row is another name.
fn has_other_name(resources: &Resources, live: usize) -> bool
    requires { live ≤ most }
    ensures { result ≡ other_name_among (resources_of live resources.now) }
{
    (0..live).any(|i| is_other(resources, i))
}

// Whether row i is another name, where others are asked for, or a lowest name, where these are.
fn is_asked(resources: &Resources, i: usize, others: bool) -> bool
    requires { i < most }
    ensures { result ≡ asked others (resource_of_row (row_at 12 resources.now i)) }
{
    let other = is_other(resources, i);
    if others { other } else { !other }
}

// Those rows of an order, in that order, that are other names, or else those that are lowest names; and how many there are.
pub fn keep_rows(
    resources: &Resources,
    order: &Order,
    count: usize,
    others: bool,
    kept: &mut Order,
) -> usize
    requires { Rows most order.now count }
    ensures { Keeps others resources.now order.now count kept.new result }
{
    let mut found: usize = 0;
    for &row in &order[..count] {
        if is_asked(resources, row, others) {
            kept[found] = row;
            found += 1;
        }
    }
    found
}
