//! The order of claims that an option names.

ghost use Rattle.std.specs.Prelude.{◌≡◌};
ghost use Rattle.clap.specs.Words.{found_of, rows_of};
ghost use Rattle.tool_words.specs.Orders.{order_found, order_said};

use clap::ArgMatches;
use tree_core::Order;

/// The order where `--order` isn't given.
pub const ORDER: Order = Order::Deepest;

/// The order that was given, the default where none was, or none where the value names no order.
pub(crate) fn read_order(found: &ArgMatches<'_>) -> Option<Order>
    ensures { result ≡ order_found (rows_of (found_of found.now)) }
{
    match found.get_str("order") {
        Some(value) => read_name(value),
        None => Some(ORDER),
    }
}

/// The order of this name.
fn read_name(name: &str) -> Option<Order>
    ensures { result ≡ order_said name.now }
{
    if name == "deepest" {
        Some(Order::Deepest)
    } else if name == "oldest" {
        Some(Order::Oldest)
    } else if name == "mixed" {
        Some(Order::Mixed)
    } else {
        None
    }
}
