//! What a delivery reads of an order before it changes it. Nothing is changed.
ghost use Rattle.std.specs.Prelude.{◌≡◌, map, option_map};
ghost use Rattle.std.specs.FinMap.{get};
ghost use Rattle.oe_model.specs.Delivery.{lines_of};
ghost use Rattle.oe_store.specs.Places.{rows};
ghost use Rattle.oe_delivery.specs.Remainder.{Left, remainder_of};

use crate::remainders::{LineNumbers, Listed, Remainder};
use oe_rows::OrderKey;
use oe_store::Tables;

/// Gives OL_NUMBER of each line of an order, in their order. There are at most 15.
pub fn line_numbers(order: &OrderKey, tables: &Tables) -> LineNumbers
    ensures { result ≡ map (λ e. e.0.number) (lines_of order.now (rows tables.now).order_lines) }
{
    let mut numbers = LineNumbers::new();
    for (key, _) in tables.order_lines_of(*order) {
        let number = key.number;
        let _range = number.get();
        numbers.push(Listed::new(number));
    }
    numbers
}

/// Gives what is to be delivered of an order; none where it is absent.
pub fn remainder_of(order: &OrderKey, tables: &Tables) -> Option<Remainder>
    ensures { result
        ≡ option_map (remainder_of order.now (rows tables.now))
        (get (rows tables.now).orders order.now) }
{
    match tables.order(*order) {
        Some(row) => Some(Remainder::new(order.order, row.customer, line_numbers(order, tables))),
        None => None,
    }
}
