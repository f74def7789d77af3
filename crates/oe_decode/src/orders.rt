//! Histories, orders and lines read from the front of bytes, exactly where their images stand
//! there.
ghost use Rattle.std.specs.Prelude.{◌≡◌};
ghost use Rattle.std.specs.Option.{option_map};
ghost use Rattle.std.proofs.Common.{rules};
ghost use Rattle.oe_rows.specs.History.{IsHistory};
ghost use Rattle.oe_rows.specs.Order.{IsOrder, IsOrderLine};
ghost use Rattle.oe_decode.specs.RowFronts.{history_at, order_at, order_line_at};

use crate::decode::{Decode, Row};
use crate::fronts::{Ranged, number_or_none};
use oe_rows::histories::History;
use oe_rows::orders::{Order, OrderLine};
use oe_rows::{CustomerKey, DistrictKey};
use oe_values::numbers::LineAmount;
use oe_values::stamps::Stamp;
use oe_values::texts::Text;

impl Row for History {
    type Columns = (
        (
            Ranged<2, 1, 3_000>,
            (Ranged<1, 1, 10>, (Ranged<2, 1, 16>, Ranged<1, 1, 10>)),
        ),
        (Ranged<2, 1, 16>, (Stamp, (LineAmount, Text<0, 24>))),
    );

    ghost of = { λ c. record {
      customer = record { warehouse = c.0.1.1.0; district = c.0.1.0; customer = c.0.0 };
      district = record { warehouse = c.1.0; district = c.0.1.1.1 };
      date = c.1.1.0;
      amount = c.1.1.1.0;
      «data» = c.1.1.1.1;
    } };

    ghost parts = { λ r. (
      (
        r.customer.customer,
        (
          r.customer.district,
          (r.customer.warehouse, r.district.district),
        ),
      ),
      (r.district.warehouse, (r.date, (r.amount, r.data))),
    ) };

    ghost ranges = { IsHistory };

    ghost is_row = { Prim.search rules };

    fn of_columns(columns: Self::Columns) -> Self {
        let ((number, (of_district, (of_warehouse, district))), (warehouse, rest)) = columns;
        let (date, (amount, data)) = rest;
        History {
            customer: CustomerKey {
                warehouse: of_warehouse.get(),
                district: of_district.get(),
                customer: number.get(),
            },
            district: DistrictKey {
                warehouse: warehouse.get(),
                district: district.get(),
            },
            date,
            amount,
            data,
        }
    }
}

impl Row for Order {
    type Columns = (
        Ranged<2, 1, 3_000>,
        (Stamp, (Option<Ranged<1, 1, 10>>, (Ranged<1, 5, 15>, bool))),
    );

    ghost of = { λ c. record {
      customer = c.0;
      entry = c.1.0;
      carrier = c.1.1.0;
      line_count = c.1.1.1.0;
      all_local = c.1.1.1.1;
    } };

    ghost parts = { λ r. (r.customer, (r.entry, (r.carrier, (r.line_count, r.all_local)))) };

    ghost ranges = { IsOrder };

    ghost is_row = { Prim.search rules };

    fn of_columns(columns: Self::Columns) -> Self {
        let (customer, (entry, (carrier, (line_count, all_local)))) = columns;
        Order {
            customer: customer.get(),
            entry,
            carrier: number_or_none(carrier),
            line_count: line_count.get(),
            all_local,
        }
    }
}

impl Row for OrderLine {
    type Columns = (
        Ranged<4, 1, 100_000>,
        (
            Ranged<2, 1, 16>,
            (
                Option<Stamp>,
                (Ranged<1, 0, 99>, (LineAmount, Text<24, 24>)),
            ),
        ),
    );

    ghost of = { λ c. record {
      item = c.0;
      supply = c.1.0;
      delivery = c.1.1.0;
      quantity = c.1.1.1.0;
      amount = c.1.1.1.1.0;
      dist_info = c.1.1.1.1.1;
    } };

    ghost parts = { λ r.
        (r.item, (r.supply, (r.delivery, (r.quantity, (r.amount, r.dist_info))))) };

    ghost ranges = { IsOrderLine };

    ghost is_row = { Prim.search rules };

    fn of_columns(columns: Self::Columns) -> Self {
        let (item, (supply, (delivery, (quantity, (amount, dist_info))))) = columns;
        OrderLine {
            item: item.get(),
            supply: supply.get(),
            delivery,
            quantity: quantity.get(),
            amount,
            dist_info,
        }
    }
}

/// Reads the HISTORY row at the front of the bytes, and those behind it.
#[tactic(auto, unfolding(crate::specs::RowFronts::history_at))]
pub fn read_history(bytes: &[u8]) -> Option<(History, &[u8])>
    ensures { option_map (λ x. (x.0, x.1.now)) result ≡ history_at bytes.now }
{
    History::decode(bytes)
}

/// Reads the ORDER row at the front of the bytes, and those behind it.
#[tactic(auto, unfolding(crate::specs::RowFronts::order_at))]
pub fn read_order(bytes: &[u8]) -> Option<(Order, &[u8])>
    ensures { option_map (λ x. (x.0, x.1.now)) result ≡ order_at bytes.now }
{
    Order::decode(bytes)
}

/// Reads the ORDER-LINE row at the front of the bytes, and those behind it.
#[tactic(auto, unfolding(crate::specs::RowFronts::order_line_at))]
pub fn read_order_line(bytes: &[u8]) -> Option<(OrderLine, &[u8])>
    ensures { option_map (λ x. (x.0, x.1.now)) result ≡ order_line_at bytes.now }
{
    OrderLine::decode(bytes)
}
