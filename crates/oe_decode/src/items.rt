//! Items and stock read from the front of bytes, exactly where their images stand there.
ghost use Rattle.std.specs.Prelude.{◌≡◌};
ghost use Rattle.std.specs.Option.{option_map};
ghost use Rattle.std.proofs.Common.{rules};
ghost use Rattle.oe_rows.specs.Item.{IsItem, IsStock};
ghost use Rattle.oe_decode.specs.RowFronts.{item_at, stock_at};

use crate::decode::{Decode, Row};
use crate::fronts::Ranged;
use oe_rows::items::{Item, Stock};
use oe_values::BrandText;
use oe_values::numbers::Price;
use oe_values::texts::Text;

impl Row for Item {
    type Columns = (Ranged<4, 1, 200_000>, (Text<0, 24>, (Price, Text<0, 50>)));

    ghost of = { λ c. record { image = c.0; name = c.1.0; price = c.1.1.0; «data» = c.1.1.1 } };

    ghost parts = { λ r. (r.image, (r.name, (r.price, r.data))) };

    ghost ranges = { IsItem };

    ghost is_row = { Prim.search rules };

    fn of_columns(columns: Self::Columns) -> Self {
        let (image, (name, (price, data))) = columns;
        Item {
            image: image.get(),
            name,
            price,
            data: BrandText::of(data),
        }
    }
}

impl Row for Stock {
    type Columns = (
        Ranged<2, 0, 9_999>,
        (
            [Text<24, 24>; 10],
            (
                Ranged<4, 0, 99_999_999>,
                (Ranged<2, 0, 9_999>, (Ranged<2, 0, 9_999>, Text<0, 50>)),
            ),
        ),
    );

    ghost of = { λ c. record {
      quantity = c.0;
      dist_info = c.1.0;
      ytd = c.1.1.0;
      order_count = c.1.1.1.0;
      remote_count = c.1.1.1.1.0;
      «data» = c.1.1.1.1.1;
    } };

    ghost parts = { λ r.
        (r.quantity, (r.dist_info, (r.ytd, (r.order_count, (r.remote_count, r.data))))) };

    ghost ranges = { IsStock };

    ghost is_row = { Prim.search rules };

    fn of_columns(columns: Self::Columns) -> Self {
        let (quantity, (dist_info, (ytd, (order_count, (remote_count, data))))) = columns;
        Stock {
            quantity: quantity.get(),
            dist_info,
            ytd: ytd.get(),
            order_count: order_count.get(),
            remote_count: remote_count.get(),
            data: BrandText::of(data),
        }
    }
}

/// Reads the ITEM row at the front of the bytes, and those behind it.
#[tactic(auto, unfolding(crate::specs::RowFronts::item_at))]
pub fn read_item(bytes: &[u8]) -> Option<(Item, &[u8])>
    ensures { option_map (λ x. (x.0, x.1.now)) result ≡ item_at bytes.now }
{
    Item::decode(bytes)
}

/// Reads the STOCK row at the front of the bytes, and those behind it.
#[tactic(auto, unfolding(crate::specs::RowFronts::stock_at))]
pub fn read_stock(bytes: &[u8]) -> Option<(Stock, &[u8])>
    ensures { option_map (λ x. (x.0, x.1.now)) result ≡ stock_at bytes.now }
{
    Stock::decode(bytes)
}
