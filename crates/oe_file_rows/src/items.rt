//! Items, and their stock.
ghost use Rattle.std.specs.Prelude.{◌≡◌, map};
ghost use Rattle.oe_file_rows.specs.Line.{read_as, row_as, columns, group_columns, ReadsRow};
ghost use Rattle.oe_file_rows.specs.Value as says;
ghost use Rattle.oe_file_rows.specs.Rows.{ten_forms, item_forms, item_values, stock_forms, stock_values};

use crate::fields::Fields;
use crate::forms::LineFault;
use oe_rows::{Item, ItemKey, Stock, StockKey};
use oe_values::{BrandText, Text};

/// Reads all columns of an ITEM row.
fn item(fields: &mut Fields<'_>) -> Result<(ItemKey, Item), LineFault>
    ensures { row_as item_values result ≡ group_columns item_forms fields.old }
{
    let item = fields.column()?;
    let image = fields.column()?;
    let name = fields.column()?;
    let price = fields.column()?;
    let data = fields.column()?;
    fields.end()?;
    let row = Item {
        image,
        name,
        price,
        data: BrandText::of(data),
    };
    Ok((ItemKey { item }, row))
}

/// Reads S_DIST_01 to S_DIST_10.
fn dist_infos(fields: &mut Fields<'_>) -> Result<[Text<24, 24>; 10], LineFault>
    ensures { read_as (λ ts. map (λ t. says.Text t) ts) fields.new result
        ≡ columns ten_forms fields.old }
{
    let first = fields.column()?;
    let second = fields.column()?;
    let third = fields.column()?;
    let fourth = fields.column()?;
    let fifth = fields.column()?;
    let sixth = fields.column()?;
    let seventh = fields.column()?;
    let eighth = fields.column()?;
    let ninth = fields.column()?;
    let tenth = fields.column()?;
    Ok([
        first, second, third, fourth, fifth, sixth, seventh, eighth, ninth, tenth,
    ])
}

/// Reads all columns of a STOCK row.
fn stock(fields: &mut Fields<'_>) -> Result<(StockKey, Stock), LineFault>
    ensures { row_as stock_values result ≡ group_columns stock_forms fields.old }
{
    let warehouse = fields.column()?;
    let item = fields.column()?;
    let quantity = fields.column()?;
    let dist_info = dist_infos(fields)?;
    let ytd = fields.column()?;
    let order_count = fields.column()?;
    let remote_count = fields.column()?;
    let data = fields.column()?;
    fields.end()?;
    let row = Stock {
        quantity,
        dist_info,
        ytd,
        order_count,
        remote_count,
        data: BrandText::of(data),
    };
    Ok((StockKey { warehouse, item }, row))
}

/// Reads the ITEM row that the line spells, and its key. The line stands without its end.
pub fn read_item(line: &[u8]) -> Result<(ItemKey, Item), LineFault>
    ensures { ReadsRow 0 item_forms item_values line.now result }
{
    item(&mut Fields::of(line, 0))
}

/// Reads the STOCK row that the line spells, and its key. The line stands without its end.
pub fn read_stock(line: &[u8]) -> Result<(StockKey, Stock), LineFault>
    ensures { ReadsRow 0 stock_forms stock_values line.now result }
{
    stock(&mut Fields::of(line, 0))
}
