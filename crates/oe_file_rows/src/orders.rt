//! Orders, their lines, and the orders not yet delivered.
ghost use Rattle.std.specs.Prelude.{◌≡◌};
ghost use Rattle.oe_rows.specs.declared.keys.Key.TheVariants as kind;
ghost use Rattle.oe_file_rows.specs.Line.{read_as, row_as, columns, group_columns, ReadsRow};
ghost use Rattle.oe_file_rows.specs.Rows.{key_values, order_key_forms, order_line_key_forms, new_order_forms, new_order_values, order_forms, order_values, order_line_forms, order_line_values};

use crate::fields::Fields;
use crate::forms::LineFault;
use oe_rows::{NewOrder, NewOrderKey, Order, OrderKey, OrderLine, OrderLineKey};

/// Reads NO_W_ID, NO_D_ID and NO_O_ID, which are all columns of a NEW-ORDER row.
fn new_order(fields: &mut Fields<'_>) -> Result<(NewOrderKey, NewOrder), LineFault>
    ensures { row_as new_order_values result ≡ group_columns new_order_forms fields.old }
{
    let warehouse = fields.column()?;
    let district = fields.column()?;
    let order = fields.column()?;
    fields.end()?;
    let key = NewOrderKey {
        warehouse,
        district,
        order,
    };
    Ok((key, NewOrder))
}

/// Reads O_W_ID, O_D_ID and O_ID.
fn order_key(fields: &mut Fields<'_>) -> Result<OrderKey, LineFault>
    ensures { read_as (λ k. key_values (kind.Order k)) fields.new result
        ≡ columns order_key_forms fields.old }
{
    let warehouse = fields.column()?;
    let district = fields.column()?;
    let order = fields.column()?;
    Ok(OrderKey {
        warehouse,
        district,
        order,
    })
}

/// Reads all columns of an ORDER row.
fn order(fields: &mut Fields<'_>) -> Result<(OrderKey, Order), LineFault>
    ensures { row_as order_values result ≡ group_columns order_forms fields.old }
{
    let key = order_key(fields)?;
    let customer = fields.column()?;
    let entry = fields.column()?;
    let carrier = fields.column()?;
    let line_count = fields.column()?;
    let all_local = fields.column()?;
    fields.end()?;
    let row = Order {
        customer,
        entry,
        carrier,
        line_count,
        all_local,
    };
    Ok((key, row))
}

/// Reads OL_W_ID, OL_D_ID, OL_O_ID and OL_NUMBER.
fn order_line_key(fields: &mut Fields<'_>) -> Result<OrderLineKey, LineFault>
    ensures { read_as (λ k. key_values (kind.OrderLine k)) fields.new result
        ≡ columns order_line_key_forms fields.old }
{
    let warehouse = fields.column()?;
    let district = fields.column()?;
    let order = fields.column()?;
    let number = fields.column()?;
    Ok(OrderLineKey {
        warehouse,
        district,
        order,
        number,
    })
}

/// Reads all columns of an ORDER-LINE row.
fn order_line(fields: &mut Fields<'_>) -> Result<(OrderLineKey, OrderLine), LineFault>
    ensures { row_as order_line_values result ≡ group_columns order_line_forms fields.old }
{
    let key = order_line_key(fields)?;
    let item = fields.column()?;
    let supply = fields.column()?;
    let delivery = fields.column()?;
    let quantity = fields.column()?;
    let amount = fields.column()?;
    let dist_info = fields.column()?;
    fields.end()?;
    let row = OrderLine {
        item,
        supply,
        delivery,
        quantity,
        amount,
        dist_info,
    };
    Ok((key, row))
}

/// Reads the NEW-ORDER row that the line spells, and its key. The line stands without its end.
pub fn read_new_order(line: &[u8]) -> Result<(NewOrderKey, NewOrder), LineFault>
    ensures { ReadsRow 0 new_order_forms new_order_values line.now result }
{
    new_order(&mut Fields::of(line, 0))
}

/// Reads the ORDER row that the line spells, and its key. The line stands without its end.
pub fn read_order(line: &[u8]) -> Result<(OrderKey, Order), LineFault>
    ensures { ReadsRow 0 order_forms order_values line.now result }
{
    order(&mut Fields::of(line, 0))
}

/// Reads the ORDER-LINE row that the line spells, and its key. The line stands without its end.
pub fn read_order_line(line: &[u8]) -> Result<(OrderLineKey, OrderLine), LineFault>
    ensures { ReadsRow 0 order_line_forms order_line_values line.now result }
{
    order_line(&mut Fields::of(line, 0))
}
