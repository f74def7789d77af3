//! What the stages of a New-Order read, and what they come to (clause 2.4.2.2).
//!
//! A look answers the columns that its stage needs, or the refusal of a row that is absent or of a
//! column that would leave its range. Nothing is changed or kept.
ghost use Rattle.std.specs.Prelude.{◌≡◌};
ghost use Rattle.oe_store.specs.Places.{rows};
ghost use Rattle.oe_model.specs.Positions.{NewOrderCustomer};
ghost use Rattle.oe_neworder.specs.Looks.{ReadsTax, TakesNumber, Sees, IsSupply};

use crate::fillings::Filled;
use oe_formulas::orders::{
    Seen, counters_after_line, next_order_after, order_line, reply_with_quantity, stock_key,
};
use oe_requests::{NewOrderRequest, Refusal, RequestLine};
use oe_rows::{Key, StockCounters, StockKey};
use oe_store::Tables;
use oe_values::{LineNumber, OrderNumber, Rate};

/// Gives W_TAX. `NoSuchRow` where the warehouse is absent.
pub fn warehouse_tax(request: &NewOrderRequest, tables: &Tables) -> Result<Rate, Refusal>
    ensures { ReadsTax request.now (rows tables.now) result }
{
    let key = &request.district.warehouse_key();
    match tables.warehouse(*key) {
        Some(row) => Ok(row.tax),
        None => Err(Refusal::NoSuchRow(Key::Warehouse(*key))),
    }
}

/// The number that an order gets, D_NEXT_O_ID after it, and D_TAX.
#[derive(Clone, Copy)]
pub struct Numbered {
    pub order: OrderNumber,
    pub next: OrderNumber,
    pub tax: Rate,
}

/// Gives the order's number. `NoSuchRow` where the district is absent, `Overflow` where D_NEXT_O_ID
/// would leave its range.
pub fn next_number(request: &NewOrderRequest, tables: &Tables) -> Result<Numbered, Refusal>
    ensures { TakesNumber request.now (rows tables.now) result }
{
    let Some(row) = tables.district(request.district) else {
        return Err(Refusal::NoSuchRow(Key::District(request.district)));
    };
    match next_order_after(row) {
        Ok(next) => Ok(Numbered {
            order: row.next_order,
            next,
            tax: row.tax,
        }),
        Err(column) => Err(Refusal::Overflow(column)),
    }
}

/// Gives what an order has read once it has read its customer; none where the customer is absent.
pub fn seen(
    request: &NewOrderRequest,
    order: OrderNumber,
    warehouse_tax: Rate,
    district_tax: Rate,
    tables: &Tables,
) -> Option<Seen>
    ensures { Sees request.now (rows tables.now)
        (NewOrderCustomer order warehouse_tax district_tax) result }
{
    match tables.customer(request.district.customer(request.customer)) {
        Some(row) => Some(Seen {
            order,
            warehouse_tax,
            district_tax,
            discount: row.account.discount,
            last: row.name.last.copied(),
            credit: row.credit,
        }),
        None => None,
    }
}

/// What the stock row of a line comes to.
#[derive(Drop)]
pub enum Supply {
    /// The item is unused.
    Unused,
    /// It asks for the stock's lock and fails.
    Fails(StockKey, Refusal),
    /// It sets the stock's counters, and the line is filled.
    Fills(StockKey, StockCounters, Filled),
}

/// Gives what the stock row of a request's line with that number comes to. `NoSuchRow` where the
/// warehouse has no such stock, `Overflow` where S_YTD, S_ORDER_CNT or S_REMOTE_CNT would leave its
/// range: the first of them.
pub fn supply_of(
    request: &NewOrderRequest,
    line: &RequestLine,
    number: LineNumber,
    tables: &Tables,
) -> Supply
    ensures { IsSupply request.now (rows tables.now) line.now number result }
{
    let Some(key) = stock_key(*line) else {
        return Supply::Unused;
    };
    let key = &key;
    let Some(item) = tables.item(key.item_key()) else {
        return Supply::Unused;
    };
    let Some(stock) = tables.stock(*key) else {
        return Supply::Fails(*key, Refusal::NoSuchRow(Key::Stock(*key)));
    };
    match counters_after_line(request.district.warehouse, *key, stock, line.quantity) {
        Err(column) => Supply::Fails(*key, Refusal::Overflow(column)),
        Ok(counters) => {
            let filled = Filled {
                number,
                row: order_line(request, *line, item, stock),
                reply: reply_with_quantity(*line, item, stock, counters.quantity),
            };
            Supply::Fills(*key, counters, filled)
        }
    }
}
