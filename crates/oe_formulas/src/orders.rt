//! The rows after a new order (clause 2.4.2.2), and the columns that it sets.
ghost use Rattle.std.specs.Prelude.{◌≡◌, ◌==◌, ◌≤◌, ◌+◌, ◌-◌, ◌*◌, cond, nat_le, ◌↔◌, ℕ, length, IsSome, IfSome};
ghost use Rattle.std.specs.List.{list_all};
ghost use Rattle.oe_rows.specs.Item.{with_counters};
ghost use Rattle.oe_requests.specs.declared.replies.Reply.{Reply};
ghost use Rattle.oe_requests.specs.Reply.{told_reply};
ghost use Rattle.oe_formulas.specs.Orders.{with_quantity, seen_by};
ghost use Rattle.oe_formulas.specs.Checks.{row_in_ranges, row_with, with_next_order};
ghost use Rattle.oe_model.specs.NewOrder.{stock_after, stock_of, stock_out, brand, fill, order_row, with_next, next_out, first_reads, ordered_reply};

use oe_requests::{Brand, Column, LineReplies, LineReply, NewOrderRequest, ReplyRef, RequestLine};
use oe_rows::{
    Credit, Customer, District, Item, Order, OrderLine, Stock, StockCounters, StockKey, Warehouse,
    total,
};
use oe_values::{
    Cents, Count, ItemNumber, LineAmount, LineCount, LineQuantity, OrderNumber, Quantity, Rate,
    StockYtd, Text, WarehouseNumber,
};

/// Gives D_NEXT_O_ID after a new order: it rises by 1. Else D_NEXT_O_ID, which would leave its
/// range.
pub fn next_order_after(row: &District) -> Result<OrderNumber, Column>
    ensures { row_with (with_next_order row.now) result
        ≡ row_in_ranges next_out (with_next row.now) }
{
    match OrderNumber::new(row.next_order.get() + 1) {
        Some(next_order) => Ok(next_order),
        None => Err(Column::NextOrder),
    }
}

/// Tells whether the warehouse supplies every line.
fn is_local(lines: &[RequestLine], home: WarehouseNumber) -> bool
    ensures { result ≡ list_all (λ l. l.supply == home) lines.now }
{
    lines.iter().all(|line| line.supply == home)
}

/// Gives the ORDER row of a new order: no carrier yet, and O_ALL_LOCAL where its own warehouse
/// supplies every line.
pub fn order_row(request: &NewOrderRequest) -> Order
    ensures { result ≡ order_row request.now }
{
    let lines = request.lines.as_slice();
    let line_count = match LineCount::new(lines.len() as u32) {
        Some(count) => count,
        None => unreachable!(),
    };
    Order {
        customer: request.customer,
        entry: request.stamp,
        carrier: None,
        line_count,
        all_local: is_local(lines, request.district.warehouse),
    }
}

/// Gives the key of the stock that a line asks for, where it has an item's number (clause 2.4.1.5).
pub fn stock_key(line: RequestLine) -> Option<StockKey>
    ensures variant { IsSome result ↔ (line.item ≤ 100_000) }
    ensures value { IfSome result (λ k. k ≡ stock_of line) }
{
    let item = ItemNumber::new(line.item.get())?;
    Some(StockKey {
        warehouse: line.supply,
        item,
    })
}

/// The least that a line leaves of a stock, and what comes in where it would leave less (clause
/// 2.4.2.2).
const LEAST_LEFT: u32 = 10;

const RESTOCK: u32 = 91;

/// Gives S_QUANTITY after a line of that quantity (clause 2.4.2.2).
fn quantity_after(row: &Stock, quantity: Quantity) -> Count
    ensures { result ≡ cond (nat_le (quantity + 10) row.now.quantity)
        (row.now.quantity - quantity) (row.now.quantity + 91 - quantity) }
{
    let in_stock = row.quantity.get();
    let asked = quantity.get();
    let left = if in_stock >= asked + LEAST_LEFT {
        in_stock - asked
    } else {
        in_stock + RESTOCK - asked
    };
    match Count::new(left) {
        Some(count) => count,
        None => unreachable!(),
    }
}

/// Gives S_REMOTE_CNT after a line for a district of the home warehouse: it rises by 1 where the
/// stock is another warehouse's.
fn remote_count_after(home: WarehouseNumber, key: StockKey, row: &Stock) -> u32
    ensures { result
        ≡ cond (key.warehouse == home) row.now.remote_count (row.now.remote_count + 1) }
{
    if key.warehouse == home {
        row.remote_count.get()
    } else {
        row.remote_count.get() + 1
    }
}

/// Gives the columns that a line of that quantity for a district of the home warehouse sets in the
/// stock of a key: S_QUANTITY by the stock rule, S_YTD rises by the quantity, S_ORDER_CNT by 1, and
/// S_REMOTE_CNT by 1 where the stock is another warehouse's. Else the first of S_YTD, S_ORDER_CNT
/// and S_REMOTE_CNT that would leave its range.
pub fn counters_after_line(
    home: WarehouseNumber,
    key: StockKey,
    row: &Stock,
    quantity: Quantity,
) -> Result<StockCounters, Column>
    ensures { row_with (λ n. with_counters n row.now) result
        ≡ row_in_ranges stock_out (stock_after home key row.now quantity) }
{
    let Some(ytd) = StockYtd::new(row.ytd.get() + quantity.get()) else {
        return Err(Column::StockYtd);
    };
    let Some(order_count) = Count::new(row.order_count.get() + 1) else {
        return Err(Column::OrderCount);
    };
    let Some(remote_count) = Count::new(remote_count_after(home, key, row)) else {
        return Err(Column::RemoteCount);
    };
    Ok(StockCounters {
        quantity: quantity_after(row, quantity),
        ytd,
        order_count,
        remote_count,
    })
}

/// Tells whether an item and its stock are both original.
pub fn brand(item: &Item, stock: &Stock) -> Brand
    ensures { result ≡ brand item.now stock.now }
{
    if item.data.is_original() && stock.data.is_original() {
        Brand::Original
    } else {
        Brand::Generic
    }
}

/// Gives OL_AMOUNT: the quantity times I_PRICE.
fn amount(line: RequestLine, item: &Item) -> LineAmount
    ensures { result ≡ line.quantity * item.now.price }
{
    match LineAmount::new(u64::from(line.quantity.get()) * item.price.cents()) {
        Some(amount) => amount,
        None => unreachable!(),
    }
}

/// Gives the ORDER-LINE row of a line, of its item and stock: not delivered yet, with the stock's
/// text for the district.
pub fn order_line(
    request: &NewOrderRequest,
    line: RequestLine,
    item: &Item,
    stock: &Stock,
) -> OrderLine
    requires { line.item ≤ 100_000 }
    ensures { (n : ℕ) → result ≡ (fill request.now n line item.now stock.now).row }
{
    OrderLine {
        item: ItemNumber::new(line.item.get()).unwrap(),
        supply: line.supply,
        delivery: None,
        quantity: LineQuantity::new(line.quantity.get()).unwrap(),
        amount: amount(line, item),
        dist_info: stock.district_info(request.district.district).copied(),
    }
}

/// Gives what a new order answers of a line, of its item, of its stock, and of S_QUANTITY after the
/// line.
pub fn reply_with_quantity(
    line: RequestLine,
    item: &Item,
    stock: &Stock,
    quantity: Count,
) -> LineReply
    ensures { (q : NewOrderRequest) (n : ℕ)
        → result ≡ (fill q n line item.now (with_quantity stock.now quantity)).reply }
{
    LineReply {
        brand: brand(item, stock),
        quantity,
        amount: amount(line, item),
    }
}

/// What a new order has read before its lines: O_ID, W_TAX, D_TAX, C_DISCOUNT, C_LAST and C_CREDIT.
#[derive(Drop)]
pub struct Seen {
    pub order: OrderNumber,
    pub warehouse_tax: Rate,
    pub district_tax: Rate,
    pub discount: Rate,
    pub last: Text<0, 16>,
    pub credit: Credit,
}

impl Seen {
    /// Gives what it reads in these rows, where the district's is the one before the order.
    pub fn new(warehouse: &Warehouse, district: &District, customer: &Customer) -> Self
        ensures { seen_by result ≡ first_reads warehouse.now district.now customer.now }
    {
        Seen {
            order: district.next_order,
            warehouse_tax: warehouse.tax,
            district_tax: district.tax,
            discount: customer.account.discount,
            last: customer.name.last.copied(),
            credit: customer.credit,
        }
    }

    /// Copies the value, and takes no memory.
    pub fn copied(&self) -> Self
        ensures { result ≡ self.now }
    {
        Seen {
            order: self.order,
            warehouse_tax: self.warehouse_tax,
            district_tax: self.district_tax,
            discount: self.discount,
            last: self.last.copied(),
            credit: self.credit,
        }
    }

    /// Gives the total of an order of these lines.
    fn total(&self, lines: &[LineReply]) -> Cents
        requires { length lines.now ≤ 15 }
        ensures { result ≡ (ordered_reply (seen_by self.now) lines.now).total }
    {
        let mut amounts = [LineAmount::new(0).unwrap(); 15];
        for (index, line) in lines.iter().enumerate() {
            amounts[index] = line.amount;
        }
        total(
            &amounts[..lines.len()],
            self.discount,
            self.warehouse_tax,
            self.district_tax,
        )
    }

    /// Gives what a new order answers, of the replies to its lines. C_LAST and the lines are lent
    /// where they lie.
    pub fn reply<'a>(&'a self, lines: &'a LineReplies) -> ReplyRef<'a>
        ensures { told_reply result ≡ Reply.NewOrder (ordered_reply (seen_by self.now) lines.now) }
    {
        ReplyRef::NewOrder {
            order: self.order,
            last: &self.last,
            credit: self.credit,
            total: self.total(lines.as_slice()),
            lines,
        }
    }
}
