//! The rows of now or of a moment. A walk goes over the rows that stand, and asks here what each
//! key has then.
//!
//! Rows of all tables but NEW-ORDER stay where they were inserted, and a NEW-ORDER row has its
//! ORDER row at each moment. So the rows of a moment are found at the keys that have rows now,
//! NEW-ORDER rows at the keys of the orders. A HISTORY row is never changed: it is read as it
//! stands.
ghost use Rattle.std.specs.Prelude.{◌≡◌, Bool, IsTrue, Some, is_some, map, option_map};
ghost use Rattle.std.specs.FinMap.{get};
ghost use Rattle.oe_model.specs.Rows.{Rows};
ghost use Rattle.oe_model.specs.Choice.{namesakes, middle};
ghost use Rattle.oe_model.specs.Delivery.{lines_of};
ghost use Rattle.oe_model.specs.Queries.{last_order, status_line};
ghost use Rattle.oe_store.specs.Places.{Places, rows};
ghost use Rattle.oe_rows_of.specs.Columns.{next_order_of, balance_of, quantity_of, item_of};
ghost use Rattle.oe_rows_of.specs.Then.{row_then, has_row_then, AreNow, ArePassed};

use oe_requests::StatusLines;
use oe_rows::{
    Account, Customer, CustomerKey, District, DistrictKey, HistoryKey, NewOrderKey, Order,
    OrderKey, OrderLine, OrderLineKey, StockKey, Warehouse, WarehouseKey,
};
use oe_store::Tables;
use oe_values::{Balance, Count, CustomerNumber, ItemNumber, OrderNumber, Text, YearToDate};

/// The rows of the nine tables as they stand, or as they stood at a moment, without what was open
/// or committed later. No call takes memory.
pub trait RowsOf {
    /// The rows.
    ghost rows_of: { Self → Rows };

    /// The tables as they stand, whose rows are those of now.
    ghost tables_of: { Self → Places };

    /// Whether they are the rows that stand: a row at hand is then not looked up again.
    ghost are_now: { Self → Bool };

    /// That steps have led to the rows that stand, and to what is kept beside them.
    ghost Stand: { Self → Type 0 };

    /// Lends the tables as they stand.
    fn tables(&self) -> &Tables
        ensures { result.now ≡ tables_of self.now };

    /// Tells whether the rows are known to be those that stand.
    fn is_settled(&self) -> bool
        ensures { IsTrue result → rows_of self.now ≡ rows (tables_of self.now) };

    /// States that a walk of the rows that stand passes each of the rows.
    fn are_passed(&self)
        requires { Stand self.now }
        ensures { ArePassed (rows_of self.now) (rows (tables_of self.now)) };

    /// Gives W_YTD of the row that a key has then, if it has this one now.
    fn warehouse_ytd(&self, key: &WarehouseKey, row: &Warehouse) -> Option<YearToDate>
        ensures { result ≡ option_map (λ x. x.ytd)
            (row_then (are_now self.now) (rows_of self.now).warehouses key.now row.now) };

    /// Gives D_YTD of the row that a key has then, if it has this one now.
    fn district_ytd(&self, key: &DistrictKey, row: &District) -> Option<YearToDate>
        ensures { result ≡ option_map (λ x. x.ytd)
            (row_then (are_now self.now) (rows_of self.now).districts key.now row.now) };

    /// Gives D_NEXT_O_ID of the row that a key has then, if it has this one now.
    fn next_order(&self, key: &DistrictKey, row: &District) -> Option<OrderNumber>
        ensures { result ≡ option_map (λ x. x.next_order)
            (row_then (are_now self.now) (rows_of self.now).districts key.now row.now) };

    /// Gives D_NEXT_O_ID of the row that a key has then.
    fn next_order_at(&self, key: &DistrictKey) -> Option<OrderNumber>
        ensures { result ≡ next_order_of (get (rows_of self.now).districts key.now) };

    /// Gives the money and counts of the CUSTOMER row that a key has then, if it has this one now.
    fn account(&self, key: &CustomerKey, row: &Customer) -> Option<Account>
        ensures { result ≡ option_map (λ x. x.account)
            (row_then (are_now self.now) (rows_of self.now).customers key.now row.now) };

    /// Gives C_BALANCE of the row that a key has then.
    fn balance(&self, key: &CustomerKey) -> Option<Balance>
        ensures { result ≡ balance_of (get (rows_of self.now).customers key.now) };

    /// Tells whether a key has a HISTORY row then, if it has one now.
    fn has_history(&self, key: &HistoryKey) -> bool
        ensures { result
            ≡ has_row_then (are_now self.now) (rows_of self.now).histories key.now };

    /// Tells whether a key has a NEW-ORDER row then.
    fn has_new_order(&self, key: &NewOrderKey) -> bool
        ensures { result ≡ is_some (get (rows_of self.now).new_orders key.now) };

    /// Gives the ORDER row that a key has then, if it has this one now.
    fn order(&self, key: &OrderKey, row: &Order) -> Option<Order>
        ensures { result
            ≡ row_then (are_now self.now) (rows_of self.now).orders key.now row.now };

    /// Gives the ORDER row that a key has then.
    fn order_at(&self, key: &OrderKey) -> Option<Order>
        ensures { result ≡ get (rows_of self.now).orders key.now };

    /// Gives a copy of the ORDER-LINE row that a key has then, if it has this one now.
    fn order_line(&self, key: &OrderLineKey, row: &OrderLine) -> Option<OrderLine>
        ensures { result
            ≡ row_then (are_now self.now) (rows_of self.now).order_lines key.now row.now };

    /// Tells whether a key has an ORDER-LINE row then, if it has one now.
    fn has_order_line(&self, key: &OrderLineKey) -> bool
        ensures { result
            ≡ has_row_then (are_now self.now) (rows_of self.now).order_lines key.now };

    /// Gives OL_I_ID of the row that a key has then. `line` stands there: a walk over the tables
    /// lends it, so that it is not looked up again.
    fn item_at(&self, key: &OrderLineKey, line: &OrderLine) -> Option<ItemNumber>
        requires { get (rows (tables_of self.now)).order_lines key.now ≡ Some line.now }
        ensures { result ≡ item_of (get (rows_of self.now).order_lines key.now) };

    /// Gives S_QUANTITY of the row that a key has then; `now` is what its row has now. So whoever
    /// reads many stocks reads their rows first, which then wait for memory together.
    fn stock_quantity(&self, key: &StockKey, now: Option<Count>) -> Option<Count>
        requires { now ≡ quantity_of (get (rows (tables_of self.now)).stocks key.now) }
        ensures { result ≡ quantity_of (get (rows_of self.now).stocks key.now) };

    /// Gives C_ID of the customer of a district and last name in position n / 2, rounded up, of the
    /// n that there are then, by C_FIRST and if that ties by C_ID (clauses 2.5.2.2 and 2.6.2.2).
    fn customer_named(&self, district: &DistrictKey, last: &Text<0, 16>) -> Option<CustomerNumber>
        requires { Stand self.now }
        ensures { result
            ≡ middle (namesakes district.now last.now (rows_of self.now).customers) };

    /// Gives the order with the largest O_ID that a customer has then, with its key, if there is
    /// any (clause 2.6.2.2).
    fn last_order(&self, customer: CustomerKey) -> Option<(OrderKey, Order)>
        requires { Stand self.now }
        ensures { result ≡ last_order customer (rows_of self.now).orders };

    /// Answers what Order-Status says of the lines that an order has then, by OL_NUMBER (clause
    /// 2.6.3).
    fn lines(&self, order: OrderKey) -> StatusLines
        requires { Stand self.now }
        ensures { result
            ≡ map (λ e. status_line e.1) (lines_of order (rows_of self.now).order_lines) };

    ghost same: { (s : Self) → AreNow (are_now s) (rows_of s) (rows (tables_of s)) };
}
