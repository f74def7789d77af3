//! Columns of rows as they stood at a moment. Of a row nothing else is handed out.
ghost use Rattle.std.specs.Prelude.{◌≡◌};
ghost use Rattle.std.specs.FinMap.{get};
ghost use Rattle.oe_store.specs.Places.{rows};
ghost use Rattle.oe_versions.specs.Versions.{rows_of};
ghost use Rattle.oe_rows_of.specs.Columns.{ytd_of_warehouse, ytd_of_district, next_order_of, balance_of, account_of, quantity_of};

use crate::moments::Version;
use oe_rows::{Account, CustomerKey, DistrictKey, Key, Row, StockKey, WarehouseKey};
use oe_values::{Balance, Count, OrderNumber, YearToDate};

// Each of these takes the column from a copy of the row, on which the key's records are put back.
// They are apart from the reads of what stands, which would clear the room of a row.
impl<'a> Version<'a> {
    /// Gives W_YTD of a warehouse, if it was there, by the row with its records put back.
    #[inline(never)]
    fn warehouse_ytd_before(&self, key: &WarehouseKey) -> Option<YearToDate>
        ensures { result ≡ ytd_of_warehouse (get (rows_of self.now).warehouses key.now) }
    {
        match self.row(&Key::Warehouse(*key)) {
            Some(Row::Warehouse(row)) => Some(row.ytd),
            _ => None,
        }
    }

    /// Gives D_YTD of a district, if it was there, by the row with its records put back.
    #[inline(never)]
    fn district_ytd_before(&self, key: &DistrictKey) -> Option<YearToDate>
        ensures { result ≡ ytd_of_district (get (rows_of self.now).districts key.now) }
    {
        match self.row(&Key::District(*key)) {
            Some(Row::District(row)) => Some(row.ytd),
            _ => None,
        }
    }

    /// Gives D_NEXT_O_ID of a district, if it was there, by the row with its records put back.
    #[inline(never)]
    fn next_order_before(&self, key: &DistrictKey) -> Option<OrderNumber>
        ensures { result ≡ next_order_of (get (rows_of self.now).districts key.now) }
    {
        match self.row(&Key::District(*key)) {
            Some(Row::District(row)) => Some(row.next_order),
            _ => None,
        }
    }

    /// Gives C_BALANCE of a customer, if it was there, by the row with its records put back.
    #[inline(never)]
    fn balance_before(&self, key: &CustomerKey) -> Option<Balance>
        ensures { result ≡ balance_of (get (rows_of self.now).customers key.now) }
    {
        match self.row(&Key::Customer(*key)) {
            Some(Row::Customer(row)) => Some(row.account.balance),
            _ => None,
        }
    }

    /// Gives C_BALANCE, C_YTD_PAYMENT and the other money and counts of a customer, if it was
    /// there, by the row with its records put back.
    #[inline(never)]
    fn account_before(&self, key: &CustomerKey) -> Option<Account>
        ensures { result ≡ account_of (get (rows_of self.now).customers key.now) }
    {
        match self.row(&Key::Customer(*key)) {
            Some(Row::Customer(row)) => Some(row.account),
            _ => None,
        }
    }

    /// Gives S_QUANTITY of a stock, if it was there, by the row with its records put back.
    #[inline(never)]
    fn quantity_before(&self, key: &StockKey) -> Option<Count>
        ensures { result ≡ quantity_of (get (rows_of self.now).stocks key.now) }
    {
        match self.row(&Key::Stock(*key)) {
            Some(Row::Stock(row)) => Some(row.quantity),
            _ => None,
        }
    }
}

impl<'a> Version<'a> {
    /// Gives W_YTD of a warehouse, if it was there.
    pub fn warehouse_ytd(&self, key: &WarehouseKey) -> Option<YearToDate>
        ensures { result ≡ ytd_of_warehouse (get (rows_of self.now).warehouses key.now) }
    {
        if self.stands(&Key::Warehouse(*key)) {
            return Some(self.tables().warehouse(*key)?.ytd);
        }
        self.warehouse_ytd_before(key)
    }

    /// Gives D_YTD of a district, if it was there.
    pub fn district_ytd(&self, key: &DistrictKey) -> Option<YearToDate>
        ensures { result ≡ ytd_of_district (get (rows_of self.now).districts key.now) }
    {
        if self.stands(&Key::District(*key)) {
            return Some(self.tables().district(*key)?.ytd);
        }
        self.district_ytd_before(key)
    }

    /// Gives D_NEXT_O_ID of a district, if it was there.
    pub fn next_order(&self, key: &DistrictKey) -> Option<OrderNumber>
        ensures { result ≡ next_order_of (get (rows_of self.now).districts key.now) }
    {
        if self.stands(&Key::District(*key)) {
            return Some(self.tables().district(*key)?.next_order);
        }
        self.next_order_before(key)
    }

    /// Gives C_BALANCE of a customer, if it was there.
    pub fn balance(&self, key: &CustomerKey) -> Option<Balance>
        ensures { result ≡ balance_of (get (rows_of self.now).customers key.now) }
    {
        if self.stands(&Key::Customer(*key)) {
            return Some(self.tables().customer(*key)?.account.balance);
        }
        self.balance_before(key)
    }

    /// Gives C_BALANCE, C_YTD_PAYMENT and the other money and counts of a customer, if it was
    /// there.
    pub fn customer_account(&self, key: &CustomerKey) -> Option<Account>
        ensures { result ≡ account_of (get (rows_of self.now).customers key.now) }
    {
        if self.stands(&Key::Customer(*key)) {
            return Some(self.tables().customer(*key)?.account);
        }
        self.account_before(key)
    }

    /// Gives S_QUANTITY of a stock, if it was there; `now` is what its row has now. So whoever
    /// reads many stocks reads their rows first, which then wait for memory together.
    pub fn stock_quantity(&self, key: &StockKey, now: Option<Count>) -> Option<Count>
        requires { now ≡ quantity_of (get (rows self.now.tables).stocks key.now) }
        ensures { result ≡ quantity_of (get (rows_of self.now).stocks key.now) }
    {
        if self.stands(&Key::Stock(*key)) {
            return now;
        }
        self.quantity_before(key)
    }
}
