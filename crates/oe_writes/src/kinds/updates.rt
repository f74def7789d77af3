//! Updates, which have no column that they do not set, so that they are short.
ghost use Rattle.oe_rows.specs.declared.layouts.Layout.{Layout};
ghost use Rattle.oe_change.specs.declared.writes.Write.TheVariants as writes;
ghost use Rattle.oe_writes.specs.Kinds.{is_rename};

use crate::columns::{
    bad_credit, carrier, customer_account, customer_names, delivery_date, district_ytd, next_order,
    stock_counters, warehouse_ytd,
};
use crate::kinds::{OneWrite, PlainWrite};
use crate::lending::{customer, district, order, order_line, stock, warehouse};
use crate::settings::set_names;
use oe_layout::LentRecord;
use oe_requests::Refusal;
use oe_rows::customers::Account;
use oe_rows::items::StockCounters;
use oe_rows::{
    CustomerKey, DistrictKey, Key, Layout, OrderKey, OrderLineKey, StockKey, WarehouseKey,
};
use oe_store::Tables;
use oe_values::{Carrier, OrderNumber, Stamp, Text, YearToDate};

/// Sets W_YTD of a warehouse.
#[derive(Drop)]
pub struct WarehouseYtd {
    pub warehouse: WarehouseKey,
    pub ytd: YearToDate,
}

impl PlainWrite for WarehouseYtd {
    ghost plain = { λ w. writes.WarehouseYtd w.warehouse w.ytd };

    #[inline(always)]
    fn key(&self) -> Key {
        Key::Warehouse(self.warehouse)
    }

    #[inline(always)]
    fn lend<'a>(&'a self, tables: &'a Tables, layout: Layout) -> Option<LentRecord<'a>> {
        match layout {
            Layout::WholeRows => warehouse(tables, &self.warehouse),
            Layout::ChangedColumns => warehouse_ytd(tables, &self.warehouse, self.ytd),
        }
    }

    #[inline(always)]
    fn set(&self, tables: &mut Tables) -> Result<(), Refusal> {
        tables.set_warehouse_ytd(&self.warehouse, self.ytd);
        Ok(())
    }

    ghost is_plain = { λ w. tt };
}

/// Sets D_YTD of a district.
#[derive(Drop)]
pub struct DistrictYtd {
    pub district: DistrictKey,
    pub ytd: YearToDate,
}

impl PlainWrite for DistrictYtd {
    ghost plain = { λ w. writes.DistrictYtd w.district w.ytd };

    #[inline(always)]
    fn key(&self) -> Key {
        Key::District(self.district)
    }

    #[inline(always)]
    fn lend<'a>(&'a self, tables: &'a Tables, layout: Layout) -> Option<LentRecord<'a>> {
        match layout {
            Layout::WholeRows => district(tables, &self.district),
            Layout::ChangedColumns => district_ytd(tables, &self.district, self.ytd),
        }
    }

    #[inline(always)]
    fn set(&self, tables: &mut Tables) -> Result<(), Refusal> {
        tables.set_district_ytd(&self.district, self.ytd);
        Ok(())
    }

    ghost is_plain = { λ w. tt };
}

/// Sets D_NEXT_O_ID of a district.
#[derive(Drop)]
pub struct NextOrder {
    pub district: DistrictKey,
    pub order: OrderNumber,
}

impl PlainWrite for NextOrder {
    ghost plain = { λ w. writes.NextOrder w.district w.order };

    #[inline(always)]
    fn key(&self) -> Key {
        Key::District(self.district)
    }

    #[inline(always)]
    fn lend<'a>(&'a self, tables: &'a Tables, layout: Layout) -> Option<LentRecord<'a>> {
        match layout {
            Layout::WholeRows => district(tables, &self.district),
            Layout::ChangedColumns => next_order(tables, &self.district, self.order),
        }
    }

    #[inline(always)]
    fn set(&self, tables: &mut Tables) -> Result<(), Refusal> {
        tables.set_next_order(&self.district, self.order);
        Ok(())
    }

    ghost is_plain = { λ w. tt };
}

/// Sets the account of a customer.
#[derive(Drop)]
pub struct CustomerAccount {
    pub customer: CustomerKey,
    pub account: Account,
}

impl PlainWrite for CustomerAccount {
    ghost plain = { λ w. writes.CustomerAccount w.customer w.account };

    #[inline(always)]
    fn key(&self) -> Key {
        Key::Customer(self.customer)
    }

    #[inline(always)]
    fn lend<'a>(&'a self, tables: &'a Tables, layout: Layout) -> Option<LentRecord<'a>> {
        match layout {
            Layout::WholeRows => customer(tables, &self.customer),
            Layout::ChangedColumns => customer_account(tables, &self.customer, &self.account),
        }
    }

    #[inline(always)]
    fn set(&self, tables: &mut Tables) -> Result<(), Refusal> {
        tables.set_account(&self.customer, &self.account);
        Ok(())
    }

    ghost is_plain = { λ w. tt };
}

/// Sets the account of a customer with bad credit, and puts an entry before C_DATA.
#[derive(Drop)]
pub struct BadCredit {
    pub customer: CustomerKey,
    pub account: Account,
    pub entry: Text<0, 90>,
}

impl PlainWrite for BadCredit {
    ghost plain = { λ w. writes.BadCredit w.customer w.account w.entry };

    #[inline(always)]
    fn key(&self) -> Key {
        Key::Customer(self.customer)
    }

    #[inline(always)]
    fn lend<'a>(&'a self, tables: &'a Tables, layout: Layout) -> Option<LentRecord<'a>> {
        match layout {
            Layout::WholeRows => customer(tables, &self.customer),
            Layout::ChangedColumns => bad_credit(
                tables,
                &self.customer,
                &self.account,
                &self.entry,
            ),
        }
    }

    #[inline(always)]
    fn set(&self, tables: &mut Tables) -> Result<(), Refusal> {
        tables.set_bad_credit(&self.customer, &self.account, &self.entry);
        Ok(())
    }

    ghost is_plain = { λ w. tt };
}

/// Sets C_LAST and C_FIRST of a customer.
#[derive(Drop)]
pub struct CustomerNames {
    pub customer: CustomerKey,
    pub last: Text<0, 16>,
    pub first: Text<0, 16>,
}

impl OneWrite for CustomerNames {
    ghost write = { λ w. writes.CustomerNames w.customer w.last w.first };

    #[inline(always)]
    fn key(&self) -> Key {
        Key::Customer(self.customer)
    }

    #[inline(always)]
    fn is_rename(&self) -> bool {
        true
    }

    #[inline(always)]
    fn lend<'a>(&'a self, tables: &'a Tables, layout: Layout) -> Option<LentRecord<'a>> {
        match layout {
            Layout::WholeRows => customer(tables, &self.customer),
            Layout::ChangedColumns => customer_names(
                tables,
                &self.customer,
                &self.last,
                &self.first,
            ),
        }
    }

    #[inline(always)]
    fn set(&self, tables: &mut Tables) -> Result<(), Refusal> {
        set_names(tables, &self.customer, &self.last, &self.first)
    }

    #[inline(always)]
    fn unplaced(&self, _tables: &Tables) -> Refusal {
        Refusal::NoSuchRow(Key::Customer(self.customer))
    }
}

/// Sets S_QUANTITY, S_YTD, S_ORDER_CNT and S_REMOTE_CNT of a stock row.
#[derive(Drop)]
pub struct StockCounts {
    pub stock: StockKey,
    pub counters: StockCounters,
}

impl PlainWrite for StockCounts {
    ghost plain = { λ w. writes.StockCounters w.stock w.counters };

    #[inline(always)]
    fn key(&self) -> Key {
        Key::Stock(self.stock)
    }

    #[inline(always)]
    fn lend<'a>(&'a self, tables: &'a Tables, layout: Layout) -> Option<LentRecord<'a>> {
        match layout {
            Layout::WholeRows => stock(tables, &self.stock),
            Layout::ChangedColumns => stock_counters(tables, &self.stock, &self.counters),
        }
    }

    #[inline(always)]
    fn set(&self, tables: &mut Tables) -> Result<(), Refusal> {
        tables.set_counters(&self.stock, &self.counters);
        Ok(())
    }

    ghost is_plain = { λ w. tt };
}

/// Sets O_CARRIER_ID of an order.
#[derive(Drop)]
pub struct OrderCarrier {
    pub order: OrderKey,
    pub carrier: Carrier,
}

impl PlainWrite for OrderCarrier {
    ghost plain = { λ w. writes.Carrier w.order w.carrier };

    #[inline(always)]
    fn key(&self) -> Key {
        Key::Order(self.order)
    }

    #[inline(always)]
    fn lend<'a>(&'a self, tables: &'a Tables, layout: Layout) -> Option<LentRecord<'a>> {
        match layout {
            Layout::WholeRows => order(tables, &self.order),
            Layout::ChangedColumns => carrier(tables, &self.order, self.carrier),
        }
    }

    #[inline(always)]
    fn set(&self, tables: &mut Tables) -> Result<(), Refusal> {
        tables.set_carrier(&self.order, self.carrier);
        Ok(())
    }

    ghost is_plain = { λ w. tt };
}

/// Sets OL_DELIVERY_D of an order's line.
#[derive(Drop)]
pub struct DeliveryDate {
    pub line: OrderLineKey,
    pub stamp: Stamp,
}

impl PlainWrite for DeliveryDate {
    ghost plain = { λ w. writes.DeliveryDate w.line w.stamp };

    #[inline(always)]
    fn key(&self) -> Key {
        Key::OrderLine(self.line)
    }

    #[inline(always)]
    fn lend<'a>(&'a self, tables: &'a Tables, layout: Layout) -> Option<LentRecord<'a>> {
        match layout {
            Layout::WholeRows => order_line(tables, &self.line),
            Layout::ChangedColumns => delivery_date(tables, &self.line, self.stamp),
        }
    }

    #[inline(always)]
    fn set(&self, tables: &mut Tables) -> Result<(), Refusal> {
        tables.schema_holds();
        tables.set_delivery(&self.line, self.stamp);
        Ok(())
    }

    ghost is_plain = { λ w. tt };
}
