//! Columns that transactions write, set in their rows' places. Each column is in its range by type,
//! and none is part of a key or refers to another row. Only another C_LAST takes memory, since
//! customers are found by it; where that is refused the tables are as before.
ghost use Rattle.std.specs.Prelude.{◌≡◌, Some, IsSome, OnOk, OnErr};
ghost use Rattle.std.specs.FinMap.{get};
ghost use Rattle.oe_rows.specs.Credit.{with_entry};
ghost use Rattle.oe_rows.specs.Item.{with_counters};
ghost use Rattle.oe_rows.specs.declared.warehouses.Warehouse.{Warehouse};
ghost use Rattle.oe_rows.specs.declared.districts.District.{District};
ghost use Rattle.oe_rows.specs.declared.customers.Customer.{Customer};
ghost use Rattle.oe_rows.specs.declared.orders.Order.{Order};
ghost use Rattle.oe_rows.specs.declared.orders.OrderLine.{OrderLine};
ghost use Rattle.oe_rows.specs.declared.items.Stock.{Stock};
ghost use Rattle.oe_index.specs.Listed.{HasOtherName};
ghost use Rattle.oe_model.specs.Rename.{with_names};
ghost use Rattle.oe_model.specs.Changes.{rows_after, UpdateWarehouse, UpdateDistrict, UpdateCustomer, UpdateOrder, UpdateOrderLine, UpdateStock};
ghost use Rattle.oe_model.specs.Keys.{district_of_customer};
ghost use Rattle.oe_index.specs.Numbers.{list_number};
ghost use Rattle.oe_store.specs.Names.{SameNames, ListsName};
ghost use Rattle.oe_store.specs.Places.{rows, SamePlaces};

use crate::tables::Tables;
use oe_rows::{
    Account, CustomerKey, DistrictKey, OrderKey, OrderLineKey, StockCounters, StockKey,
    WarehouseKey,
};
use oe_values::{Carrier, NoMemory, OrderNumber, Stamp, Text, YearToDate};

impl Tables {
    /// Sets W_YTD of the WAREHOUSE row of a key.
    pub fn set_warehouse_ytd(&mut self, key: &WarehouseKey, ytd: YearToDate)
        requires { IsSome (get (rows self.old).warehouses key.now) }
        ensures rows { (w : Warehouse) → get (rows self.old).warehouses key.now ≡ Some w
            → rows self.new ≡ rows_after (UpdateWarehouse key.now (record w { ytd = ytd }))
            (rows self.old) }
        ensures places { SamePlaces self.old self.new }
        ensures names { SameNames self.old self.new }
    {
        let warehouse = self.warehouses.row_mut(key).unwrap();
        warehouse.ytd = ytd;
    }

    /// Sets D_YTD of the DISTRICT row of a key.
    pub fn set_district_ytd(&mut self, key: &DistrictKey, ytd: YearToDate)
        requires { IsSome (get (rows self.old).districts key.now) }
        ensures rows { (d : District) → get (rows self.old).districts key.now ≡ Some d
            → rows self.new ≡ rows_after (UpdateDistrict key.now (record d { ytd = ytd }))
            (rows self.old) }
        ensures places { SamePlaces self.old self.new }
        ensures names { SameNames self.old self.new }
    {
        let district = self.districts.row_mut(key).unwrap();
        district.ytd = ytd;
    }

    /// Sets D_NEXT_O_ID of the DISTRICT row of a key.
    pub fn set_next_order(&mut self, key: &DistrictKey, order: OrderNumber)
        requires { IsSome (get (rows self.old).districts key.now) }
        ensures rows { (d : District) → get (rows self.old).districts key.now ≡ Some d
            → rows self.new ≡ rows_after (UpdateDistrict key.now (record d { next_order = order }))
            (rows self.old) }
        ensures places { SamePlaces self.old self.new }
        ensures names { SameNames self.old self.new }
    {
        let district = self.districts.row_mut(key).unwrap();
        district.next_order = order;
    }

    /// Sets the account of the CUSTOMER row of a key.
    pub fn set_account(&mut self, key: &CustomerKey, account: &Account)
        requires { IsSome (get (rows self.old).customers key.now) }
        ensures rows { (c : Customer) → get (rows self.old).customers key.now ≡ Some c
            → rows self.new ≡ rows_after
            (UpdateCustomer key.now (record c { account = account.now }))
            (rows self.old) }
        ensures places { SamePlaces self.old self.new }
        ensures names { SameNames self.old self.new }
    {
        self.customers.set_account(key, account);
    }

    /// Sets the account of the CUSTOMER row of a key, and puts an entry before C_DATA, where what
    /// passes 500 bytes is discarded (clause 2.5.2.2).
    pub fn set_bad_credit(&mut self, key: &CustomerKey, account: &Account, entry: &Text<0, 90>)
        requires { IsSome (get (rows self.old).customers key.now) }
        ensures rows { (c : Customer) → get (rows self.old).customers key.now ≡ Some c
            → rows self.new ≡ rows_after
            (UpdateCustomer key.now (with_entry account.now entry.now c))
            (rows self.old) }
        ensures places { SamePlaces self.old self.new }
        ensures names { SameNames self.old self.new }
    {
        self.customers.set_bad_credit(key, account, entry);
    }

    /// Sets C_LAST and C_FIRST of the CUSTOMER row of a key. `NoMemory` comes only where C_LAST is
    /// another; the tables are then as before.
    pub fn set_customer_names(
        &mut self,
        key: &CustomerKey,
        last: &Text<0, 16>,
        first: &Text<0, 16>,
    ) -> Result<(), NoMemory>
        requires { IsSome (get (rows self.old).customers key.now) }
        ensures rows { OnOk result
            ((c : Customer) → get (rows self.old).customers key.now ≡ Some c → rows self.new
            ≡ rows_after (UpdateCustomer key.now (with_names last.now first.now c))
            (rows self.old)) }
        ensures places { SamePlaces self.old self.new }
        ensures names { OnOk result (ListsName self.old self.new
            (list_number (district_of_customer key.now) last.now) key.now) }
        ensures renamed { OnErr result
            (HasOtherName last.now (get (rows self.old).customers key.now)) }
        ensures err { OnErr result (self.new ≡ self.old) }
    {
        self.customers.set_names(key, last, first)
    }

    /// Sets O_CARRIER_ID of the ORDER row of a key.
    pub fn set_carrier(&mut self, key: &OrderKey, carrier: Carrier)
        requires { IsSome (get (rows self.old).orders key.now) }
        ensures rows { (o : Order) → get (rows self.old).orders key.now ≡ Some o → rows self.new
            ≡ rows_after (UpdateOrder key.now (record o { carrier = Some carrier }))
            (rows self.old) }
        ensures places { SamePlaces self.old self.new }
        ensures names { SameNames self.old self.new }
    {
        self.orders.set_carrier(key, carrier);
    }

    /// Sets OL_DELIVERY_D of the ORDER-LINE row of a key.
    pub fn set_delivery(&mut self, key: &OrderLineKey, stamp: Stamp)
        requires { IsSome (get (rows self.old).order_lines key.now) }
        ensures rows { (l : OrderLine) → get (rows self.old).order_lines key.now ≡ Some l
            → rows self.new ≡ rows_after
            (UpdateOrderLine key.now (record l { delivery = Some stamp }))
            (rows self.old) }
        ensures places { SamePlaces self.old self.new }
        ensures names { SameNames self.old self.new }
    {
        let line = self.order_lines.row_mut(key).unwrap();
        line.delivery = Some(stamp);
    }

    /// Sets S_QUANTITY, S_YTD, S_ORDER_CNT and S_REMOTE_CNT of the STOCK row of a key.
    pub fn set_counters(&mut self, key: &StockKey, counters: &StockCounters)
        requires { IsSome (get (rows self.old).stocks key.now) }
        ensures rows { (s : Stock) → get (rows self.old).stocks key.now ≡ Some s → rows self.new
            ≡ rows_after (UpdateStock key.now (with_counters counters.now s)) (rows self.old) }
        ensures places { SamePlaces self.old self.new }
        ensures names { SameNames self.old self.new }
    {
        let stock = self.stocks.row_mut(key).unwrap();
        stock.quantity = counters.quantity;
        stock.ytd = counters.ytd;
        stock.order_count = counters.order_count;
        stock.remote_count = counters.remote_count;
    }
}
