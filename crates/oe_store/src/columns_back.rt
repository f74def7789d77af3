//! The undo of updates by the columns before them, which are put back on the row where it lies. No
//! call takes memory.
ghost use Rattle.std.specs.Prelude.{◌≡◌, Some, IsSome, IfSome};
ghost use Rattle.std.specs.FinMap.{get};
ghost use Rattle.oe_model.specs.Changes.{put_back, ChangedWarehouse, ChangedDistrict, ChangedCustomer, ChangedOrder, ChangedOrderLine, ChangedStock};
ghost use Rattle.oe_model.specs.Meets.{Meets};
ghost use Rattle.oe_model.specs.Keys.{district_of_customer};
ghost use Rattle.oe_index.specs.Numbers.{list_number};
ghost use Rattle.oe_store.specs.Names.{SameNames, StandWhere, IsNamed};
ghost use Rattle.oe_store.specs.Places.{rows, SamePlaces};

use crate::tables::Tables;
use oe_rows::{
    CustomerBefore, CustomerKey, DistrictBefore, DistrictKey, OrderBefore, OrderKey,
    OrderLineBefore, OrderLineKey, StockBefore, StockKey, WarehouseBefore, WarehouseKey,
};

impl Tables {
    /// Puts columns of the WAREHOUSE row before an update back on the row that stands.
    pub fn put_back_warehouse_columns(&mut self, key: WarehouseKey, columns: WarehouseBefore)
        requires there { IsSome (get (rows self.old).warehouses key) }
        requires schema { Meets (put_back (ChangedWarehouse key (Some columns)) (rows self.old)) }
        ensures rows { rows self.new
            ≡ put_back (ChangedWarehouse key (Some columns)) (rows self.old) }
        ensures places { SamePlaces self.old self.new }
        ensures names { SameNames self.old self.new }
    {
        let warehouse = self.warehouses.row_mut(&key).unwrap();
        columns.put_on(warehouse);
    }

    /// Puts columns of the DISTRICT row before an update back on the row that stands.
    pub fn put_back_district_columns(&mut self, key: DistrictKey, columns: DistrictBefore)
        requires there { IsSome (get (rows self.old).districts key) }
        requires schema { Meets (put_back (ChangedDistrict key (Some columns)) (rows self.old)) }
        ensures rows { rows self.new
            ≡ put_back (ChangedDistrict key (Some columns)) (rows self.old) }
        ensures places { SamePlaces self.old self.new }
        ensures names { SameNames self.old self.new }
    {
        let district = self.districts.row_mut(&key).unwrap();
        columns.put_on(district);
    }

    /// Puts columns of the CUSTOMER row before an update back on the row that stands.
    pub fn put_back_customer_columns(&mut self, key: CustomerKey, columns: CustomerBefore)
        requires there { IsSome (get (rows self.old).customers key) }
        requires schema { Meets (put_back (ChangedCustomer key (Some columns)) (rows self.old)) }
        ensures rows { rows self.new
            ≡ put_back (ChangedCustomer key (Some columns)) (rows self.old) }
        ensures places { SamePlaces self.old self.new }
        ensures names { StandWhere self.old self.new (IfSome columns.name.last
            (λ last. IsNamed self.old (list_number (district_of_customer key) last) key)) }
    {
        self.customers.put_back(&key, columns);
    }

    /// Puts columns of the ORDER row before an update back on the row that stands.
    pub fn put_back_order_columns(&mut self, key: OrderKey, columns: OrderBefore)
        requires there { IsSome (get (rows self.old).orders key) }
        requires schema { Meets (put_back (ChangedOrder key (Some columns)) (rows self.old)) }
        ensures rows { rows self.new
            ≡ put_back (ChangedOrder key (Some columns)) (rows self.old) }
        ensures places { SamePlaces self.old self.new }
        ensures names { SameNames self.old self.new }
    {
        self.orders.put_back(&key, columns);
    }

    /// Puts columns of the ORDER-LINE row before an update back on the row that stands.
    pub fn put_back_order_line_columns(&mut self, key: OrderLineKey, columns: OrderLineBefore)
        requires there { IsSome (get (rows self.old).order_lines key) }
        requires schema { Meets (put_back (ChangedOrderLine key (Some columns)) (rows self.old)) }
        ensures rows { rows self.new
            ≡ put_back (ChangedOrderLine key (Some columns)) (rows self.old) }
        ensures places { SamePlaces self.old self.new }
        ensures names { SameNames self.old self.new }
    {
        let line = self.order_lines.row_mut(&key).unwrap();
        columns.put_on(line);
    }

    /// Puts columns of the STOCK row before an update back on the row that stands.
    pub fn put_back_stock_columns(&mut self, key: StockKey, columns: StockBefore)
        requires there { IsSome (get (rows self.old).stocks key) }
        requires schema { Meets (put_back (ChangedStock key (Some columns)) (rows self.old)) }
        ensures rows { rows self.new
            ≡ put_back (ChangedStock key (Some columns)) (rows self.old) }
        ensures places { SamePlaces self.old self.new }
        ensures names { SameNames self.old self.new }
    {
        let stock = self.stocks.row_mut(&key).unwrap();
        columns.put_on(stock);
    }
}
