//! The undo of changes: an insert's row is taken back, or removed with its key's place; an update's
//! row before is put back, and a deleted row refilled. None takes memory.
ghost use Rattle.std.specs.Prelude.{◌≡◌, Some, None, IsSome};
ghost use Rattle.std.specs.FinMap.{get};
ghost use Rattle.oe_model.specs.Changes.{put_back, InsertedHistory, InsertedNewOrder, InsertedOrder, InsertedOrderLine, UpdatedWarehouse, UpdatedDistrict, UpdatedCustomer, UpdatedOrder, UpdatedOrderLine, UpdatedStock, DeletedNewOrder};
ghost use Rattle.oe_model.specs.Meets.{Meets};
ghost use Rattle.oe_index.specs.Numbers.{list_of_name};
ghost use Rattle.oe_store.specs.Names.{SameNames, StandWhere, IsNamed};
ghost use Rattle.oe_store.specs.Places.{rows, HasPlace, LosesPlace, SamePlaces};

use crate::tables::Tables;
use oe_rows::{
    Customer, CustomerKey, District, DistrictKey, History, HistoryKey, Key, NewOrder, NewOrderKey,
    Order, OrderKey, OrderLine, OrderLineKey, Stock, StockKey, Warehouse, WarehouseKey,
};

impl Tables {
    /// Takes an inserted HISTORY row back, where nothing refers to it, and answers it. Its key
    /// keeps its place.
    pub fn take_back_history(&mut self, key: HistoryKey) -> History
        requires there { IsSome (get (rows self.old).histories key) }
        requires schema { Meets (put_back (InsertedHistory key None) (rows self.old)) }
        ensures before { get (rows self.old).histories key ≡ Some result }
        ensures rows { rows self.new ≡ put_back (InsertedHistory key None) (rows self.old) }
        ensures places { SamePlaces self.old self.new }
        ensures names { SameNames self.old self.new }
    {
        self.histories.blank(&key)
    }

    /// Takes an inserted NEW-ORDER row back, where nothing refers to it, and answers it. Its key
    /// keeps its place.
    pub fn take_back_new_order(&mut self, key: NewOrderKey) -> NewOrder
        requires there { IsSome (get (rows self.old).new_orders key) }
        requires schema { Meets (put_back (InsertedNewOrder key None) (rows self.old)) }
        ensures before { get (rows self.old).new_orders key ≡ Some result }
        ensures rows { rows self.new ≡ put_back (InsertedNewOrder key None) (rows self.old) }
        ensures places { SamePlaces self.old self.new }
        ensures names { SameNames self.old self.new }
    {
        self.new_orders.blank(&key)
    }

    /// Takes an inserted ORDER row back, where nothing refers to it, and answers it. Its key keeps
    /// its place.
    pub fn take_back_order(&mut self, key: OrderKey) -> Order
        requires there { IsSome (get (rows self.old).orders key) }
        requires schema { Meets (put_back (InsertedOrder key None) (rows self.old)) }
        ensures before { get (rows self.old).orders key ≡ Some result }
        ensures rows { rows self.new ≡ put_back (InsertedOrder key None) (rows self.old) }
        ensures places { SamePlaces self.old self.new }
        ensures names { SameNames self.old self.new }
    {
        self.orders.blank(&key)
    }

    /// Takes an inserted ORDER-LINE row back, where nothing refers to it, and answers it. Its key
    /// keeps its place.
    pub fn take_back_order_line(&mut self, key: OrderLineKey) -> OrderLine
        requires there { IsSome (get (rows self.old).order_lines key) }
        requires schema { Meets (put_back (InsertedOrderLine key None) (rows self.old)) }
        ensures before { get (rows self.old).order_lines key ≡ Some result }
        ensures rows { rows self.new ≡ put_back (InsertedOrderLine key None) (rows self.old) }
        ensures places { SamePlaces self.old self.new }
        ensures names { SameNames self.old self.new }
    {
        self.order_lines.blank(&key)
    }

    /// Removes an inserted HISTORY row and its key's place, where nothing refers to the row, and
    /// answers it.
    pub fn remove_history(&mut self, key: HistoryKey) -> History
        requires there { IsSome (get (rows self.old).histories key) }
        requires schema { Meets (put_back (InsertedHistory key None) (rows self.old)) }
        ensures before { get (rows self.old).histories key ≡ Some result }
        ensures rows { rows self.new ≡ put_back (InsertedHistory key None) (rows self.old) }
        ensures places { LosesPlace self.old self.new (Key.History key) }
        ensures names { SameNames self.old self.new }
    {
        self.histories.remove(&key)
    }

    /// Removes an inserted NEW-ORDER row and its key's place, where nothing refers to the row, and
    /// answers it.
    pub fn remove_new_order(&mut self, key: NewOrderKey) -> NewOrder
        requires there { IsSome (get (rows self.old).new_orders key) }
        requires schema { Meets (put_back (InsertedNewOrder key None) (rows self.old)) }
        ensures before { get (rows self.old).new_orders key ≡ Some result }
        ensures rows { rows self.new ≡ put_back (InsertedNewOrder key None) (rows self.old) }
        ensures places { LosesPlace self.old self.new (Key.NewOrder key) }
        ensures names { SameNames self.old self.new }
    {
        self.new_orders.remove(&key)
    }

    /// Removes an inserted ORDER row and its key's place, where nothing refers to the row, and
    /// answers it.
    pub fn remove_order(&mut self, key: OrderKey) -> Order
        requires there { IsSome (get (rows self.old).orders key) }
        requires schema { Meets (put_back (InsertedOrder key None) (rows self.old)) }
        ensures before { get (rows self.old).orders key ≡ Some result }
        ensures rows { rows self.new ≡ put_back (InsertedOrder key None) (rows self.old) }
        ensures places { LosesPlace self.old self.new (Key.Order key) }
        ensures names { SameNames self.old self.new }
    {
        self.orders.remove(&key)
    }

    /// Removes an inserted ORDER-LINE row and its key's place, where nothing refers to the row, and
    /// answers it.
    pub fn remove_order_line(&mut self, key: OrderLineKey) -> OrderLine
        requires there { IsSome (get (rows self.old).order_lines key) }
        requires schema { Meets (put_back (InsertedOrderLine key None) (rows self.old)) }
        ensures before { get (rows self.old).order_lines key ≡ Some result }
        ensures rows { rows self.new ≡ put_back (InsertedOrderLine key None) (rows self.old) }
        ensures places { LosesPlace self.old self.new (Key.OrderLine key) }
        ensures names { SameNames self.old self.new }
    {
        self.order_lines.remove(&key)
    }

    /// Puts the WAREHOUSE row before an update back in its place, and answers the row that stood
    /// there.
    pub fn put_back_warehouse(&mut self, key: WarehouseKey, row: Warehouse) -> Warehouse
        requires there { IsSome (get (rows self.old).warehouses key) }
        requires schema { Meets (put_back (UpdatedWarehouse key (Some row)) (rows self.old)) }
        ensures before { get (rows self.old).warehouses key ≡ Some result }
        ensures rows { rows self.new ≡ put_back (UpdatedWarehouse key (Some row)) (rows self.old) }
        ensures places { SamePlaces self.old self.new }
        ensures names { SameNames self.old self.new }
    {
        self.warehouses.swap(&key, row)
    }

    /// Puts the DISTRICT row before an update back in its place, and answers the row that stood
    /// there.
    pub fn put_back_district(&mut self, key: DistrictKey, row: District) -> District
        requires there { IsSome (get (rows self.old).districts key) }
        requires schema { Meets (put_back (UpdatedDistrict key (Some row)) (rows self.old)) }
        ensures before { get (rows self.old).districts key ≡ Some result }
        ensures rows { rows self.new ≡ put_back (UpdatedDistrict key (Some row)) (rows self.old) }
        ensures places { SamePlaces self.old self.new }
        ensures names { SameNames self.old self.new }
    {
        self.districts.swap(&key, row)
    }

    /// Puts the CUSTOMER row before an update back in its place, and answers the row that stood
    /// there.
    pub fn put_back_customer(&mut self, key: CustomerKey, row: Customer) -> Customer
        requires there { IsSome (get (rows self.old).customers key) }
        requires schema { Meets (put_back (UpdatedCustomer key (Some row)) (rows self.old)) }
        ensures before { get (rows self.old).customers key ≡ Some result }
        ensures rows { rows self.new ≡ put_back (UpdatedCustomer key (Some row)) (rows self.old) }
        ensures places { SamePlaces self.old self.new }
        ensures names { StandWhere self.old self.new (IsNamed self.old (list_of_name key row) key) }
    {
        self.customers.swap(&key, row)
    }

    /// Puts the ORDER row before an update back in its place, and answers the row that stood there.
    pub fn put_back_order(&mut self, key: OrderKey, row: Order) -> Order
        requires there { IsSome (get (rows self.old).orders key) }
        requires schema { Meets (put_back (UpdatedOrder key (Some row)) (rows self.old)) }
        ensures before { get (rows self.old).orders key ≡ Some result }
        ensures rows { rows self.new ≡ put_back (UpdatedOrder key (Some row)) (rows self.old) }
        ensures places { SamePlaces self.old self.new }
        ensures names { SameNames self.old self.new }
    {
        let _customer = row.customer.get();
        let _carrier = row.carrier;
        self.orders.swap(&key, row)
    }

    /// Puts the ORDER-LINE row before an update back in its place, and answers the row that stood
    /// there.
    pub fn put_back_order_line(&mut self, key: OrderLineKey, row: OrderLine) -> OrderLine
        requires there { IsSome (get (rows self.old).order_lines key) }
        requires schema { Meets (put_back (UpdatedOrderLine key (Some row)) (rows self.old)) }
        ensures before { get (rows self.old).order_lines key ≡ Some result }
        ensures rows { rows self.new ≡ put_back (UpdatedOrderLine key (Some row)) (rows self.old) }
        ensures places { SamePlaces self.old self.new }
        ensures names { SameNames self.old self.new }
    {
        self.order_lines.swap(&key, row)
    }

    /// Puts the STOCK row before an update back in its place, and answers the row that stood there.
    pub fn put_back_stock(&mut self, key: StockKey, row: Stock) -> Stock
        requires there { IsSome (get (rows self.old).stocks key) }
        requires schema { Meets (put_back (UpdatedStock key (Some row)) (rows self.old)) }
        ensures before { get (rows self.old).stocks key ≡ Some result }
        ensures rows { rows self.new ≡ put_back (UpdatedStock key (Some row)) (rows self.old) }
        ensures places { SamePlaces self.old self.new }
        ensures names { SameNames self.old self.new }
    {
        self.stocks.swap(&key, row)
    }

    /// Puts a deleted NEW-ORDER row back in the place that its key has kept.
    pub fn refill_new_order(&mut self, key: NewOrderKey, row: NewOrder)
        requires absent { get (rows self.old).new_orders key ≡ None }
        requires place { HasPlace self.old (Key.NewOrder key) }
        requires schema { Meets (put_back (DeletedNewOrder key (Some row)) (rows self.old)) }
        ensures rows { rows self.new ≡ put_back (DeletedNewOrder key (Some row)) (rows self.old) }
        ensures places { SamePlaces self.old self.new }
        ensures names { SameNames self.old self.new }
    {
        self.new_orders.refill(&key, row);
    }
}
