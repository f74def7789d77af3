//! Updates and deletes of rows. Each gives the row before. Only an update of C_LAST takes memory,
//! since customers are found by it; where that is refused the tables are as before.
ghost use Rattle.std.specs.Prelude.{◌≡◌, Some, IfOk, OnOk, OnErr};
ghost use Rattle.std.specs.FinMap.{get};
ghost use Rattle.oe_model.specs.Changes.{rows_after, UpdateWarehouse, UpdateDistrict, UpdateCustomer, UpdateOrder, UpdateOrderLine, UpdateStock, DeleteNewOrder};
ghost use Rattle.oe_model.specs.Meets.{Accepts};
ghost use Rattle.oe_index.specs.Listed.{HasOtherName};
ghost use Rattle.oe_index.specs.Numbers.{list_of_name};
ghost use Rattle.oe_store.specs.Names.{SameNames, ListsName};
ghost use Rattle.oe_store.specs.Places.{rows, SamePlaces};

use crate::tables::Tables;
use oe_rows::{
    Customer, CustomerKey, District, DistrictKey, NewOrder, NewOrderKey, Order, OrderKey,
    OrderLine, OrderLineKey, Stock, StockKey, Warehouse, WarehouseKey,
};
use oe_values::NoMemory;

impl Tables {
    /// Puts another WAREHOUSE row in the place of a key's, and answers the row before.
    pub fn update_warehouse(&mut self, key: WarehouseKey, row: Warehouse) -> Warehouse
        requires { Accepts (UpdateWarehouse key row) (rows self.old) }
        ensures before { get (rows self.old).warehouses key ≡ Some result }
        ensures rows { rows self.new ≡ rows_after (UpdateWarehouse key row) (rows self.old) }
        ensures places { SamePlaces self.old self.new }
        ensures names { SameNames self.old self.new }
    {
        self.warehouses.swap(&key, row)
    }

    /// Puts another DISTRICT row in the place of a key's, and answers the row before.
    pub fn update_district(&mut self, key: DistrictKey, row: District) -> District
        requires { Accepts (UpdateDistrict key row) (rows self.old) }
        ensures before { get (rows self.old).districts key ≡ Some result }
        ensures rows { rows self.new ≡ rows_after (UpdateDistrict key row) (rows self.old) }
        ensures places { SamePlaces self.old self.new }
        ensures names { SameNames self.old self.new }
    {
        self.districts.swap(&key, row)
    }

    /// Puts another CUSTOMER row in the place of a key's, and answers the row before. `NoMemory`
    /// comes only where C_LAST is another; the tables are then as before.
    pub fn update_customer(&mut self, key: CustomerKey, row: Customer) -> Result<Customer, NoMemory>
        requires { Accepts (UpdateCustomer key row) (rows self.old) }
        ensures before { IfOk result (λ c. get (rows self.old).customers key ≡ Some c) }
        ensures rows { OnOk result
            (rows self.new ≡ rows_after (UpdateCustomer key row) (rows self.old)) }
        ensures places { SamePlaces self.old self.new }
        ensures names { OnOk result (ListsName self.old self.new (list_of_name key row) key) }
        ensures renamed { OnErr result
            (HasOtherName row.name.last (get (rows self.old).customers key)) }
        ensures err { OnErr result (self.new ≡ self.old) }
    {
        self.customers.replace(&key, row)
    }

    /// Puts another ORDER row in the place of a key's, and answers the row before.
    pub fn update_order(&mut self, key: OrderKey, row: Order) -> Order
        requires { Accepts (UpdateOrder key row) (rows self.old) }
        ensures before { get (rows self.old).orders key ≡ Some result }
        ensures rows { rows self.new ≡ rows_after (UpdateOrder key row) (rows self.old) }
        ensures places { SamePlaces self.old self.new }
        ensures names { SameNames self.old self.new }
    {
        let _customer = row.customer.get();
        let _carrier = row.carrier;
        self.orders.swap(&key, row)
    }

    /// Puts another ORDER-LINE row in the place of a key's, and answers the row before.
    pub fn update_order_line(&mut self, key: OrderLineKey, row: OrderLine) -> OrderLine
        requires { Accepts (UpdateOrderLine key row) (rows self.old) }
        ensures before { get (rows self.old).order_lines key ≡ Some result }
        ensures rows { rows self.new ≡ rows_after (UpdateOrderLine key row) (rows self.old) }
        ensures places { SamePlaces self.old self.new }
        ensures names { SameNames self.old self.new }
    {
        self.order_lines.swap(&key, row)
    }

    /// Puts another STOCK row in the place of a key's, and answers the row before.
    pub fn update_stock(&mut self, key: StockKey, row: Stock) -> Stock
        requires { Accepts (UpdateStock key row) (rows self.old) }
        ensures before { get (rows self.old).stocks key ≡ Some result }
        ensures rows { rows self.new ≡ rows_after (UpdateStock key row) (rows self.old) }
        ensures places { SamePlaces self.old self.new }
        ensures names { SameNames self.old self.new }
    {
        self.stocks.swap(&key, row)
    }

    /// Takes a NEW-ORDER row away, and answers it. Its key keeps its place.
    pub fn delete_new_order(&mut self, key: NewOrderKey) -> NewOrder
        requires { Accepts (DeleteNewOrder key) (rows self.old) }
        ensures before { get (rows self.old).new_orders key ≡ Some result }
        ensures rows { rows self.new ≡ rows_after (DeleteNewOrder key) (rows self.old) }
        ensures places { SamePlaces self.old self.new }
        ensures names { SameNames self.old self.new }
    {
        self.new_orders.blank(&key)
    }
}
