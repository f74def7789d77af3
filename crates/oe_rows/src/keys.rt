//! Keys of rows, and the names of tables (clause 1.3.1).
//!
//! A key has the columns of its table's primary key, in their order, each in its range by its type;
//! its order is theirs from the left. Nothing can fail, and nothing takes memory.
ghost use Rattle.std.specs.Prelude.{◌≡◌};
ghost use Rattle.oe_rows.specs.Key.{table_of, table_name, IsDistrictKey, IsCustomerKey};

use oe_values::numbers::{
    CustomerNumber, DistrictNumber, HistoryOrdinal, HistoryTerminal, ItemNumber, LineNumber,
    OrderNumber, TransactionNumber, WarehouseNumber,
};

/// The key of a WAREHOUSE row: W_ID.
#[derive(Clone, Copy, PartialEq, Eq, PartialOrd, Ord, Hash)]
pub struct WarehouseKey {
    pub warehouse: WarehouseNumber,
}

/// The key of a DISTRICT row: D_W_ID, D_ID.
#[derive(Clone, Copy, PartialEq, Eq, PartialOrd, Ord, Hash)]
pub struct DistrictKey {
    pub warehouse: WarehouseNumber,
    pub district: DistrictNumber,
}

/// The key of a CUSTOMER row: C_W_ID, C_D_ID, C_ID.
#[derive(Clone, Copy, PartialEq, Eq, PartialOrd, Ord, Hash)]
pub struct CustomerKey {
    pub warehouse: WarehouseNumber,
    pub district: DistrictNumber,
    pub customer: CustomerNumber,
}

/// The key of a HISTORY row, which the standard leaves without one: the terminal, the number of the
/// transaction among the terminal's, and the row's ordinal in the transaction.
#[derive(Clone, Copy, PartialEq, Eq, PartialOrd, Ord)]
pub struct HistoryKey {
    pub terminal: HistoryTerminal,
    pub number: TransactionNumber,
    pub ordinal: HistoryOrdinal,
}

/// The key of a NEW-ORDER row: NO_W_ID, NO_D_ID, NO_O_ID.
#[derive(Clone, Copy, PartialEq, Eq, PartialOrd, Ord)]
pub struct NewOrderKey {
    pub warehouse: WarehouseNumber,
    pub district: DistrictNumber,
    pub order: OrderNumber,
}

/// The key of an ORDER row: O_W_ID, O_D_ID, O_ID.
#[derive(Clone, Copy, PartialEq, Eq, PartialOrd, Ord, Hash)]
pub struct OrderKey {
    pub warehouse: WarehouseNumber,
    pub district: DistrictNumber,
    pub order: OrderNumber,
}

/// The key of an ORDER-LINE row: OL_W_ID, OL_D_ID, OL_O_ID, OL_NUMBER.
#[derive(Clone, Copy, PartialEq, Eq, PartialOrd, Ord)]
pub struct OrderLineKey {
    pub warehouse: WarehouseNumber,
    pub district: DistrictNumber,
    pub order: OrderNumber,
    pub number: LineNumber,
}

/// The key of an ITEM row: I_ID.
#[derive(Clone, Copy, PartialEq, Eq, PartialOrd, Ord)]
pub struct ItemKey {
    pub item: ItemNumber,
}

/// The key of a STOCK row: S_W_ID, S_I_ID.
#[derive(Clone, Copy, PartialEq, Eq, PartialOrd, Ord, Hash)]
pub struct StockKey {
    pub warehouse: WarehouseNumber,
    pub item: ItemNumber,
}

/// The key of a row of any table.
#[derive(Clone, Copy, PartialEq, Eq)]
pub enum Key {
    Warehouse(WarehouseKey),
    District(DistrictKey),
    Customer(CustomerKey),
    History(HistoryKey),
    NewOrder(NewOrderKey),
    Order(OrderKey),
    OrderLine(OrderLineKey),
    Item(ItemKey),
    Stock(StockKey),
}

/// The nine tables (clause 1.2.1).
#[derive(Clone, Copy)]
pub enum Table {
    Warehouse,
    District,
    Customer,
    History,
    NewOrder,
    Order,
    OrderLine,
    Item,
    Stock,
}

/// The nine tables, in the order of clause 1.3.1.
pub const TABLES: [Table; 9] = [
    Table::Warehouse,
    Table::District,
    Table::Customer,
    Table::History,
    Table::NewOrder,
    Table::Order,
    Table::OrderLine,
    Table::Item,
    Table::Stock,
];

impl DistrictKey {
    /// The warehouse that the district is of.
    #[inline]
    pub fn warehouse_key(self) -> WarehouseKey
        ensures { result ≡ record { warehouse = self.warehouse } }
    {
        WarehouseKey {
            warehouse: self.warehouse,
        }
    }

    /// Gives D_W_ID and D_ID.
    pub fn columns(self) -> (u32, u32)
        ensures ranges { IsDistrictKey self }
        ensures value { result ≡ (self.warehouse, self.district) }
    {
        (self.warehouse.get(), self.district.get())
    }

    /// The district's customer with that number.
    #[inline]
    pub fn customer(self, customer: CustomerNumber) -> CustomerKey
        ensures { result
            ≡ record { warehouse = self.warehouse; district = self.district; customer = customer } }
    {
        CustomerKey {
            warehouse: self.warehouse,
            district: self.district,
            customer,
        }
    }

    /// The district's order with that number.
    #[inline]
    pub fn order(self, order: OrderNumber) -> OrderKey
        ensures { result
            ≡ record { warehouse = self.warehouse; district = self.district; order = order } }
    {
        OrderKey {
            warehouse: self.warehouse,
            district: self.district,
            order,
        }
    }

    /// The key of the district's order with that number among those not yet delivered.
    #[inline]
    pub fn new_order(self, order: OrderNumber) -> NewOrderKey
        ensures { result
            ≡ record { warehouse = self.warehouse; district = self.district; order = order } }
    {
        NewOrderKey {
            warehouse: self.warehouse,
            district: self.district,
            order,
        }
    }
}

impl CustomerKey {
    /// Gives C_W_ID, C_D_ID and C_ID.
    pub fn columns(self) -> (u32, u32, u32)
        ensures ranges { IsCustomerKey self }
        ensures value { result ≡ (self.warehouse, self.district, self.customer) }
    {
        (
            self.warehouse.get(),
            self.district.get(),
            self.customer.get(),
        )
    }

    /// The district that the customer is of.
    #[inline]
    pub fn district_key(self) -> DistrictKey
        ensures { result ≡ record { warehouse = self.warehouse; district = self.district } }
    {
        DistrictKey {
            warehouse: self.warehouse,
            district: self.district,
        }
    }
}

impl OrderKey {
    /// The district that the order is of.
    #[inline]
    pub fn district_key(self) -> DistrictKey
        ensures { result ≡ record { warehouse = self.warehouse; district = self.district } }
    {
        DistrictKey {
            warehouse: self.warehouse,
            district: self.district,
        }
    }

    /// The order's line with that number.
    #[inline]
    pub fn line(self, number: LineNumber) -> OrderLineKey
        ensures { result
            ≡ record {
              warehouse = self.warehouse;
              district = self.district;
              order = self.order;
              number = number;
            } }
    {
        OrderLineKey {
            warehouse: self.warehouse,
            district: self.district,
            order: self.order,
            number,
        }
    }

    /// The order's key among those not yet delivered.
    #[inline]
    pub fn new_order_key(self) -> NewOrderKey
        ensures { result
            ≡ record { warehouse = self.warehouse; district = self.district; order = self.order } }
    {
        NewOrderKey {
            warehouse: self.warehouse,
            district: self.district,
            order: self.order,
        }
    }
}

impl OrderLineKey {
    /// The order that the line is of.
    #[inline]
    pub fn order_key(self) -> OrderKey
        ensures { result
            ≡ record { warehouse = self.warehouse; district = self.district; order = self.order } }
    {
        OrderKey {
            warehouse: self.warehouse,
            district: self.district,
            order: self.order,
        }
    }
}

impl NewOrderKey {
    /// The order that is not yet delivered.
    #[inline]
    pub fn order_key(self) -> OrderKey
        ensures { result
            ≡ record { warehouse = self.warehouse; district = self.district; order = self.order } }
    {
        OrderKey {
            warehouse: self.warehouse,
            district: self.district,
            order: self.order,
        }
    }
}

impl StockKey {
    /// The item that is in stock.
    #[inline]
    pub fn item_key(self) -> ItemKey
        ensures { result ≡ record { item = self.item } }
    {
        ItemKey { item: self.item }
    }

    /// The warehouse that has the stock.
    #[inline]
    pub fn warehouse_key(self) -> WarehouseKey
        ensures { result ≡ record { warehouse = self.warehouse } }
    {
        WarehouseKey {
            warehouse: self.warehouse,
        }
    }
}

impl Key {
    /// Gives the table whose rows have such keys.
    pub fn table(self) -> Table
        ensures { result ≡ table_of self }
    {
        match self {
            Key::Warehouse(_) => Table::Warehouse,
            Key::District(_) => Table::District,
            Key::Customer(_) => Table::Customer,
            Key::History(_) => Table::History,
            Key::NewOrder(_) => Table::NewOrder,
            Key::Order(_) => Table::Order,
            Key::OrderLine(_) => Table::OrderLine,
            Key::Item(_) => Table::Item,
            Key::Stock(_) => Table::Stock,
        }
    }
}

impl Table {
    /// Gives the table's name in an answer.
    pub fn name(self) -> &'static str
        ensures { result.now ≡ table_name self }
    {
        match self {
            Table::Warehouse => "warehouse",
            Table::District => "district",
            Table::Customer => "customer",
            Table::History => "history",
            Table::NewOrder => "neworder",
            Table::Order => "order",
            Table::OrderLine => "orderline",
            Table::Item => "item",
            Table::Stock => "stock",
        }
    }
}
