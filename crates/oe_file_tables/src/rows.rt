//! Rows of any table, as their file's lines spell them.
ghost use Rattle.std.specs.Prelude.{◌≡◌, ℕ, List, Ok};
ghost use Rattle.oe_rows.specs.declared.keys.Key.{Key};
ghost use Rattle.oe_rows.specs.declared.keys.Key.TheVariants as kind;
ghost use Rattle.oe_rows.specs.declared.keys.Table.{Table};
ghost use Rattle.oe_rows.specs.declared.keys.Table.TheVariants as table;
ghost use Rattle.oe_file_tables.specs.Rows.{SpellsRow, SpellsHistory};
ghost use Rattle.oe_file_rows.specs.Rows.{warehouse_forms, warehouse_values, district_forms, district_values, customer_forms, customer_values, new_order_forms, new_order_values, order_forms, order_values, order_line_forms, order_line_values, item_forms, item_values, stock_forms, stock_values};

use oe_file_rows::{
    LineFault, read_customer, read_district, read_history, read_item, read_new_order, read_order,
    read_order_line, read_stock, read_warehouse,
};
use oe_rows::{
    Customer, CustomerKey, District, DistrictKey, History, HistoryKey, Item, ItemKey, Key,
    NewOrder, NewOrderKey, Order, OrderKey, OrderLine, OrderLineKey, Stock, StockKey, Table,
    Warehouse, WarehouseKey,
};

/// A row that a file has lines of.
pub trait RowLine<K> {
    /// The line of that number spells the key and the row.
    ghost spells: { ℕ → List ℕ → K × Self → Type 0 };

    /// The table.
    ghost own_table: { Table };

    /// A key as one of any table.
    ghost key_of: { K → Key };

    /// Gives the table.
    fn table() -> Table
        ensures { result ≡ own_table };

    /// Gives a key as one of any table.
    fn key(key: &K) -> Key
        ensures { result ≡ key_of key.now };

    /// Reads the key and the row that the line of that number spells. The line stands without its
    /// end.
    fn read(line: &[u8], number: u64) -> Result<(K, Self), LineFault>
        ensures found { (r : K × Self) → result ≡ Ok r → spells number line.now r }
        ensures finds { (r : K × Self) → spells number line.now r → result ≡ Ok r };
}

impl RowLine<WarehouseKey> for Warehouse {
    ghost spells = { SpellsRow warehouse_forms warehouse_values };

    ghost own_table = { table.Warehouse };

    ghost key_of = { λ k. kind.Warehouse k };

    fn table() -> Table {
        Table::Warehouse
    }

    fn key(key: &WarehouseKey) -> Key {
        Key::Warehouse(*key)
    }

    fn read(line: &[u8], number: u64) -> Result<(WarehouseKey, Self), LineFault> {
        let _number = number;
        read_warehouse(line)
    }
}

impl RowLine<DistrictKey> for District {
    ghost spells = { SpellsRow district_forms district_values };

    ghost own_table = { table.District };

    ghost key_of = { λ k. kind.District k };

    fn table() -> Table {
        Table::District
    }

    fn key(key: &DistrictKey) -> Key {
        Key::District(*key)
    }

    fn read(line: &[u8], number: u64) -> Result<(DistrictKey, Self), LineFault> {
        let _number = number;
        read_district(line)
    }
}

impl RowLine<CustomerKey> for Customer {
    ghost spells = { SpellsRow customer_forms customer_values };

    ghost own_table = { table.Customer };

    ghost key_of = { λ k. kind.Customer k };

    fn table() -> Table {
        Table::Customer
    }

    fn key(key: &CustomerKey) -> Key {
        Key::Customer(*key)
    }

    fn read(line: &[u8], number: u64) -> Result<(CustomerKey, Self), LineFault> {
        let _number = number;
        read_customer(line)
    }
}

impl RowLine<HistoryKey> for History {
    ghost spells = { SpellsHistory };

    ghost own_table = { table.History };

    ghost key_of = { λ k. kind.History k };

    fn table() -> Table {
        Table::History
    }

    fn key(key: &HistoryKey) -> Key {
        Key::History(*key)
    }

    fn read(line: &[u8], number: u64) -> Result<(HistoryKey, Self), LineFault> {
        read_history(line, number)
    }
}

impl RowLine<NewOrderKey> for NewOrder {
    ghost spells = { SpellsRow new_order_forms new_order_values };

    ghost own_table = { table.NewOrder };

    ghost key_of = { λ k. kind.NewOrder k };

    fn table() -> Table {
        Table::NewOrder
    }

    fn key(key: &NewOrderKey) -> Key {
        Key::NewOrder(*key)
    }

    fn read(line: &[u8], number: u64) -> Result<(NewOrderKey, Self), LineFault> {
        let _number = number;
        read_new_order(line)
    }
}

impl RowLine<OrderKey> for Order {
    ghost spells = { SpellsRow order_forms order_values };

    ghost own_table = { table.Order };

    ghost key_of = { λ k. kind.Order k };

    fn table() -> Table {
        Table::Order
    }

    fn key(key: &OrderKey) -> Key {
        Key::Order(*key)
    }

    fn read(line: &[u8], number: u64) -> Result<(OrderKey, Self), LineFault> {
        let _number = number;
        read_order(line)
    }
}

impl RowLine<OrderLineKey> for OrderLine {
    ghost spells = { SpellsRow order_line_forms order_line_values };

    ghost own_table = { table.OrderLine };

    ghost key_of = { λ k. kind.OrderLine k };

    fn table() -> Table {
        Table::OrderLine
    }

    fn key(key: &OrderLineKey) -> Key {
        Key::OrderLine(*key)
    }

    fn read(line: &[u8], number: u64) -> Result<(OrderLineKey, Self), LineFault> {
        let _number = number;
        read_order_line(line)
    }
}

impl RowLine<ItemKey> for Item {
    ghost spells = { SpellsRow item_forms item_values };

    ghost own_table = { table.Item };

    ghost key_of = { λ k. kind.Item k };

    fn table() -> Table {
        Table::Item
    }

    fn key(key: &ItemKey) -> Key {
        Key::Item(*key)
    }

    fn read(line: &[u8], number: u64) -> Result<(ItemKey, Self), LineFault> {
        let _number = number;
        read_item(line)
    }
}

impl RowLine<StockKey> for Stock {
    ghost spells = { SpellsRow stock_forms stock_values };

    ghost own_table = { table.Stock };

    ghost key_of = { λ k. kind.Stock k };

    fn table() -> Table {
        Table::Stock
    }

    fn key(key: &StockKey) -> Key {
        Key::Stock(*key)
    }

    fn read(line: &[u8], number: u64) -> Result<(StockKey, Self), LineFault> {
        let _number = number;
        read_stock(line)
    }
}
