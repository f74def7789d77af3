//! The names of the columns of each table, in the order in which a dump prints them (clause 1.3.1).
ghost use Rattle.std.specs.Prelude.{◌≡◌, ◌≤◌, length, map};
ghost use Rattle.oe_comparison.specs.Names.{column_names, column_name};

use oe_rows::Table;

const WAREHOUSE: [&str; 9] = [
    "W_ID",
    "W_NAME",
    "W_STREET_1",
    "W_STREET_2",
    "W_CITY",
    "W_STATE",
    "W_ZIP",
    "W_TAX",
    "W_YTD",
];

const DISTRICT: [&str; 11] = [
    "D_W_ID",
    "D_ID",
    "D_NAME",
    "D_STREET_1",
    "D_STREET_2",
    "D_CITY",
    "D_STATE",
    "D_ZIP",
    "D_TAX",
    "D_YTD",
    "D_NEXT_O_ID",
];

const CUSTOMER: [&str; 21] = [
    "C_W_ID",
    "C_D_ID",
    "C_ID",
    "C_FIRST",
    "C_MIDDLE",
    "C_LAST",
    "C_STREET_1",
    "C_STREET_2",
    "C_CITY",
    "C_STATE",
    "C_ZIP",
    "C_PHONE",
    "C_SINCE",
    "C_CREDIT",
    "C_CREDIT_LIM",
    "C_DISCOUNT",
    "C_BALANCE",
    "C_YTD_PAYMENT",
    "C_PAYMENT_CNT",
    "C_DELIVERY_CNT",
    "C_DATA",
];

const HISTORY: [&str; 11] = [
    "terminal", "number", "ordinal", "H_C_ID", "H_C_D_ID", "H_C_W_ID", "H_D_ID", "H_W_ID",
    "H_DATE", "H_AMOUNT", "H_DATA",
];

const NEW_ORDER: [&str; 3] = ["NO_W_ID", "NO_D_ID", "NO_O_ID"];

const ORDER: [&str; 8] = [
    "O_W_ID",
    "O_D_ID",
    "O_ID",
    "O_C_ID",
    "O_ENTRY_D",
    "O_CARRIER_ID",
    "O_OL_CNT",
    "O_ALL_LOCAL",
];

const ORDER_LINE: [&str; 10] = [
    "OL_W_ID",
    "OL_D_ID",
    "OL_O_ID",
    "OL_NUMBER",
    "OL_I_ID",
    "OL_SUPPLY_W_ID",
    "OL_DELIVERY_D",
    "OL_QUANTITY",
    "OL_AMOUNT",
    "OL_DIST_INFO",
];

const ITEM: [&str; 5] = ["I_ID", "I_IM_ID", "I_NAME", "I_PRICE", "I_DATA"];

const STOCK: [&str; 17] = [
    "S_W_ID",
    "S_I_ID",
    "S_QUANTITY",
    "S_DIST_01",
    "S_DIST_02",
    "S_DIST_03",
    "S_DIST_04",
    "S_DIST_05",
    "S_DIST_06",
    "S_DIST_07",
    "S_DIST_08",
    "S_DIST_09",
    "S_DIST_10",
    "S_YTD",
    "S_ORDER_CNT",
    "S_REMOTE_CNT",
    "S_DATA",
];

/// Gives the names of a table's columns.
fn columns(table: Table) -> &'static [&'static str]
    ensures { map (λ s. s.now) result.now ≡ column_names table }
{
    match table {
        Table::Warehouse => &WAREHOUSE,
        Table::District => &DISTRICT,
        Table::Customer => &CUSTOMER,
        Table::History => &HISTORY,
        Table::NewOrder => &NEW_ORDER,
        Table::Order => &ORDER,
        Table::OrderLine => &ORDER_LINE,
        Table::Item => &ITEM,
        Table::Stock => &STOCK,
    }
}

/// Counts the columns of a table.
pub fn column_count(table: Table) -> usize
    ensures { result ≡ length (column_names table) }
{
    columns(table).len()
}

/// Gives the name of the column at that place, counted from 0, or `?` where there is none.
pub fn column_name(table: Table, place: usize) -> &'static str
    ensures { result.now ≡ column_name table place }
{
    match columns(table).get(place) {
        Some(name) => name,
        None => "?",
    }
}
