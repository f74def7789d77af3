//! The columns that a fact needs of each table, in the table's order (clause 1.3.1), and their
//! places on a line of a dump.
ghost use Rattle.std.specs.Prelude.{◌≡◌, ◌≤◌, length, map, IfSome};
ghost use Rattle.std.specs.Option.{option_map};
ghost use Rattle.oe_columns.specs.Columns.{columns_of, column_of, at_count, dump_places};

use oe_facts::Table;

/// A fact needs at most this many columns.
pub const MOST_COLUMNS: usize = 9;

/// What the field of a column has to spell.
#[derive(Clone, Copy)]
pub enum Kind {
    /// A whole number without a sign, from the first to the second.
    Number(u64, u64),
    /// A whole number that may have a minus sign, within 10^15 either side.
    Quantity,
    /// An amount of money that may have a minus sign, within 10^15 cents either side.
    Amount,
    /// Anything, or a null.
    Nullable,
    /// A flag.
    Flag,
}

/// A column that a fact needs.
pub struct Column {
    pub name: &'static str,
    pub kind: Kind,
}

/// A warehouse, a customer, an order or an item.
const ID: Kind = Kind::Number(1, 4_294_967_295);

/// D_ID and what refers to it.
const DISTRICT_ID: Kind = Kind::Number(1, 10);

/// OL_NUMBER.
const LINE_NUMBER: Kind = Kind::Number(1, 255);

/// OL_QUANTITY, O_OL_CNT.
const SMALL: Kind = Kind::Number(0, 4_294_967_295);

/// A sum or a count.
const COUNTER: Kind = Kind::Number(0, 18_446_744_073_709_551_615);

const WAREHOUSE: [Column; 2] = [
    Column {
        name: "W_ID",
        kind: ID,
    },
    Column {
        name: "W_YTD",
        kind: Kind::Amount,
    },
];

const DISTRICT: [Column; 4] = [
    Column {
        name: "D_W_ID",
        kind: ID,
    },
    Column {
        name: "D_ID",
        kind: DISTRICT_ID,
    },
    Column {
        name: "D_YTD",
        kind: Kind::Amount,
    },
    Column {
        name: "D_NEXT_O_ID",
        kind: ID,
    },
];

const CUSTOMER: [Column; 7] = [
    Column {
        name: "C_W_ID",
        kind: ID,
    },
    Column {
        name: "C_D_ID",
        kind: DISTRICT_ID,
    },
    Column {
        name: "C_ID",
        kind: ID,
    },
    Column {
        name: "C_BALANCE",
        kind: Kind::Amount,
    },
    Column {
        name: "C_YTD_PAYMENT",
        kind: Kind::Amount,
    },
    Column {
        name: "C_PAYMENT_CNT",
        kind: COUNTER,
    },
    Column {
        name: "C_DELIVERY_CNT",
        kind: COUNTER,
    },
];

const HISTORY: [Column; 6] = [
    Column {
        name: "H_C_ID",
        kind: ID,
    },
    Column {
        name: "H_C_D_ID",
        kind: DISTRICT_ID,
    },
    Column {
        name: "H_C_W_ID",
        kind: ID,
    },
    Column {
        name: "H_D_ID",
        kind: DISTRICT_ID,
    },
    Column {
        name: "H_W_ID",
        kind: ID,
    },
    Column {
        name: "H_AMOUNT",
        kind: Kind::Amount,
    },
];

const NEW_ORDER: [Column; 3] = [
    Column {
        name: "NO_W_ID",
        kind: ID,
    },
    Column {
        name: "NO_D_ID",
        kind: DISTRICT_ID,
    },
    Column {
        name: "NO_O_ID",
        kind: ID,
    },
];

const ORDER: [Column; 7] = [
    Column {
        name: "O_W_ID",
        kind: ID,
    },
    Column {
        name: "O_D_ID",
        kind: DISTRICT_ID,
    },
    Column {
        name: "O_ID",
        kind: ID,
    },
    Column {
        name: "O_C_ID",
        kind: ID,
    },
    Column {
        name: "O_CARRIER_ID",
        kind: Kind::Nullable,
    },
    Column {
        name: "O_OL_CNT",
        kind: SMALL,
    },
    Column {
        name: "O_ALL_LOCAL",
        kind: Kind::Flag,
    },
];

const ORDER_LINE: [Column; 9] = [
    Column {
        name: "OL_W_ID",
        kind: ID,
    },
    Column {
        name: "OL_D_ID",
        kind: DISTRICT_ID,
    },
    Column {
        name: "OL_O_ID",
        kind: ID,
    },
    Column {
        name: "OL_NUMBER",
        kind: LINE_NUMBER,
    },
    Column {
        name: "OL_I_ID",
        kind: ID,
    },
    Column {
        name: "OL_SUPPLY_W_ID",
        kind: ID,
    },
    Column {
        name: "OL_DELIVERY_D",
        kind: Kind::Nullable,
    },
    Column {
        name: "OL_QUANTITY",
        kind: SMALL,
    },
    Column {
        name: "OL_AMOUNT",
        kind: Kind::Amount,
    },
];

const ITEM: [Column; 1] = [Column {
    name: "I_ID",
    kind: ID,
}];

const STOCK: [Column; 6] = [
    Column {
        name: "S_W_ID",
        kind: ID,
    },
    Column {
        name: "S_I_ID",
        kind: ID,
    },
    Column {
        name: "S_QUANTITY",
        kind: Kind::Quantity,
    },
    Column {
        name: "S_YTD",
        kind: COUNTER,
    },
    Column {
        name: "S_ORDER_CNT",
        kind: COUNTER,
    },
    Column {
        name: "S_REMOTE_CNT",
        kind: COUNTER,
    },
];

/// Gives the columns that a fact of the table needs, in the table's order.
pub fn fact_columns(table: Table) -> &'static [Column]
    ensures value { map column_of result.now ≡ columns_of table }
    ensures most { length result.now ≤ 9 }
{
    match table {
        Table::Warehouse => &WAREHOUSE,
        Table::District => &DISTRICT,
        Table::Customer => &CUSTOMER,
        Table::History => &HISTORY,
        Table::NewOrder => &NEW_ORDER,
        Table::Order => &ORDER,
        Table::OrderLine => &ORDER_LINE,
        Table::Item => &ITEM,
        Table::Stock => &STOCK,
    }
}

/// Gives the places, where the line has that many fields.
fn at_count(count: usize, places: &'static [usize], fields: usize) -> Option<&'static [usize]>
    requires { length places.now ≤ 9 }
    ensures value { option_map (λ p. p.now) result ≡ at_count count places.now fields }
    ensures most { IfSome result (λ p. length p.now ≤ 9) }
{
    if fields == count { Some(places) } else { None }
}

/// Gives the places of these columns on a line of a dump that has that many fields. `None` where
/// the table's dump has another number.
#[tactic(auto, unfolding(crate::specs::Columns::dump_places))]
pub(crate) fn dump_places(table: Table, fields: usize) -> Option<&'static [usize]>
    ensures value { option_map (λ p. p.now) result ≡ dump_places table fields }
    ensures most { IfSome result (λ p. length p.now ≤ 9) }
{
    match table {
        Table::Warehouse => at_count(9, &[0, 8], fields),
        Table::District => at_count(11, &[0, 1, 9, 10], fields),
        Table::Customer => at_count(21, &[0, 1, 2, 16, 17, 18, 19], fields),
        Table::History => {
            if fields == 8 {
                Some(&[0, 1, 2, 3, 4, 6])
            } else {
                at_count(11, &[3, 4, 5, 6, 7, 9], fields)
            }
        }
        Table::NewOrder => at_count(3, &[0, 1, 2], fields),
        Table::Order => at_count(8, &[0, 1, 2, 3, 5, 6, 7], fields),
        Table::OrderLine => at_count(10, &[0, 1, 2, 3, 4, 5, 6, 7, 8], fields),
        Table::Item => at_count(5, &[0], fields),
        Table::Stock => at_count(17, &[0, 1, 2, 13, 14, 15], fields),
    }
}
