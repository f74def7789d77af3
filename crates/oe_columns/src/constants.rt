//! The columns that no transaction of the standard changes (clauses 2.4 to 2.8), in the table's
//! order (clause 1.3.1), and their places on a line: by their names in a heading, or by the order
//! of a dump.
//!
//! Only WAREHOUSE, DISTRICT, CUSTOMER, ITEM and STOCK have such columns here: an order's rows are
//! not compared. C_DATA changes with payments of bad credit (clause 2.5.2.2), and is no such column.
//! A column that a heading does not name or names twice is an error, and so is a first line that is
//! no heading and has not as many fields as a dump's.
ghost use Rattle.std.specs.Prelude.{◌≡◌, ◌≤◌, [], length, map, IfSome};
ghost use Rattle.std.specs.Option.{option_map};
ghost use Rattle.oe_columns.specs.Columns.{at_count};
ghost use Rattle.oe_columns.specs.Constants.{constants_of, constant_of, dump_constants, heading_constants, constants_in, wanted_constants};
ghost use Rattle.oe_fields.specs.Parting.{fields_of};

use crate::columns::fact_columns;
use crate::headings::{LayoutFault, find_name, is_heading, placed};
use arrayvec::ArrayVec;
use oe_facts::Table;
use oe_fields::{Format, count_fields};
use std::marker::Model;

/// A table has at most this many columns that no transaction changes.
pub const MOST_CONSTANTS: usize = 13;

/// What is read of rows.
#[derive(Clone, Copy)]
pub enum Wanted {
    /// Their facts alone.
    Facts,
    /// Their facts, and the prints of the columns that no transaction changes.
    Prints,
}

/// How the fields of a column are compared.
#[derive(Clone, Copy)]
pub enum Form {
    /// As they stand.
    Text,
    /// Without the zeros before a number and those that end its decimals.
    Number,
}

/// A column that no transaction changes.
pub struct Constant {
    pub name: &'static str,
    pub form: Form,
}

const WAREHOUSE: [Constant; 7] = [
    Constant {
        name: "W_NAME",
        form: Form::Text,
    },
    Constant {
        name: "W_STREET_1",
        form: Form::Text,
    },
    Constant {
        name: "W_STREET_2",
        form: Form::Text,
    },
    Constant {
        name: "W_CITY",
        form: Form::Text,
    },
    Constant {
        name: "W_STATE",
        form: Form::Text,
    },
    Constant {
        name: "W_ZIP",
        form: Form::Text,
    },
    Constant {
        name: "W_TAX",
        form: Form::Number,
    },
];

const DISTRICT: [Constant; 7] = [
    Constant {
        name: "D_NAME",
        form: Form::Text,
    },
    Constant {
        name: "D_STREET_1",
        form: Form::Text,
    },
    Constant {
        name: "D_STREET_2",
        form: Form::Text,
    },
    Constant {
        name: "D_CITY",
        form: Form::Text,
    },
    Constant {
        name: "D_STATE",
        form: Form::Text,
    },
    Constant {
        name: "D_ZIP",
        form: Form::Text,
    },
    Constant {
        name: "D_TAX",
        form: Form::Number,
    },
];

const CUSTOMER: [Constant; 13] = [
    Constant {
        name: "C_FIRST",
        form: Form::Text,
    },
    Constant {
        name: "C_MIDDLE",
        form: Form::Text,
    },
    Constant {
        name: "C_LAST",
        form: Form::Text,
    },
    Constant {
        name: "C_STREET_1",
        form: Form::Text,
    },
    Constant {
        name: "C_STREET_2",
        form: Form::Text,
    },
    Constant {
        name: "C_CITY",
        form: Form::Text,
    },
    Constant {
        name: "C_STATE",
        form: Form::Text,
    },
    Constant {
        name: "C_ZIP",
        form: Form::Text,
    },
    Constant {
        name: "C_PHONE",
        form: Form::Text,
    },
    Constant {
        name: "C_SINCE",
        form: Form::Text,
    },
    Constant {
        name: "C_CREDIT",
        form: Form::Text,
    },
    Constant {
        name: "C_CREDIT_LIM",
        form: Form::Number,
    },
    Constant {
        name: "C_DISCOUNT",
        form: Form::Number,
    },
];

const ITEM: [Constant; 4] = [
    Constant {
        name: "I_IM_ID",
        form: Form::Number,
    },
    Constant {
        name: "I_NAME",
        form: Form::Text,
    },
    Constant {
        name: "I_PRICE",
        form: Form::Number,
    },
    Constant {
        name: "I_DATA",
        form: Form::Text,
    },
];

const STOCK: [Constant; 11] = [
    Constant {
        name: "S_DIST_01",
        form: Form::Text,
    },
    Constant {
        name: "S_DIST_02",
        form: Form::Text,
    },
    Constant {
        name: "S_DIST_03",
        form: Form::Text,
    },
    Constant {
        name: "S_DIST_04",
        form: Form::Text,
    },
    Constant {
        name: "S_DIST_05",
        form: Form::Text,
    },
    Constant {
        name: "S_DIST_06",
        form: Form::Text,
    },
    Constant {
        name: "S_DIST_07",
        form: Form::Text,
    },
    Constant {
        name: "S_DIST_08",
        form: Form::Text,
    },
    Constant {
        name: "S_DIST_09",
        form: Form::Text,
    },
    Constant {
        name: "S_DIST_10",
        form: Form::Text,
    },
    Constant {
        name: "S_DATA",
        form: Form::Text,
    },
];

/// Gives the columns of the table that no transaction changes, in the table's order.
pub fn constant_columns(table: Table) -> &'static [Constant]
    ensures value { map constant_of result.now ≡ constants_of table }
    ensures most { length result.now ≤ 13 }
{
    match table {
        Table::Warehouse => &WAREHOUSE,
        Table::District => &DISTRICT,
        Table::Customer => &CUSTOMER,
        Table::Item => &ITEM,
        Table::Stock => &STOCK,
        Table::History | Table::NewOrder | Table::Order | Table::OrderLine => &[],
    }
}

/// Gives the places, where the line has that many fields.
fn at_count(count: usize, places: &'static [usize], fields: usize) -> Option<&'static [usize]>
    requires { length places.now ≤ 13 }
    ensures value { option_map (λ p. p.now) result ≡ at_count count places.now fields }
    ensures most { IfSome result (λ p. length p.now ≤ 13) }
{
    if fields == count { Some(places) } else { None }
}

/// Gives the places of these columns on a line of a dump that has that many fields. `None` where
/// the table's dump has another number.
#[tactic(auto, unfolding(crate::specs::Constants::dump_constants))]
fn dump_constants(table: Table, fields: usize) -> Option<&'static [usize]>
    ensures value { option_map (λ p. p.now) result ≡ dump_constants table fields }
    ensures most { IfSome result (λ p. length p.now ≤ 13) }
{
    match table {
        Table::Warehouse => at_count(9, &[1, 2, 3, 4, 5, 6, 7], fields),
        Table::District => at_count(11, &[2, 3, 4, 5, 6, 7, 8], fields),
        Table::Customer => { at_count(21, &[3, 4, 5, 6, 7, 8, 9, 10, 11, 12, 13, 14, 15], fields) }
        Table::Item => at_count(5, &[1, 2, 3, 4], fields),
        Table::Stock => at_count(17, &[3, 4, 5, 6, 7, 8, 9, 10, 11, 12, 16], fields),
        Table::History | Table::NewOrder | Table::Order | Table::OrderLine => Some(&[]),
    }
}

/// The places of the columns that no transaction changes, in the table's order; none where they
/// are not read.
#[derive(Drop)]
pub struct Constants {
    at: ArrayVec<usize, MOST_CONSTANTS>,
}

impl Model for Constants {
    ghost use Rattle.std.specs.Prelude.{ℕ, List};

    ghost Value = { List ℕ };

    ghost view = { λ c. c.at.items };
}

impl Constants {
    /// Gives the places.
    #[inline]
    pub fn as_slice(&self) -> &[usize]
        ensures { result.now ≡ self.now }
    {
        self.at.as_slice()
    }

    /// Gives no places.
    fn none() -> Constants
        ensures { result ≡ [] }
    {
        Constants {
            at: ArrayVec::new(),
        }
    }

    /// Takes the places of a dump.
    fn of_dump(places: &[usize]) -> Constants
        requires { length places.now ≤ 13 }
        ensures { result ≡ places.now }
    {
        let mut at = ArrayVec::new();
        for place in places {
            at.push(*place);
        }
        Constants { at }
    }
}

/// Finds the places of the columns in a heading. In a fault they are counted behind the columns
/// that a fact needs.
fn heading_places(table: Table, format: Format, line: &[u8]) -> Result<Constants, LayoutFault>
    ensures { result ≡ heading_constants table (fields_of format line.now) }
{
    let before = fact_columns(table).len();
    let mut at = ArrayVec::new();
    for (column, wanted) in constant_columns(table).iter().enumerate() {
        match placed(before + column, find_name(wanted.name, format, line)) {
            Ok(place) => at.push(place),
            Err(fault) => return Err(fault),
        }
    }
    Ok(Constants { at })
}

/// Finds the places of the columns in a heading, where prints are wanted, and else none.
#[tactic(auto, unfolding(crate::specs::Constants::wanted_constants))]
pub fn heading_constants(
    wanted: Wanted,
    table: Table,
    format: Format,
    line: &[u8],
) -> Result<Constants, LayoutFault>
    ensures { result
        ≡ wanted_constants wanted (heading_constants table (fields_of format line.now)) }
{
    match wanted {
        Wanted::Facts => Ok(Constants::none()),
        Wanted::Prints => heading_places(table, format, line),
    }
}

/// Finds the places of the columns by a file's first line, a heading or a row.
#[tactic(auto, unfolding(crate::specs::Constants::constants_in))]
fn first_places(table: Table, format: Format, line: &[u8]) -> Result<Constants, LayoutFault>
    ensures { result ≡ constants_in table (fields_of format line.now) }
{
    if is_heading(format, line) {
        return heading_places(table, format, line);
    }
    let fields = count_fields(format, line);
    match dump_constants(table, fields) {
        Some(places) => Ok(Constants::of_dump(places)),
        None => Err(LayoutFault::Fields(fields)),
    }
}

/// Finds the places of the columns by a file's first line, where prints are wanted, and else none.
#[tactic(auto, unfolding(crate::specs::Constants::wanted_constants))]
pub fn first_constants(
    wanted: Wanted,
    table: Table,
    format: Format,
    line: &[u8],
) -> Result<Constants, LayoutFault>
    ensures { result ≡ wanted_constants wanted (constants_in table (fields_of format line.now)) }
{
    match wanted {
        Wanted::Facts => Ok(Constants::none()),
        Wanted::Prints => first_places(table, format, line),
    }
}
