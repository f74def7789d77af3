//! Tables by their names, in any case: in a statement a schema and a point may stand before the
//! name, and quotes around it; a file's name may have an ending.
ghost use Rattle.std.specs.Prelude.{◌≡◌, map};
ghost use Rattle.std.specs.Option.{option_map};
ghost use Rattle.oe_facts.specs.declared.tables.Table.{Table};
ghost use Rattle.oe_sources.specs.Name.{is_same, names, lookup, parted_at, behind_point, without_prefix, table_named, is_ending, without_ending, table_of_file, statement_of};

use crate::texts::{after, before};
use oe_columns::bare;
use oe_facts::Table;

/// A name of a table.
struct TableName {
    name: &'static str,
    table: Table,
}

const NAMES: [TableName; 13] = [
    TableName {
        name: "warehouse",
        table: Table::Warehouse,
    },
    TableName {
        name: "district",
        table: Table::District,
    },
    TableName {
        name: "customer",
        table: Table::Customer,
    },
    TableName {
        name: "history",
        table: Table::History,
    },
    TableName {
        name: "new_order",
        table: Table::NewOrder,
    },
    TableName {
        name: "neworder",
        table: Table::NewOrder,
    },
    TableName {
        name: "order",
        table: Table::Order,
    },
    TableName {
        name: "orders",
        table: Table::Order,
    },
    TableName {
        name: "oorder",
        table: Table::Order,
    },
    TableName {
        name: "order_line",
        table: Table::OrderLine,
    },
    TableName {
        name: "orderline",
        table: Table::OrderLine,
    },
    TableName {
        name: "item",
        table: Table::Item,
    },
    TableName {
        name: "stock",
        table: Table::Stock,
    },
];

/// Tells whether two names are one, in any case.
fn is_same(a: &[u8], b: &[u8]) -> bool
    ensures { result ≡ is_same a.now b.now }
{
    a.eq_ignore_ascii_case(b)
}

/// Gives the known names.
fn known_names() -> &'static [TableName]
    ensures { map (λ n. (n.name.now, n.table)) result.now ≡ names }
{
    &NAMES
}

/// Finds the table of a name.
fn look_up(name: &[u8]) -> Option<Table>
    ensures { result ≡ lookup names name.now }
{
    for known in known_names() {
        if is_same(name, known.name.as_bytes()) {
            return Some(known.table);
        }
    }
    None
}

/// Parts a text at the first byte of that kind, which goes.
fn part_at(byte: u8, text: &[u8]) -> Option<(&[u8], &[u8])>
    ensures { option_map (λ p. (p.0.now, p.1.now)) result ≡ parted_at byte text.now }
{
    for (i, b) in text.iter().enumerate() {
        if *b == byte {
            return Some((&text[..i], &text[i + 1..]));
        }
    }
    None
}

/// Gives a name without a schema and a point before it.
fn behind_point(name: &[u8]) -> &[u8]
    ensures { result.now ≡ behind_point name.now }
{
    match part_at(b'.', name) {
        Some((_, rest)) => rest,
        None => name,
    }
}

/// Gives a name without `bmsql_` before it.
#[tactic(auto, unfolding(crate::specs::Name::without_prefix))]
fn unprefixed(name: &[u8]) -> &[u8]
    ensures { result.now ≡ without_prefix name.now }
{
    if name.len() < 6 {
        return name;
    }
    let (front, rest) = name.split_at(6);
    if is_same(front, b"bmsql_") {
        rest
    } else {
        name
    }
}

/// Finds the table of a name as a statement has it.
#[tactic(auto, unfolding(crate::specs::Name::table_named))]
pub fn table_named(name: &[u8]) -> Option<Table>
    ensures { result ≡ table_named name.now }
{
    look_up(unprefixed(bare(behind_point(name))))
}

/// Tells whether a text is the ending of a file's name.
#[tactic(auto, unfolding(crate::specs::Name::is_ending))]
fn is_ending(text: &[u8]) -> bool
    ensures { result ≡ is_ending text.now }
{
    is_same(text, b".txt")
        || is_same(text, b".tbl")
        || is_same(text, b".tsv")
        || is_same(text, b".csv")
}

/// Gives a file's name without its ending.
#[tactic(auto, unfolding(crate::specs::Name::without_ending))]
fn unended(name: &[u8]) -> &[u8]
    ensures { result.now ≡ without_ending name.now }
{
    if name.len() < 4 {
        return name;
    }
    let (front, end) = name.split_at(name.len() - 4);
    if is_ending(end) { front } else { name }
}

/// Finds the table of a file by the file's name.
#[tactic(auto, unfolding(crate::specs::Name::table_of_file))]
pub fn table_of_file(name: &[u8]) -> Option<Table>
    ensures { result ≡ table_of_file name.now }
{
    table_named(unended(name))
}

/// Reads the statement that begins a section of one of the tables.
#[tactic(auto, unfolding(crate::specs::Name::statement_of))]
pub(crate) fn statement(text: &[u8]) -> Option<(Table, &[u8])>
    ensures { option_map (λ p. (p.0, p.1.now)) result ≡ statement_of text.now }
{
    let rest = after(text, b"COPY ")?;
    let rest = before(rest, b") FROM stdin;")?;
    let (name, rest) = part_at(b' ', rest)?;
    let columns = after(rest, b"(")?;
    let table = table_named(name)?;
    Some((table, columns))
}
