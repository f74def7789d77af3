//! Nine files to nine tables, a table at a time: its file is read, and its rows are put behind the
//! rows that they refer to. Once a line can't be read no more rows are put, and the files that are
//! left are read for their faults.
ghost use Rattle.std.specs.Prelude.{◌≡◌, IfOk, MatchResult};
ghost use Rattle.oe_file_tables.specs.Tables.{TableReadAs};
ghost use Rattle.oe_store.specs.Places.{rows};
ghost use Rattle.oe_file_loading.specs.Base.{OnlyBase, OnlyHomes, base_rows};
ghost use Rattle.oe_file_loading.specs.Loading.{nine_of, KeepsBase, KeepsDeeds};
ghost use Rattle.oe_file_loading.specs.Placing.{HasRow, Puts};
ghost use Rattle.oe_file_loading.specs.Loaded.{TableLoaded, HomesLoaded, BaseLoaded, DeedsLoaded};
ghost use Rattle.oe_file_loading.specs.Loaded.{FilesLoaded, IsLoaded, IsNotLoaded};

use crate::base::Base;
use crate::counts::RowCounts;
use crate::places::Placing;
use crate::putting::{keep_homes, put_rows};
use oe_file_tables::{Batches, Faults, Format, RowLine, Stop, read_table_as};
use oe_io::ports::Intake;
use oe_rows::{
    Customer, CustomerKey, District, DistrictKey, History, HistoryKey, Item, ItemKey, Key,
    NewOrder, NewOrderKey, Order, OrderKey, OrderLine, OrderLineKey, Stock, StockKey, Warehouse,
    WarehouseKey,
};
use oe_store::Tables;
use oe_values::TableKey;
use std::alloc::Global;

/// The readers of the nine files.
#[derive(Drop)]
pub struct Sources<S> {
    pub warehouse: S,
    pub district: S,
    pub customer: S,
    pub history: S,
    pub new_order: S,
    pub order: S,
    pub order_line: S,
    pub item: S,
    pub stock: S,
}

/// A row that is set apart, and the first of its references that has no row.
#[derive(Clone, Copy)]
pub struct Apart {
    pub key: Key,
    pub missing: Key,
}

/// Why files are not loaded.
#[derive(Drop)]
pub enum LoadError {
    /// Lines can't be read: the first twenty faults, and how many there are.
    Unreadable(Faults),
    /// A file was not read to its end, or there was no memory.
    Stopped(Stop),
}

/// Tables, the rows that are set apart, and how many rows there were of each table.
#[derive(Drop)]
pub struct Loaded {
    pub tables: Tables,
    pub apart: Vec<Apart>,
    pub counts: RowCounts,
}

// Warehouses with their districts, and how many rows the two files have.
#[derive(Drop)]
struct Housed {
    base: Base,
    warehouses: u64,
    districts: u64,
}

// Tables of what orders refer to, and how many rows the five files have.
#[derive(Drop)]
struct Begun {
    tables: Tables,
    warehouses: u64,
    districts: u64,
    customers: u64,
    items: u64,
    stocks: u64,
}

// How many rows the files of orders have, and of what refers to orders.
#[derive(Clone, Copy)]
struct DeedCounts {
    orders: u64,
    order_lines: u64,
    new_orders: u64,
    histories: u64,
}

/// Reads a table's file, puts its rows where no line was a fault up to now, and counts them.
fn load_table<K: TableKey + Copy + Drop, R: RowLine<K> + Drop, S: Intake, T: Placing<K, R>>(
    alloc: Global,
    format: Format,
    source: &mut S,
    into: &mut T,
    faults: &mut Faults,
    apart: &mut Vec<Apart>,
) -> Result<u64, Stop>
    requires { (k : K) → HasRow (T.rows_in into.old) (R.key_of k) → ⊥ }
    ensures { IfOk result (λ n. TableLoaded (TableReadAs format K.cmp R.key_of R.spells R.own_table)
        (Puts R.key_of T.refers T.with_row) (S.source source.old) (S.source source.new) faults.old
        faults.new (T.rows_in into.old) (T.rows_in into.new) apart.old.items apart.new.items n) }
{
    let file_rows: Batches<K, R> = match read_table_as(alloc, format, source, faults) {
        Ok(file_rows) => file_rows,
        Err(stop) => return Err(stop),
    };
    let count = file_rows.len();
    if faults.count() > 0 {
        return Ok(count);
    }
    match put_rows(file_rows, into, apart) {
        Ok(()) => Ok(count),
        Err(_) => Err(Stop::NoMemory),
    }
}

// Reads the files of warehouses and districts, and keeps their rows where no line is a fault.
fn load_homes<S: Intake>(
    alloc: Global,
    format: Format,
    warehouse: &mut S,
    district: &mut S,
    faults: &mut Faults,
    apart: &mut Vec<Apart>,
) -> Result<Housed, Stop>
    ensures loaded { IfOk result (λ h. HomesLoaded format (S.source warehouse.old)
        (S.source warehouse.new) (S.source district.old) (S.source district.new) faults.old
        faults.new (base_rows h.base) apart.old.items apart.new.items h.warehouses h.districts) }
    ensures only { IfOk result (λ h. OnlyHomes (base_rows h.base)) }
{
    let warehouse_rows = match read_table_as(alloc, format, warehouse, faults) {
        Ok(file_rows) => file_rows,
        Err(stop) => return Err(stop),
    };
    let district_rows = match read_table_as(alloc, format, district, faults) {
        Ok(file_rows) => file_rows,
        Err(stop) => return Err(stop),
    };
    let warehouses = warehouse_rows.len();
    let districts = district_rows.len();
    if faults.count() > 0 {
        return Ok(Housed {
            base: Base::new(alloc),
            warehouses,
            districts,
        });
    }
    match keep_homes(alloc, warehouse_rows, district_rows, apart) {
        Ok(base) => Ok(Housed {
            base,
            warehouses,
            districts,
        }),
        Err(_) => Err(Stop::NoMemory),
    }
}

// Reads the files of what orders refer to, and puts their rows.
fn load_base<S: Intake>(
    alloc: Global,
    format: Format,
    sources: &mut Sources<S>,
    faults: &mut Faults,
    apart: &mut Vec<Apart>,
) -> Result<Begun, Stop>
    ensures others { KeepsDeeds (nine_of S.source sources.old) (nine_of S.source sources.new) }
    ensures loaded { IfOk result (λ b. BaseLoaded format (nine_of S.source sources.old)
        (nine_of S.source sources.new) faults.old faults.new (rows b.tables) apart.old.items
        apart.new.items b) }
    ensures only { IfOk result (λ b. OnlyBase (rows b.tables)) }
{
    let homes = load_homes(
        alloc,
        format,
        &mut sources.warehouse,
        &mut sources.district,
        faults,
        apart,
    )?;
    let Housed {
        mut base,
        warehouses,
        districts,
    } = homes;
    let customers = load_table::<CustomerKey, Customer, _, _>(
        alloc,
        format,
        &mut sources.customer,
        &mut base,
        faults,
        apart,
    )?;
    let items = load_table::<ItemKey, Item, _, _>(
        alloc,
        format,
        &mut sources.item,
        &mut base,
        faults,
        apart,
    )?;
    let stocks = load_table::<StockKey, Stock, _, _>(
        alloc,
        format,
        &mut sources.stock,
        &mut base,
        faults,
        apart,
    )?;
    Ok(Begun {
        tables: base.into_tables(alloc),
        warehouses,
        districts,
        customers,
        items,
        stocks,
    })
}

// Reads the files of orders and of what refers to orders, and puts their rows.
fn load_deeds<S: Intake>(
    alloc: Global,
    format: Format,
    tables: &mut Tables,
    sources: &mut Sources<S>,
    faults: &mut Faults,
    apart: &mut Vec<Apart>,
) -> Result<DeedCounts, Stop>
    requires { OnlyBase (rows tables.old) }
    ensures others { KeepsBase (nine_of S.source sources.old) (nine_of S.source sources.new) }
    ensures loaded { IfOk result (λ d. DeedsLoaded format (nine_of S.source sources.old)
        (nine_of S.source sources.new) faults.old faults.new (rows tables.old) (rows tables.new)
        apart.old.items apart.new.items d) }
{
    let orders = load_table::<OrderKey, Order, _, _>(
        alloc,
        format,
        &mut sources.order,
        tables,
        faults,
        apart,
    )?;
    let order_lines = load_table::<OrderLineKey, OrderLine, _, _>(
        alloc,
        format,
        &mut sources.order_line,
        tables,
        faults,
        apart,
    )?;
    let new_orders = load_table::<NewOrderKey, NewOrder, _, _>(
        alloc,
        format,
        &mut sources.new_order,
        tables,
        faults,
        apart,
    )?;
    let histories = load_table::<HistoryKey, History, _, _>(
        alloc,
        format,
        &mut sources.history,
        tables,
        faults,
        apart,
    )?;
    Ok(DeedCounts {
        orders,
        order_lines,
        new_orders,
        histories,
    })
}

// Reads all files, and puts their rows where each line could be read.
fn load_all<S: Intake>(
    alloc: Global,
    format: Format,
    sources: &mut Sources<S>,
    faults: &mut Faults,
) -> Result<Loaded, Stop>
    ensures { IfOk result (λ l. FilesLoaded format (nine_of S.source sources.old)
        (nine_of S.source sources.new) faults.old faults.new (rows l.tables) l.apart.items
        l.counts) }
{
    let mut apart = Vec::new(alloc);
    let begun = match load_base(alloc, format, sources, faults, &mut apart) {
        Ok(begun) => begun,
        Err(stop) => return Err(stop),
    };
    let Begun {
        mut tables,
        warehouses,
        districts,
        customers,
        items,
        stocks,
    } = begun;
    match load_deeds(alloc, format, &mut tables, sources, faults, &mut apart) {
        Ok(deeds) => Ok(Loaded {
            tables,
            apart,
            counts: RowCounts {
                warehouses,
                districts,
                customers,
                histories: deeds.histories,
                new_orders: deeds.new_orders,
                orders: deeds.orders,
                order_lines: deeds.order_lines,
                items,
                stocks,
            },
        }),
        Err(stop) => {
            tables.discard();
            Err(stop)
        }
    }
}

/// Loads the tables of nine files of a format, a table at a time.
///
/// Each line spells a row of its table, or says as the last one how many rows there are. Rows stand
/// in any order. A row whose reference finds no row that is kept (clauses 1.3 and 1.4) is set
/// apart: each warehouse has to have ten districts. The counts are of the rows whose lines stand in
/// each file, those set apart too.
///
/// Where a line can't be read, or a key stands twice, the answer is `Unreadable`: it has the faults
/// of all files in this order: warehouse, district, customer, item, stock, order, order line, new
/// order, history. `Stopped` where a read fails or there is no memory.
pub fn load<S: Intake>(
    alloc: Global,
    format: Format,
    sources: &mut Sources<S>,
) -> Result<Loaded, LoadError>
    ensures { MatchResult result
        (IsLoaded format (nine_of S.source sources.old) (nine_of S.source sources.new))
        (IsNotLoaded format (nine_of S.source sources.old) (nine_of S.source sources.new)) }
{
    let Ok(mut faults) = Faults::new(alloc) else {
        return Err(LoadError::Stopped(Stop::NoMemory));
    };
    match load_all(alloc, format, sources, &mut faults) {
        Ok(loaded) => {
            if faults.count() > 0 {
                loaded.tables.discard();
                return Err(LoadError::Unreadable(faults));
            }
            Ok(loaded)
        }
        Err(stop) => Err(LoadError::Stopped(stop)),
    }
}
