//! Nine files beside nine tables, one after another: each file is read to its rows, and these are
//! compared before the next is read.
ghost use Rattle.std.specs.Prelude.{◌≡◌, OnOk};
ghost use Rattle.oe_rows.specs.Key.{history_cmp};
ghost use Rattle.oe_rows.specs.declared.keys.Key.TheVariants as kind;
ghost use Rattle.oe_rows.specs.declared.keys.Table.TheVariants as table;
ghost use Rattle.oe_file_tables.specs.Fault.{no_faults};
ghost use Rattle.oe_file_tables.specs.Rows.{SpellsHistory};
ghost use Rattle.oe_file_loading.specs.Loading.{nine_of};
ghost use Rattle.oe_store.specs.Places.{rows};
ghost use Rattle.oe_comparison.specs.Tables.{IsTold, AreHistoriesTold, TableCompared, HomesCompared, DeedsCompared, GoodsCompared, KeepsHomes, KeepsDeeds, KeepsGoods, TablesCompared};
ghost use Rattle.oe_comparison.specs.Texts.{nothing_told};

use crate::histories::compare_histories;
use crate::reports::Report;
use crate::rows::ComparedRow;
use crate::walks::compare_rows;
use oe_dumps::DumpedRow;
use oe_file_loading::Sources;
use oe_file_tables::{Faults, Format, RowLine, Stop, read_table_as};
use oe_io::ports::Intake;
use oe_rows::{History, HistoryKey};
use oe_store::Tables;
use oe_table::shelf_walks::Rows;
use oe_values::TableKey;
use std::alloc::Global;

// Reads a table's file, and compares its rows with the table's.
fn compare_table<K: TableKey + Drop, R: RowLine<K> + DumpedRow<K> + ComparedRow + Drop, S: Intake>(
    alloc: Global,
    format: Format,
    source: &mut S,
    ours: Rows<'_, K, R>,
    faults: &mut Faults,
    report: &mut Report,
) -> Result<(), Stop>
    ensures { OnOk result (TableCompared format K.cmp R.key_of R.spells R.own_table
        (IsTold R.own_table K.cmp R.key_of R.columns) (S.source source.old) (S.source source.new)
        faults.old faults.new ours.entry report.old report.new) }
{
    let theirs = match read_table_as::<K, R, S>(alloc, format, source, faults) {
        Ok(theirs) => theirs,
        Err(stop) => return Err(stop),
    };
    match compare_rows(&theirs, ours, report) {
        Ok(()) => Ok(()),
        Err(_) => Err(Stop::NoMemory),
    }
}

// Reads the file of HISTORY, and compares its rows with the table's.
fn compare_history<S: Intake>(
    alloc: Global,
    format: Format,
    source: &mut S,
    ours: Rows<'_, HistoryKey, History>,
    faults: &mut Faults,
    report: &mut Report,
) -> Result<(), Stop>
    ensures { OnOk result (TableCompared format history_cmp (λ k. kind.History k) SpellsHistory
        table.History AreHistoriesTold (S.source source.old) (S.source source.new) faults.old
        faults.new ours.entry report.old report.new) }
{
    let theirs = match read_table_as::<HistoryKey, History, S>(alloc, format, source, faults) {
        Ok(theirs) => theirs,
        Err(stop) => return Err(stop),
    };
    match compare_histories(alloc, &theirs, ours, report) {
        Ok(()) => Ok(()),
        Err(_) => Err(Stop::NoMemory),
    }
}

// Compares warehouses, districts and customers.
fn compare_homes<S: Intake>(
    alloc: Global,
    format: Format,
    tables: &Tables,
    from: &mut Sources<S>,
    faults: &mut Faults,
    report: &mut Report,
) -> Result<(), Stop>
    ensures others { KeepsDeeds (nine_of S.source from.old) (nine_of S.source from.new)
        × KeepsGoods (nine_of S.source from.old) (nine_of S.source from.new) }
    ensures compared { OnOk result (HomesCompared format (nine_of S.source from.old)
        (nine_of S.source from.new) (rows tables.now) faults.old faults.new report.old report.new) }
{
    let warehouses = tables.warehouses();
    if let Err(stop) = compare_table(
        alloc,
        format,
        &mut from.warehouse,
        warehouses,
        faults,
        report,
    ) {
        return Err(stop);
    }
    let districts = tables.districts();
    if let Err(stop) = compare_table(alloc, format, &mut from.district, districts, faults, report) {
        return Err(stop);
    }
    compare_table(
        alloc,
        format,
        &mut from.customer,
        tables.customers(),
        faults,
        report,
    )
}

// Compares histories, orders not yet delivered, and orders.
fn compare_deeds<S: Intake>(
    alloc: Global,
    format: Format,
    tables: &Tables,
    from: &mut Sources<S>,
    faults: &mut Faults,
    report: &mut Report,
) -> Result<(), Stop>
    ensures others { KeepsHomes (nine_of S.source from.old) (nine_of S.source from.new)
        × KeepsGoods (nine_of S.source from.old) (nine_of S.source from.new) }
    ensures compared { OnOk result (DeedsCompared format (nine_of S.source from.old)
        (nine_of S.source from.new) (rows tables.now) faults.old faults.new report.old report.new) }
{
    let histories = tables.histories();
    if let Err(stop) = compare_history(
        alloc,
        format,
        &mut from.history,
        histories,
        faults,
        report,
    ) {
        return Err(stop);
    }
    let new_orders = tables.new_orders();
    if let Err(stop) = compare_table(
        alloc,
        format,
        &mut from.new_order,
        new_orders,
        faults,
        report,
    ) {
        return Err(stop);
    }
    compare_table(
        alloc,
        format,
        &mut from.order,
        tables.orders(),
        faults,
        report,
    )
}

// Compares order lines, items and stocks.
fn compare_goods<S: Intake>(
    alloc: Global,
    format: Format,
    tables: &Tables,
    from: &mut Sources<S>,
    faults: &mut Faults,
    report: &mut Report,
) -> Result<(), Stop>
    ensures others { KeepsHomes (nine_of S.source from.old) (nine_of S.source from.new)
        × KeepsDeeds (nine_of S.source from.old) (nine_of S.source from.new) }
    ensures compared { OnOk result (GoodsCompared format (nine_of S.source from.old)
        (nine_of S.source from.new) (rows tables.now) faults.old faults.new report.old report.new) }
{
    let order_lines = tables.order_lines();
    if let Err(stop) = compare_table(
        alloc,
        format,
        &mut from.order_line,
        order_lines,
        faults,
        report,
    ) {
        return Err(stop);
    }
    let items = tables.items();
    if let Err(stop) = compare_table(alloc, format, &mut from.item, items, faults, report) {
        return Err(stop);
    }
    compare_table(
        alloc,
        format,
        &mut from.stock,
        tables.stocks(),
        faults,
        report,
    )
}

/// Reads nine files one after another, and compares the rows of each with a table's. A line that
/// can't be read is a fault, and the files behind it are read all the same.
///
/// `Stop` where a read fails or there is no memory.
pub(crate) fn compare_tables<S: Intake>(
    alloc: Global,
    format: Format,
    tables: &Tables,
    from: &mut Sources<S>,
    faults: &mut Faults,
    report: &mut Report,
) -> Result<(), Stop>
    requires faults { faults.old ≡ no_faults }
    requires report { report.old ≡ nothing_told }
    ensures { OnOk result (TablesCompared format (nine_of S.source from.old)
        (nine_of S.source from.new) (rows tables.now) faults.new report.new) }
{
    if let Err(stop) = compare_homes(alloc, format, tables, from, faults, report) {
        return Err(stop);
    }
    if let Err(stop) = compare_deeds(alloc, format, tables, from, faults, report) {
        return Err(stop);
    }
    compare_goods(alloc, format, tables, from, faults, report)
}
