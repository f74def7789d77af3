//! The fact that a row spells, table by table. A fact is made exactly where each of its columns has
//! a value; the only error is the first column that has none.
ghost use Rattle.std.specs.Prelude.{◌≡◌, IfOk};
ghost use Rattle.oe_facts.specs.Table.{table_of};
ghost use Rattle.oe_facts.specs.declared.tables.Table.TheVariants as table;
ghost use Rattle.oe_columns.specs.Facts.{values_in, read_values};

use crate::rows::{Misfit, Row};
use oe_facts::{
    CustomerFact, CustomerId, DistrictFact, DistrictId, Fact, HistoryFact, ItemFact, NewOrderFact,
    OrderFact, OrderId, OrderLineFact, StockFact, StockId, Table, WarehouseFact,
};

/// Reads W_ID and W_YTD.
#[inline]
#[tactic(auto, unfolding(crate::specs::Facts::values_in))]
fn warehouse(row: &mut Row<'_>) -> Result<Fact, Misfit>
    ensures same { row.new ≡ row.old }
    ensures value { read_values result ≡ values_in table.Warehouse row.old }
    ensures of_table { IfOk result (λ f. table_of f ≡ table.Warehouse) }
{
    let warehouse = row.id(0)?;
    let ytd = row.amount(1)?;
    Ok(Fact::Warehouse(WarehouseFact { warehouse, ytd }))
}

/// Reads D_W_ID, D_ID, D_YTD and D_NEXT_O_ID.
#[inline]
#[tactic(auto, unfolding(crate::specs::Facts::values_in))]
fn district(row: &mut Row<'_>) -> Result<Fact, Misfit>
    ensures same { row.new ≡ row.old }
    ensures value { read_values result ≡ values_in table.District row.old }
    ensures of_table { IfOk result (λ f. table_of f ≡ table.District) }
{
    let warehouse = row.id(0)?;
    let district = row.district(1)?;
    let ytd = row.amount(2)?;
    let next_order = row.id(3)?;
    Ok(Fact::District(DistrictFact {
        key: DistrictId {
            warehouse,
            district,
        },
        ytd,
        next_order,
    }))
}

/// Reads the seven columns of a CUSTOMER row.
#[inline]
#[tactic(auto, unfolding(crate::specs::Facts::values_in))]
fn customer(row: &mut Row<'_>) -> Result<Fact, Misfit>
    ensures same { row.new ≡ row.old }
    ensures value { read_values result ≡ values_in table.Customer row.old }
    ensures of_table { IfOk result (λ f. table_of f ≡ table.Customer) }
{
    let warehouse = row.id(0)?;
    let district = row.district(1)?;
    let customer = row.id(2)?;
    let balance = row.amount(3)?;
    let ytd_payment = row.amount(4)?;
    let payments = row.counter(5)?;
    let deliveries = row.counter(6)?;
    Ok(Fact::Customer(CustomerFact {
        key: CustomerId {
            warehouse,
            district,
            customer,
        },
        balance,
        ytd_payment,
        payments,
        deliveries,
    }))
}

/// Reads the six columns of a HISTORY row.
#[inline]
#[tactic(auto, unfolding(crate::specs::Facts::values_in))]
fn history(row: &mut Row<'_>) -> Result<Fact, Misfit>
    ensures same { row.new ≡ row.old }
    ensures value { read_values result ≡ values_in table.History row.old }
    ensures of_table { IfOk result (λ f. table_of f ≡ table.History) }
{
    let customer = row.id(0)?;
    let customer_district = row.district(1)?;
    let customer_warehouse = row.id(2)?;
    let district = row.district(3)?;
    let warehouse = row.id(4)?;
    let amount = row.amount(5)?;
    Ok(Fact::History(HistoryFact {
        customer: CustomerId {
            warehouse: customer_warehouse,
            district: customer_district,
            customer,
        },
        district: DistrictId {
            warehouse,
            district,
        },
        amount,
    }))
}

/// Reads NO_W_ID, NO_D_ID and NO_O_ID.
#[inline]
#[tactic(auto, unfolding(crate::specs::Facts::values_in))]
fn new_order(row: &mut Row<'_>) -> Result<Fact, Misfit>
    ensures same { row.new ≡ row.old }
    ensures value { read_values result ≡ values_in table.NewOrder row.old }
    ensures of_table { IfOk result (λ f. table_of f ≡ table.NewOrder) }
{
    let warehouse = row.id(0)?;
    let district = row.district(1)?;
    let order = row.id(2)?;
    Ok(Fact::NewOrder(NewOrderFact {
        key: OrderId {
            warehouse,
            district,
            order,
        },
    }))
}

/// Reads the seven columns of an ORDER row.
#[inline]
#[tactic(auto, unfolding(crate::specs::Facts::values_in))]
fn order(row: &mut Row<'_>) -> Result<Fact, Misfit>
    ensures same { row.new ≡ row.old }
    ensures value { read_values result ≡ values_in table.Order row.old }
    ensures of_table { IfOk result (λ f. table_of f ≡ table.Order) }
{
    let warehouse = row.id(0)?;
    let district = row.district(1)?;
    let order = row.id(2)?;
    let customer = row.id(3)?;
    let is_delivered = row.presence(4)?;
    let line_count = row.small(5)?;
    let is_all_local = row.flag(6)?;
    Ok(Fact::Order(OrderFact {
        key: OrderId {
            warehouse,
            district,
            order,
        },
        customer,
        is_delivered,
        line_count,
        is_all_local,
    }))
}

/// Reads the nine columns of an ORDER-LINE row.
#[inline]
#[tactic(auto, unfolding(crate::specs::Facts::values_in))]
fn order_line(row: &mut Row<'_>) -> Result<Fact, Misfit>
    ensures same { row.new ≡ row.old }
    ensures value { read_values result ≡ values_in table.OrderLine row.old }
    ensures of_table { IfOk result (λ f. table_of f ≡ table.OrderLine) }
{
    let warehouse = row.id(0)?;
    let district = row.district(1)?;
    let order = row.id(2)?;
    let number = row.line_number(3)?;
    let item = row.id(4)?;
    let supply = row.id(5)?;
    let is_delivered = row.presence(6)?;
    let quantity = row.small(7)?;
    let amount = row.amount(8)?;
    Ok(Fact::OrderLine(OrderLineFact {
        order: OrderId {
            warehouse,
            district,
            order,
        },
        number,
        item,
        supply,
        is_delivered,
        quantity,
        amount,
    }))
}

/// Reads I_ID.
#[inline]
#[tactic(auto, unfolding(crate::specs::Facts::values_in))]
fn item(row: &mut Row<'_>) -> Result<Fact, Misfit>
    ensures same { row.new ≡ row.old }
    ensures value { read_values result ≡ values_in table.Item row.old }
    ensures of_table { IfOk result (λ f. table_of f ≡ table.Item) }
{
    let item = row.id(0)?;
    Ok(Fact::Item(ItemFact { item }))
}

/// Reads the six columns of a STOCK row.
#[inline]
#[tactic(auto, unfolding(crate::specs::Facts::values_in))]
fn stock(row: &mut Row<'_>) -> Result<Fact, Misfit>
    ensures same { row.new ≡ row.old }
    ensures value { read_values result ≡ values_in table.Stock row.old }
    ensures of_table { IfOk result (λ f. table_of f ≡ table.Stock) }
{
    let warehouse = row.id(0)?;
    let item = row.id(1)?;
    let quantity = row.quantity(2)?;
    let ytd = row.counter(3)?;
    let orders = row.counter(4)?;
    let remotes = row.counter(5)?;
    Ok(Fact::Stock(StockFact {
        key: StockId { warehouse, item },
        quantity,
        ytd,
        orders,
        remotes,
    }))
}

/// Reads the fact of a row of the table.
#[inline]
pub fn read_fact(table: Table, row: &mut Row<'_>) -> Result<Fact, Misfit>
    ensures same { row.new ≡ row.old }
    ensures value { read_values result ≡ values_in table row.old }
    ensures of_table { IfOk result (λ f. table_of f ≡ table) }
{
    match table {
        Table::Warehouse => warehouse(row),
        Table::District => district(row),
        Table::Customer => customer(row),
        Table::History => history(row),
        Table::NewOrder => new_order(row),
        Table::Order => order(row),
        Table::OrderLine => order_line(row),
        Table::Item => item(row),
        Table::Stock => stock(row),
    }
}
