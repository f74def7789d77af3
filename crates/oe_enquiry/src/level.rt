//! Stock-Level (clause 2.8): how many items of a district's last 20 orders are low in its
//! warehouse.
ghost use Rattle.std.specs.Prelude.{◌≡◌, ◌≤◌, ◌<◌, ◌+◌, ◌-◌, ℕ, [], ◌∷◌, ◌++◌, length, map, IfOk, IfErr};
ghost use Rattle.std.specs.FinMap.{get};
ghost use Rattle.oe_theory.specs.Machine.{Here, Missing};
ghost use Rattle.oe_requests.specs.declared.replies.QueryReply.TheVariants as told;
ghost use Rattle.oe_model.specs.Queries.{stock_level};
ghost use Rattle.oe_model.specs.Rules.{AreLow};
ghost use Rattle.oe_store.specs.Places.{rows};
ghost use Rattle.oe_rows_of.specs.Columns.{quantity_of};
ghost use Rattle.oe_enquiry.specs.Level.{is_short, list_with, stock_in, sold_of, AreStanding, HasQuantity, HaveQuantities};

use crate::items::{Items, Sold};
use oe_requests::{LevelQuery, Refusal};
use oe_rows::{Key, OrderLine, OrderLineKey, StockKey};
use oe_rows_of::RowsOf;
use oe_store::Tables;
use oe_table::shelf_walks::Rows;
use oe_values::lines::Lines;
use oe_values::{Count, ItemNumber, LowStock, OrderNumber, WarehouseNumber};

/// How many lines of a walk are taken at once, so that their stocks wait for memory together.
const AT_ONCE: usize = 16;
/// How many times that is done: there are at most 300 lines.
const PARTS: usize = 19;

/// Gives S_QUANTITY that a stock has now, if there is one.
fn quantity_now(tables: &Tables, warehouse: WarehouseNumber, item: ItemNumber) -> Option<Count>
    ensures { result ≡ quantity_of (get (rows tables.now).stocks (stock_in warehouse item)) }
{
    Some(tables.stock(StockKey { warehouse, item })?.quantity)
}

/// Takes the next 16 lines off a walk, or as many as there are, and gives the items of those that
/// stood, with the quantities of their stocks in the warehouse.
#[inline(never)]
fn take_sold<R: RowsOf>(
    then: &R,
    warehouse: WarehouseNumber,
    walk: &mut Rows<'_, OrderLineKey, OrderLine>,
) -> Lines<Sold, 0, AT_ONCE>
    requires { AreStanding (rows (R.tables_of then.now)) walk.old }
    ensures sold { result
        ++ sold_of (rows (R.tables_of then.now)) (R.rows_of then.now) warehouse walk.new
        ≡ sold_of (rows (R.tables_of then.now)) (R.rows_of then.now) warehouse walk.old }
    ensures standing { AreStanding (rows (R.tables_of then.now)) walk.new }
    ensures taken { length result + length walk.new ≤ length walk.old }
    ensures most { length walk.new ≤ length walk.old - 16 }
{
    let mut sold = Lines::new();
    for _ in 0..AT_ONCE {
        let Some((key, line)) = walk.next() else {
            break;
        };
        if let Some(item) = then.item_at(key, line) {
            let quantity = quantity_now(then.tables(), warehouse, item);
            sold.push(Sold { item, quantity });
        }
    }
    sold
}

/// Tells whether the district's warehouse had less of the item than the threshold.
fn is_short<R: RowsOf>(then: &R, query: &LevelQuery, sold: &Sold) -> bool
    requires { HasQuantity (rows (R.tables_of then.now)) query.now.district.warehouse sold.now }
    ensures { result ≡ is_short query.now (R.rows_of then.now) sold.now.item }
{
    let key = StockKey {
        warehouse: query.district.warehouse,
        item: sold.item,
    };
    match then.stock_quantity(&key, sold.quantity) {
        Some(quantity) => quantity.get() < query.threshold.get(),
        None => false,
    }
}

/// Lists an item that was short and is not listed yet. There must be room for it.
#[tactic(auto, using(crate::proofs::ShortFacts::stays_listed, crate::proofs::ShortFacts::comes_in, crate::proofs::ShortFacts::is_enough, crate::proofs::ShortFacts::one_more))]
fn list_if_short<R: RowsOf>(then: &R, query: &LevelQuery, sold: &Sold, items: &mut Items)
    requires quantity { HasQuantity (rows (R.tables_of then.now)) query.now.district.warehouse
        sold.now }
    requires room { length items.old < 300 }
    ensures items { items.new
        ≡ list_with (is_short query.now (R.rows_of then.now)) items.old (sold.now.item ∷ []) }
    ensures few { length items.new ≤ length items.old + 1 }
{
    let item = sold.item;
    if items.is_listed(item) {
        return;
    }
    if !is_short(then, query, sold) {
        return;
    }
    items.push(item);
}

/// Lists those of some items that were short and are not listed yet. There must be room for them.
fn list_short<R: RowsOf>(then: &R, query: &LevelQuery, sold: &[Sold], items: &mut Items)
    requires quantities { HaveQuantities (rows (R.tables_of then.now))
        query.now.district.warehouse sold.now }
    requires room { length items.old + length sold.now ≤ 300 }
    ensures items { items.new ≡ list_with (is_short query.now (R.rows_of then.now)) items.old
        (map (λ s. s.item) sold.now) }
    ensures few { length items.new ≤ length items.old + length sold.now }
{
    for one in sold {
        list_if_short(then, query, one, items);
    }
}

/// Lists the distinct items of the district's last 20 orders before the next one that were short
/// (clause 2.8.2.2).
fn short_items<R: RowsOf>(then: &R, query: &LevelQuery, next: OrderNumber) -> Items
    requires { R.Stand then.now }
    ensures { AreLow query.now (R.rows_of then.now) next result }
{
    then.are_passed();
    then.tables().numbers_hold();
    let mut items = Items::new();
    if next.get() == 1 {
        return items;
    }
    let warehouse = query.district.warehouse;
    let mut walk = then.tables().recent_lines(query.district, next);
    for _ in 0..PARTS {
        let sold = take_sold(then, warehouse, &mut walk);
        list_short(then, query, sold.as_slice(), &mut items);
    }
    items
}

/// Tells how many items are listed.
fn count_of(items: &Items) -> LowStock
    ensures { result ≡ length items.now }
{
    match LowStock::new(items.as_slice().len() as u32) {
        Some(count) => count,
        None => unreachable!(),
    }
}

/// Answers Stock-Level of now or of a moment: how many distinct items on the lines of the
/// district's last 20 orders had a stock below the threshold in the district's warehouse (clause
/// 2.8.2.2). `NoSuchRow` with the district if there was none.
#[tactic(auto, using(crate::proofs::AnswerFacts::level_counted, crate::proofs::AnswerFacts::no_district))]
pub fn stock_level<R: RowsOf>(then: &R, query: &LevelQuery) -> Result<LowStock, Refusal>
    requires { R.Stand then.now }
    ensures reply { IfOk result
        (λ n. stock_level query.now (R.rows_of then.now) ≡ Here (told.Level n)) }
    ensures refusal { IfErr result
        (λ e. stock_level query.now (R.rows_of then.now) ≡ Missing e) }
{
    match then.next_order_at(&query.district) {
        Some(next) => {
            let items = short_items(then, query, next);
            Ok(count_of(&items))
        }
        None => Err(Refusal::NoSuchRow(Key::District(query.district))),
    }
}
