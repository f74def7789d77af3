//! How many undo records a read of a past row looks at: its own that are later or open, whatever
//! else the ring holds.
use crate::engines::{begun, end, engine_with, leave};
use crate::made::{district_key, order_key, payment};
use crate::order_records::{enter, sell, stock_key};
use oe_engine::{Engine, Tx};
use oe_requests::{DistrictDelivery, Reply};
use oe_rows::{Key, Layout, StockKey};
use oe_undo::Ticks;
use oe_values::{Moment, Number, Terminal};
use std::process::Abort;
use std::snapshot::Snapshot;

/// Commits a transaction.
fn commit(rt: &impl Abort, engine: &mut Engine, tx: Tx) {
    let request = payment(7, 1_234).expect(rt, "a payment");
    let reply = Reply::Delivery(DistrictDelivery::Skipped);
    match engine.commit(tx, Snapshot::of(&request), Snapshot::of(&reply)) {
        Ok(_moment) => {}
        Err(_) => panic!(rt; "not open"),
    }
}

/// Sells the stock of item 1 to each of these S_QUANTITY, S_YTD and S_ORDER_CNT.
fn sell_to(rt: &impl Abort, engine: &mut Engine, tx: &Tx, counts: &[[u32; 3]]) {
    for count in counts {
        sell(engine, tx, *count).expect(rt, "sold");
    }
}

/// Counts the records that a read of a key's row at a moment looks at.
fn looked_at(engine: &Engine, moment: u64, key: Key) -> Option<u64> {
    let mut ticks = Ticks::new();
    let Ok(version) = engine.version(Moment::new(moment)?) else {
        return None;
    };
    let _row = version.row_counted(&key, &mut ticks);
    Some(ticks.records())
}

/// Counts them at the moments 0, 1 and 2.
fn at_moments(engine: &Engine, key: Key) -> Option<[u64; 3]> {
    Some([
        looked_at(engine, 0, key)?,
        looked_at(engine, 1, key)?,
        looked_at(engine, 2, key)?,
    ])
}

/// Gives the counts of a stock that is sold in two commits and an open transaction, of its district,
/// which the second commit changes, and of a stock that nobody sells.
fn counts_of(engine: &Engine) -> Option<[[u64; 3]; 3]> {
    let unsold = StockKey {
        warehouse: Number::new(2)?,
        item: Number::new(3)?,
    };
    Some([
        at_moments(engine, Key::Stock(stock_key()?))?,
        at_moments(engine, Key::District(district_key(1, 1)?))?,
        at_moments(engine, Key::Stock(unsold))?,
    ])
}

/// Opens an engine with records of that layout, sells, and counts.
fn counts_in(rt: &(impl Abort + AllocGlobal), layout: Layout) -> Option<[[u64; 3]; 3]> {
    let mut engine = engine_with(rt, rt.alloc(), 4, 5, layout);
    let first = begun(rt, &mut engine, Terminal::new(1).expect(rt, "a terminal"));
    sell_to(rt, &mut engine, &first, &[[14, 10, 1]]);
    commit(rt, &mut engine, first);
    let second = begun(rt, &mut engine, Terminal::new(2).expect(rt, "a terminal"));
    let order = order_key(&[1, 1, 11]).expect(rt, "an order");
    enter(&mut engine, &second, order).expect(rt, "entered");
    sell_to(rt, &mut engine, &second, &[[4, 20, 2], [94, 30, 3]]);
    commit(rt, &mut engine, second);
    let third = begun(rt, &mut engine, Terminal::new(3).expect(rt, "a terminal"));
    sell_to(rt, &mut engine, &third, &[[90, 34, 4]]);
    let counts = counts_of(&engine);
    end(rt, &mut engine, third);
    leave(rt, engine);
    counts
}

#[test]
fn a_read_looks_at_its_own_later_records(rt: HostRuntime) {
    let counts = Some([[4, 3, 1], [1, 1, 0], [0, 0, 0]]);
    assert!(rt; counts_in(&rt, Layout::WholeRows) == counts);
    assert!(rt; counts_in(&rt, Layout::ChangedColumns) == counts);
}
