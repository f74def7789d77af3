//! Where an order's link leads, call by call; and that the calls that take memory succeed where
//! there is memory, which no clause says.
use crate::made::{address, committed, order, order_key, stock_key};
use crate::opened::{begin, commit, push_order, undo};
use oe_layout::Previous;
use oe_log::Segment;
use oe_rows::{Key, OrderKey};
use oe_undo::{Holder, Link, Undo};
use oe_values::{Moment, Number, Terminal};

fn link(undo: &Undo, key: &OrderKey) -> Option<Link> {
    undo.link(&Key::Order(*key))
}

/// Makes a link to a record that a terminal has open.
fn open_at(extent: u32, offset: u32, terminal: Terminal) -> Option<Link> {
    Some(Link {
        address: address(extent, offset)?,
        holder: Holder::Open(terminal),
    })
}

/// Makes a link to a record of the commit at a moment.
fn made_at(extent: u32, offset: u32, moment: u64) -> Option<Link> {
    Some(Link {
        address: address(extent, offset)?,
        holder: Holder::At(Moment::new(moment)?),
    })
}

/// Pushes two records of terminal 41 and commits them; then terminal 5 opens a segment, pushes one
/// and takes it off. Tells whether each was pushed with the right link.
fn pushed_by_turns(undo: &mut Undo, key: &OrderKey) -> Option<bool> {
    let row = order(11)?;
    let first = Terminal::new(41)?;
    let second = Terminal::new(5)?;
    begin(undo, first)?;
    let at_first = push_order(undo, first, key, &row)?;
    let behind_one = push_order(undo, first, key, &row)?;
    commit(undo, first)?;
    begin(undo, second)?;
    let behind_commit = push_order(undo, second, key, &row);
    pop(undo, second)?;
    Some(
        at_first == Previous::Nothing
            && behind_one == Previous::Own(address(0, 0)?)
            && behind_commit == committed(0, 38, 1),
    )
}

fn pop(undo: &mut Undo, terminal: Terminal) -> Option<()> {
    if !undo.segments().is_open(terminal) {
        return None;
    }
    undo.pop(Segment::of(terminal));
    Some(())
}

/// Pushes a record of terminal 5, takes it off, pushes it again, and commits it. Tells whether the
/// link leads where it should behind each.
fn taken_off(undo: &mut Undo, key: &OrderKey) -> Option<bool> {
    let row = order(12)?;
    let terminal = Terminal::new(5)?;
    push_order(undo, terminal, key, &row)?;
    let pushed = link(undo, key);
    pop(undo, terminal)?;
    let popped = link(undo, key);
    push_order(undo, terminal, key, &row)?;
    commit(undo, terminal)?;
    Some(
        pushed == open_at(1, 0, terminal)
            && popped == made_at(0, 38, 1)
            && link(undo, key) == made_at(1, 0, 2),
    )
}

#[tactic(auto, using(crate::proofs::AloneFacts::none_open))]
fn reopen(undo: &mut Undo) -> Option<u32> {
    if undo.segments().open_count() > 0 {
        return None;
    }
    Some(undo.reopen_newest()?.terminal().get())
}

/// Opens the newest commit again, terminal 5's, and commits it; then gives both commits up. Tells
/// whether the link leads where it should, at the end nowhere.
fn given_up(undo: &mut Undo, key: &OrderKey) -> Option<bool> {
    let terminal = Terminal::new(5)?;
    let reopened = reopen(undo)?;
    let opened = link(undo, key);
    commit(undo, terminal)?;
    let first = undo.drop_oldest()?.terminal.get();
    let kept = link(undo, key);
    let second = undo.drop_oldest()?.terminal.get();
    Some(
        reopened == 5
            && opened == open_at(1, 0, terminal)
            && (first, second) == (41, 5)
            && kept == made_at(1, 0, 2)
            && link(undo, key).is_none(),
    )
}

#[test]
fn links_are_handed_on(rt: HostRuntime) {
    let key = order_key().expect(&rt, "a key");
    let stock = stock_key(3, 41).expect(&rt, "a key");
    let mut undo = undo(rt.alloc(), 2).expect(&rt, "a log");
    let has_place = undo.add_place(&Key::Stock(stock)).is_ok();
    let by_turns = pushed_by_turns(&mut undo, &key);
    let off = taken_off(&mut undo, &key);
    let up = given_up(&mut undo, &key);
    undo.discard();
    assert!(rt; has_place && by_turns == Some(true) && off == Some(true) && up == Some(true));
}

fn numbered(order: u32) -> Option<OrderKey> {
    Some(OrderKey {
        warehouse: Number::new(12)?,
        district: Number::new(3)?,
        order: Number::new(order)?,
    })
}

/// Pushes a record of a district's order 45,000, and then one of its order 3. Tells whether each
/// has its own link, and the orders beside them none.
fn far_then_near(undo: &mut Undo) -> Option<bool> {
    let far = numbered(45_000)?;
    let near = numbered(3)?;
    let beside = numbered(4)?;
    let between = numbered(30_000)?;
    let row = order(13)?;
    let terminal = Terminal::new(41)?;
    begin(undo, terminal)?;
    push_order(undo, terminal, &far, &row)?;
    push_order(undo, terminal, &near, &row)?;
    Some(
        link(undo, &far) == open_at(0, 0, terminal)
            && link(undo, &near) == open_at(0, 38, terminal)
            && link(undo, &beside).is_none()
            && link(undo, &between).is_none(),
    )
}

#[test]
fn far_links_leave_near_ones_empty(rt: HostRuntime) {
    let mut undo = undo(rt.alloc(), 2).expect(&rt, "a log");
    let seen = far_then_near(&mut undo);
    undo.discard();
    assert!(rt; seen == Some(true));
}
