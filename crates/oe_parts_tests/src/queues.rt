//! A queue that one thread fills and empties: that its calls come back, with what was submitted, or
//! with nothing.
use oe_queue::{Message, Sender, Taker, open};
use oe_requests::DeliveriesRequest;
use oe_rows::WarehouseKey;
use oe_values::{Number, Stamp, TerminalCount};
use std::alloc::Global;
use std::sync::Wait;

/// Makes a delivery in warehouse 14 by a carrier.
fn delivery(carrier: u32) -> Option<DeliveriesRequest> {
    Some(DeliveriesRequest {
        warehouse: WarehouseKey {
            warehouse: Number::new(14)?,
        },
        carrier: Number::new(carrier)?,
        stamp: Stamp::from_seconds(3_187_296_000)?,
    })
}

/// Opens a queue for these terminals, and answers the last one's sender and the taker.
fn ends(alloc: Global, terminals: TerminalCount) -> Option<(Sender, Taker)> {
    let Ok((mut senders, taker)) = open(alloc, terminals) else {
        return None;
    };
    match senders.pop() {
        Some(sender) => Some((sender, taker)),
        None => None,
    }
}

/// Submits deliveries by carriers 1 to 10 and 1 to 6, which fill the queue.
fn fill(rt: &impl Wait, sender: &mut Sender) -> Option<()> {
    for number in 0..16 {
        sender.submit(rt, delivery(number % 10 + 1)?).ok()?;
    }
    Some(())
}

/// Tells a message in short: its carrier, or 100 and the terminal of a mark.
fn in_short(message: &Message) -> u32 {
    match message {
        Message::Delivery(_, delivery) => delivery.carrier.get(),
        Message::End(terminal) => terminal.get() + 100,
    }
}

/// Takes the next message, in short; 0 where there is none.
fn next(rt: &impl Wait, taker: &mut Taker) -> u32 {
    match taker.take(rt) {
        Some(message) => in_short(&message),
        None => 0,
    }
}

/// Takes what fills the queue, in its order.
fn empty(rt: &impl Wait, taker: &mut Taker) -> Option<()> {
    for number in 0..16 {
        if next(rt, taker) != number % 10 + 1 {
            return None;
        }
    }
    Some(())
}

#[test]
fn sixteen_messages_and_the_mark_come_in_order(rt: HostRuntime) {
    let terminals = TerminalCount::new(3).expect(&rt, "a number of terminals");
    let Some((mut sender, mut taker)) = ends(rt.alloc(), terminals) else {
        panic!(rt; "memory")
    };
    assert!(rt; fill(&rt, &mut sender).is_some() && empty(&rt, &mut taker).is_some());
    assert!(rt; sender.finish(&rt).is_ok());
    assert!(rt; next(&rt, &mut taker) == 103);
    assert!(rt; next(&rt, &mut taker) == 0);
}

#[test]
fn a_taker_that_is_gone_gets_nothing(rt: HostRuntime) {
    let terminals = TerminalCount::new(3).expect(&rt, "a number of terminals");
    let Some((mut sender, taker)) = ends(rt.alloc(), terminals) else {
        panic!(rt; "memory")
    };
    drop(taker);
    assert!(rt; fill(&rt, &mut sender).is_none());
    assert!(rt; sender.finish(&rt).is_err());
}
