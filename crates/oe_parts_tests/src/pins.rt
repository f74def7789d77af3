//! Pins and purges in the words, a step at a time on one thread: what the keeper reaches beside a
//! pin, and that a desk sees what another told. That the calls do not wait is seen in their types.
use oe_moments::Moments;
use oe_values::{Moment, Number};
use std::alloc::Global;

/// Has a keeper claim the moment of a pin that is announced, and answers the horizon, and what is
/// purged up to a `later` moment once the pin is sure.
fn beside_the_newest(alloc: Global, newest: u64, later: u64) -> Option<[u64; 2]> {
    let desks = Number::new(1)?;
    let newest = Moment::new(newest)?;
    let later = Moment::new(later)?;
    let Ok((moments, mut dealer)) = Moments::open(alloc, 7, desks) else {
        return None;
    };
    let mut keeper = moments.deal_keeper(&mut dealer);
    let mut desk = moments.deal(&mut dealer);
    moments.told(&mut desk, newest);
    let announced = moments.announce(&mut desk);
    moments.claim(&mut keeper, newest);
    moments.scan(&mut keeper);
    let horizon = moments.settle(&mut keeper);
    let claim = moments.look(&mut desk);
    if claim.get() > announced.get() {
        return None;
    }
    let pin = moments.sure(&mut desk, announced);
    let purged = moments.purge(&mut keeper, later);
    let found = moments.find(&mut keeper, &pin).is_ok();
    match moments.unpin(&mut desk, pin) {
        Ok(()) => {}
        Err(_) => unreachable!(),
    }
    if !found {
        return None;
    }
    Some([horizon.get(), purged.get()])
}

/// Has a keeper claim a `later` moment than that of a pin that is announced, and answers the
/// horizon, the claim that the desk looks at, and the horizon after a purge at the moment
/// `between`, since the pin has to go.
fn once_announced(alloc: Global, newest: u64, between: u64, later: u64) -> Option<[u64; 4]> {
    let desks = Number::new(1)?;
    let newest = Moment::new(newest)?;
    let between = Moment::new(between)?;
    let later = Moment::new(later)?;
    let Ok((moments, mut dealer)) = Moments::open(alloc, 7, desks) else {
        return None;
    };
    let mut keeper = moments.deal_keeper(&mut dealer);
    let mut desk = moments.deal(&mut dealer);
    moments.told(&mut desk, newest);
    moments.announce(&mut desk);
    moments.claim(&mut keeper, later);
    moments.scan(&mut keeper);
    let horizon = moments.settle(&mut keeper);
    let claim = moments.look(&mut desk);
    moments.clear(&mut desk);
    let after = moments.purge(&mut keeper, between);
    let again = moments.look(&mut desk);
    Some([horizon.get(), claim.get(), after.get(), again.get()])
}

/// Has a keeper pass the desk before it announces a pin of an earlier moment than the claim, and
/// answers the horizon, and the claim.
fn announced_late(alloc: Global, newest: u64, later: u64) -> Option<[u64; 2]> {
    let desks = Number::new(1)?;
    let newest = Moment::new(newest)?;
    let later = Moment::new(later)?;
    let Ok((moments, mut dealer)) = Moments::open(alloc, 7, desks) else {
        return None;
    };
    let mut keeper = moments.deal_keeper(&mut dealer);
    let mut desk = moments.deal(&mut dealer);
    moments.told(&mut desk, newest);
    moments.claim(&mut keeper, later);
    moments.scan(&mut keeper);
    moments.announce(&mut desk);
    let horizon = moments.settle(&mut keeper);
    let claim = moments.look(&mut desk);
    moments.clear(&mut desk);
    Some([horizon.get(), claim.get()])
}

/// Tells what two purges at a `later` moment reach, beside a sure pin and after it, and the newest
/// moment that a second desk sees, which was told by the first.
fn beside_a_sure_pin(alloc: Global, newest: u64, later: u64) -> Option<[u64; 3]> {
    let desks = Number::new(2)?;
    let newest = Moment::new(newest)?;
    let later = Moment::new(later)?;
    let Ok((moments, mut dealer)) = Moments::open(alloc, 7, desks) else {
        return None;
    };
    let mut keeper = moments.deal_keeper(&mut dealer);
    let mut first = moments.deal(&mut dealer);
    let mut second = moments.deal(&mut dealer);
    moments.told(&mut first, newest);
    let Ok(pin) = moments.pin(&mut first) else {
        return None;
    };
    let beside = moments.purge(&mut keeper, later);
    let seen = moments.newest(&mut second);
    match moments.unpin(&mut first, pin) {
        Ok(()) => {}
        Err(_) => unreachable!(),
    }
    let after = moments.purge(&mut keeper, later);
    Some([beside.get(), after.get(), seen.get()])
}

#[test]
fn keepers_and_pins(rt: HostRuntime) {
    assert!(rt; beside_the_newest(rt.alloc(), 5, 9) == Some([5, 5]));
    assert!(rt; once_announced(rt.alloc(), 3, 4, 5) == Some([3, 5, 4, 5]));
    assert!(rt; announced_late(rt.alloc(), 3, 5) == Some([5, 5]));
    assert!(rt; beside_a_sure_pin(rt.alloc(), 3, 5) == Some([3, 5, 3]));
}
