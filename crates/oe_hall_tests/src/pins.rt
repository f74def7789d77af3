//! Purges between any two steps of a pin and its end, at the words that desks and keeper share.
ghost use Rattle.std.specs.Prelude.{◌≡◌};

use oe_moments::{KeeperSeat, Moments};
use oe_values::{Moment, Number};
use std::alloc::Global;

// The keeper purges at 5 where it is its turn: the horizon; else 0.
fn turn(moments: &Moments, keeper: &mut KeeperSeat, is_turn: bool) -> u64
    requires { keeper.old.words ≡ moments.now }
    ensures { keeper.new.words ≡ keeper.old.words }
{
    if !is_turn {
        return 0;
    }
    moments.purge(keeper, Moment::new(5).unwrap()).get()
}

// A desk that knows moment 3 announces a pin, looks, makes it sure, loads what is purged and ends
// the pin, and the keeper purges at 5 before the step of that number. Gives the horizon, the claim
// that the desk looked at, and what it saw purged; none where it had to let the pin go.
fn beside_a_purge(alloc: Global, step: u32) -> Option<(u64, u64, Option<u64>)> {
    let (moments, mut dealer) = Moments::open(alloc, 7, Number::new(2)?).ok()?;
    let mut keeper = moments.deal_keeper(&mut dealer);
    let mut desk = moments.deal(&mut dealer);
    moments.told(&mut desk, Moment::new(3)?);
    let first = turn(&moments, &mut keeper, step == 1);
    let newest = moments.announce(&mut desk);
    let second = turn(&moments, &mut keeper, step == 2);
    let claim = moments.look(&mut desk);
    let third = turn(&moments, &mut keeper, step == 3);
    if claim.get() > newest.get() {
        moments.clear(&mut desk);
        return Some((first.max(second), claim.get(), None));
    }
    let pin = moments.sure(&mut desk, newest);
    let fourth = turn(&moments, &mut keeper, step == 4);
    let seen = moments.purged(&mut desk);
    let fifth = turn(&moments, &mut keeper, step == 5);
    match moments.unpin(&mut desk, pin) {
        Ok(()) => {}
        Err(_) => unreachable!(),
    }
    let last = turn(&moments, &mut keeper, step == 6);
    let reached = third.max(fourth).max(fifth).max(last);
    Some((reached, claim.get(), Some(seen.get())))
}

#[test]
fn a_purge_between_any_two_steps(rt: HostRuntime) {
    assert!(rt; beside_a_purge(rt.alloc(), 1) == Some((5, 5, None)));
    assert!(rt; beside_a_purge(rt.alloc(), 2) == Some((3, 5, None)));
    assert!(rt; beside_a_purge(rt.alloc(), 3) == Some((3, 0, Some(3))));
    assert!(rt; beside_a_purge(rt.alloc(), 4) == Some((3, 0, Some(3))));
    assert!(rt; beside_a_purge(rt.alloc(), 5) == Some((3, 0, Some(0))));
    assert!(rt; beside_a_purge(rt.alloc(), 6) == Some((5, 0, Some(0))));
}
