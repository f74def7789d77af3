//! The hall: one core behind one lock, the desks at which terminals ask it, the one history of what
//! they asked and were answered, and how much each desk was told. Of the words that desks share,
//! and that no call waits for, the keeper sits in the hall. The core is of any type that is a
//! `Machine` of `oe_machine`.
//!
//! A terminal carries a transaction out so (`a_day_in_a_shop` of `oe_hall_tests` has the whole):
//!
//! ```
//! let Ok(begun) = desk.begin(rt, front, request) else {
//!     panic!(rt; "a begin is refused")
//! };
//! let mut open = begun;
//! for _ in rt.forever() {
//!     match desk.advance(rt, front, open) {
//!         Turn::More(next) => open = next,
//!         Turn::Kept(next, _) => open = next,
//!         Turn::Committed(moment) => return moment,
//!         Turn::RolledBack(_) => panic!(rt; "it is rolled back"),
//!     }
//! }
//! ```
//!
//! In a shop with two desks, a purge stops at the moment that one of them has pinned, until it
//! gives its pin back. Then the shop is closed, and leaves the core, the counts and the history:
//!
//! ```
//! let pin = pinned(rt, shop.front(), &mut clerk);
//! let made = carried_out(rt, shop.front(), &mut teller, order);
//! let beside = purger.purge(rt, shop.front(), made).get();
//! let found = clerk.read(rt, shop.front(), &pin, status).is_ok();
//! unpinned(rt, shop.front(), &mut clerk, pin);
//! let behind = purger.purge(rt, shop.front(), made).get();
//! desks.push_reserved(teller);
//! desks.push_reserved(clerk);
//! match shop.close(desks, purger) {
//! ```
//!
//! A shop's front, desks and purger are of one type, by its `Naming`: code is written for each
//! `J: Naming` and called with `Brand`, which names one shop, so that no desk meets the front of
//! another. To lend a front to threads, call `front_crosses` in the closure that makes them.
#![tactic(auto)]

pub mod calls;
pub mod counts;
pub mod crossing;
pub mod hall;
pub mod naming;
pub mod purger;
pub mod records;
mod replies;
pub mod shop;

pub use counts::{Counted, Told};
pub use hall::Hall;
pub use naming::Naming;
pub use purger::Purger;
pub use shop::{Closed, Desk, Front, NotQuiet, Open, Seats, Shop, Turn};
