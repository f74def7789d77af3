//! The newest moment and what desks hold of the past, in atomic words that threads share. No call
//! waits.
//!
//! A desk reads at a moment that it has pinned, beside a keeper who purges: while a pin is sure,
//! the keeper's horizon is not above the pin's moment.
//!
//! Why it works: a pin is a hazard pointer. A desk that wants to read at moment n takes steps A and
//! L and then decides, and a keeper that wants to purge up to m takes C, S and P:
//!
//!     desk     A  pin := n, announced     L  load claim     sure if claim <= n; else withdraw
//!     keeper   C  claim := max claim m    S  load pin       P  purged := least of m and the pins
//!
//! Each side writes before it reads what the other one writes. The words are sequentially
//! consistent (`atomic_table`): all steps of all threads stand in one order, which each thread
//! sees. So one of the two loads, L and S, finds what the other side wrote:
//!
//!     A L C S P     S finds the pin: m is lowered to n, so that the desk may keep it
//!     C S A L       S misses the pin, and L finds the claim: the desk withdraws where m > n
//!     A C L S P     both find it: nothing above n is purged, and the desk withdraws where m > n
//!
//! The last line stands for each order in which A is before S and C is before L. Without that one
//! order, a store could wait in its processor's buffer behind the load. Then L and S could both
//! miss, and a sure pin could lie below what is purged. Neither side waits for the other: a pin
//! that comes too late is refused, and a purge that meets a pin goes less far.
#![tactic(auto)]

pub mod notes;
pub mod pins;
pub mod rules;
pub mod words;

pub use pins::{NotPinned, Pin, TooOld};
pub use words::{DealerSeat, DeskSeat, KeeperSeat, Moments};
