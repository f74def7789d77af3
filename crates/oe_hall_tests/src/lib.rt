//! The tests of hall, shop and desks, and of a drive: that their calls come back with the core's
//! answers, that what is left under the lock is what the call left, that two desks overlap, and
//! when a terminal gives up. What a clause says is not tested again.
//!
//! Most tests are lists of moves (`scripts`), which one player (`plays`) carries out by the desks
//! of a shop and by a core.
#![tactic(auto)]

#[cfg(test)]
mod asks;
#[cfg(test)]
mod counts;
#[cfg(test)]
mod days;
#[cfg(test)]
mod desks;
#[cfg(test)]
mod drives;
#[cfg(test)]
mod gates;
#[cfg(test)]
mod give_ups;
#[cfg(test)]
mod moves;
#[cfg(test)]
mod pins;
#[cfg(test)]
mod plays;
#[cfg(test)]
mod readers;
#[cfg(test)]
mod scripts;
#[cfg(test)]
mod shows;
#[cfg(test)]
mod tables;
