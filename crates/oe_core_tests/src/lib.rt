//! The tests of engine, core, audits and script that need calls of the libraries: tables that no
//! script comes to, a list of steps, refused memory, and readers and writers that fail. What a
//! clause says is not tested again, and neither is what the program's examples show.
#![tactic(auto)]

#[cfg(test)]
mod audits;
#[cfg(test)]
mod counts;
#[cfg(test)]
mod ends;
#[cfg(test)]
mod engines;
#[cfg(test)]
mod faults;
#[cfg(test)]
mod first_calls;
#[cfg(test)]
mod growths;
#[cfg(test)]
mod made;
#[cfg(test)]
mod open_audits;
#[cfg(test)]
mod order_records;
#[cfg(test)]
mod planted;
#[cfg(test)]
mod reads;
#[cfg(test)]
mod sessions;
