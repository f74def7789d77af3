//! The tests of what the engine is made of: values and texts; undo records, their bytes, at which
//! addresses they come to stand, and where links lead; queues, pins, and errands of seeded
//! terminals. They stand alone, so that each library is proved once. What a clause says is not
//! tested again, and neither is what the program's examples show.
#![tactic(auto)]

#[cfg(test)]
mod errands;
#[cfg(test)]
mod links;
#[cfg(test)]
mod logs;
#[cfg(test)]
mod made;
#[cfg(test)]
mod opened;
#[cfg(test)]
mod pins;
#[cfg(test)]
mod queues;
#[cfg(test)]
mod records;
#[cfg(test)]
mod texts;
#[cfg(test)]
mod values;
