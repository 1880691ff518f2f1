//! Worked examples of page words, and a caller to copy.
//!
//! [`tour`] is the shortest whole caller, with its proof: it opens pages, names them, publishes orders and their posts,
//! tells a reader, and reads. The tests go on from there: with two readers, with a writer and a reader on two threads, and with
//! sleepers that a change wakes.
#![tactic(auto)]

mod caller;

pub use caller::tour;

#[cfg(test)]
mod bells;
#[cfg(test)]
mod reading;
#[cfg(test)]
mod threads;
