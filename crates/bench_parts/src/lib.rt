//! Parts of the program `bench` that need no clock: its command line, the sequence of orders that it gives, and how it prints
//! a time.
//!
//! They stand apart from the program, since a crate with tests is proved twice.
#![tactic(auto)]

mod command_line;
mod nanos;
mod scripts;
mod sequence;
#[cfg(test)]
mod tests;

pub use command_line::{Part, Task, USUAL, parse};
pub use nanos::Nanos;
pub use scripts::{script_orders, script_text};
pub use sequence::{Given, MOST, SEED, Sequence, first_orders};
