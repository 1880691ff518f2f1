//! Worked examples of the division, as tests.
//!
//! Each test reads like the example that it shows; the expected values were worked out by hand. They stand
//! here, above the proved crate, so that no proof is made twice for them.
#![tactic(auto)]

#[cfg(test)]
mod division;
#[cfg(test)]
mod due_input;
#[cfg(test)]
mod requests;
#[cfg(test)]
mod rows;
