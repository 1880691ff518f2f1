//! Worked examples of the arbiter on one thread, as tests.
//!
//! Each test reads like the example that it shows; the expected values were worked out by hand. They stand
//! here, above the proved crates, so that no proof is made twice for them.
#![tactic(auto)]

#[cfg(test)]
mod tests;
