//! Worked examples of runs and plays of scripts, as tests.
//!
//! Each test reads like the example that it shows; the expected values were worked out by hand, but for those of long
//! reports, which are compared with their lines printed one by one. They stand here, above the proved crate, so that no
//! proof is made twice for them.
#![tactic(auto)]

#[cfg(test)]
mod tests;
