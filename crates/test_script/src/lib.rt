//! Worked examples of inputs, scripts and printed texts, as tests.
//!
//! Each test reads like the example that it shows; the expected values were worked out by hand. They stand
//! here, above the proved crate, so that no proof is made twice for them.
#![tactic(auto)]

#[cfg(test)]
mod faults;
#[cfg(test)]
mod inputs;
#[cfg(test)]
mod printing;
#[cfg(test)]
mod reading;
#[cfg(test)]
mod setting;
