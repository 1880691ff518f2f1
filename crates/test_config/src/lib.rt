//! Worked examples of configurations, as tests.
#![tactic(auto)]

#[cfg(test)]
mod faults;
#[cfg(test)]
mod machines;
