//! Pictures of runs, compared with the owner tables that the arbiter gives.
//!
//! A picture is read back by its bars alone (`tests/marks.rt`): after each order of a run each core has the bars that the
//! arbiter says.
#![tactic(auto)]

#[cfg(test)]
mod tests;
