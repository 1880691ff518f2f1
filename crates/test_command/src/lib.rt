//! The command line of the program as a function, as tests with threads: what a stream that fails once leaves of it.
//!
//! `tests/streams` runs the program, and compares its statuses and what it writes. Here stands what no stream of the
//! system does: it fails once, at a chosen byte or call, and goes on after that (`once.rt`).
#![tactic(auto)]

#[cfg(test)]
mod once;
#[cfg(test)]
mod reading;
#[cfg(test)]
mod setting;
#[cfg(test)]
mod writing;
