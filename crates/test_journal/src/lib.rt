//! Worked examples of what a house leaves, as tests with threads: its journal, beside what its clients read and kept.
#![tactic(auto)]

#[cfg(test)]
mod tests;
