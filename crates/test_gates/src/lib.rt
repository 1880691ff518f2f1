//! Worked examples of gates, as tests with threads: which orders they hold back and give up, and what it costs to be held back.
#![tactic(auto)]

#[cfg(test)]
mod tests;
