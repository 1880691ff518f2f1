//! Worked examples of the channels of answers, as tests with threads.
#![tactic(auto)]

#[cfg(test)]
mod tests;
