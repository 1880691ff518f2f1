//! Worked examples of plays without turns, as tests with threads: how their clients' orders mix, and who has the floor.
#![tactic(auto)]

#[cfg(test)]
mod tests;
