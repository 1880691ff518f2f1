//! Worked examples of one side of a house, as tests with threads: a client, or a server, with what stands in for the other side.
#![tactic(auto)]

#[cfg(test)]
mod tests;
