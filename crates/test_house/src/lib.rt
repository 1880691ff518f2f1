//! Worked examples of the service, as tests: courses of houses, with a server and its clients on threads; and audits.
#![tactic(auto)]

#[cfg(test)]
mod tests;
