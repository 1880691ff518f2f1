//! Worked examples of members that share an arbiter, as tests: on one thread, and on two at once.
#![tactic(auto)]

#[cfg(test)]
mod giving;
#[cfg(test)]
mod threads;
