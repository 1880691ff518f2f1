//! Waiting members that share an arbiter, as tests: on one thread, on threads that wait for cores, and on many that wait for the
//! lock.
#![tactic(auto)]

#[cfg(test)]
mod calls;
#[cfg(test)]
mod crowd;
#[cfg(test)]
mod woken;
