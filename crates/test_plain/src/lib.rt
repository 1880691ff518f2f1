//! A second arbiter, as plain and as slow as can be, and two comparisons with the proved one, as tests: of both on one
//! thread, and of the proved one as real threads play scripts through it.
#![tactic(auto)]

#[cfg(test)]
mod tests;
