//! The second arbiter, and its comparisons with the proved one.

mod arbiter;
mod cores;
mod dice;
mod machines;
mod plays;
mod random;
mod seen;
mod words;
