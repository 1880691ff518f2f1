//! The tests.

mod plays;
