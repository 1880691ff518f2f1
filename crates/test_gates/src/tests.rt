//! The examples, by what they show.

mod aimed;
mod gates;
mod held;
