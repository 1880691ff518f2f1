//! The examples, and what they have in common.

mod channels;
mod same;
