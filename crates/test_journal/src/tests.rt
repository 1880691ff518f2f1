//! The examples, by what they show; and what they have in common.

mod hurrying;
mod moving;
mod reconciling;
mod same;
