//! The examples, by what they show; and what they have in common.

mod crowd;
mod floor;
mod free;
mod mixing;
mod setting;
mod sleeping;
mod together;
mod turns;
mod waking;
