//! The examples, by what they show.

mod caps;
mod clients;
mod grace;
mod orders;
mod posting;
mod setting;
mod sharing;
mod table;
mod wide;
