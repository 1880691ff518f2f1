//! The examples, by what they show.

mod failures;
mod faults;
mod playing;
mod reports;
mod scripts;
mod setting;
mod turns;
