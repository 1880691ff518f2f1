//! The examples, by what they show; and what they have in common.

mod audits;
mod comparing;
mod course;
mod ending;
mod faults;
mod limits;
mod opening;
mod same;
mod steps;
mod tables;
mod waiting;
