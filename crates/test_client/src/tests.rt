//! The examples, by what they show; and what they have in common.

mod late;
mod room;
mod same;
mod stand_in;
mod strange_calls;
mod strangers;
mod woken;
