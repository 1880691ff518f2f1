//! Worked examples of conversations with a live arbiter, as tests.
//!
//! A `Conversation` (`conversation.rt`) is a two-way stream that gives no more input while an answer is owed. The expected
//! answers were worked out by hand. Without a limit on orders (`endless.rt`) many more are those below a limit.
#![tactic(auto)]

#[cfg(test)]
mod conversation;
#[cfg(test)]
mod endless;
#[cfg(test)]
mod faults;
#[cfg(test)]
mod lines;
#[cfg(test)]
mod once;
