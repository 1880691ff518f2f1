//! An arbiter that answers each line as it comes: a program on a pipe, or a person, can hold a conversation with it.
//!
//! [`live`] reads lines from a two-way stream ([`TwoWay`]) and answers each before it asks for more input. A line is an
//! order of a script, a question for the owner table, skipped, or faulty ([`Heard`]); a faulty line is answered too, and
//! changes nothing. [`live_endless`] does the same without a limit on orders. [`Both`] makes a two-way stream of a reader
//! and a writer.
//!
//! The files of `specs/`, in the order to read them:
//!
//! 1. `Events`: what took place on a stream, in turn, and what a stream tells of it.
//! 2. `Heard`: what a line is.
//! 3. `Live`: the live report, that nothing is owed at a read, and what holds at each end.
//! 4. `Laws`: the live report is that of a run. `FaultText`: the texts of faults.
//! 5. `Sent`: the counts of failed calls, and what calls write. `Pieces`: lines that come in pieces, and conversations with
//!    a limit on orders and without. These are words of inner contracts.
//!
//! It takes no memory.
#![tactic(auto)]

mod answerer;
mod both;
mod event;
mod fault;
mod heard;
pub mod laws;
mod orders;
mod sending;
mod session;
mod talking;
mod two_way;

pub use both::Both;
pub use event::Event;
pub use fault::LiveFault;
pub use heard::{Heard, hear};
pub use talking::{live, live_endless};
pub use two_way::TwoWay;
