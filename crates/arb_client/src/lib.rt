//! A client of the server: one thread of an application, or the clock.
//!
//! A [`Client`] posts orders and collects their replies in that order; up to [`MOST_OPEN`] may be open. Each reply that it
//! collects stands in the one history, as its own entry of the next number, past all that it had seen when it posted.
//! [`Client::call`] does both for one order. Three readings are one load each, without a wait and without the server: where
//! its thread is ([`Client::place`]), whether to give its core back ([`Client::must_release`]), and which cores of its
//! application are asked back ([`Client::asked_cores`]). [`Client::wait_for_core`] blocks until its thread is on a core.
//! With [`Client::close`] it ends, without an order: what it was answered stays as a [`Past`].
//!
//! Contracts see a client as a `Side`: what it has seen, its answered and its open orders, and the messages that it put into
//! the queue.
//!
//! The files of `specs/`, in the order to read them:
//!
//! 1. `Sides`: a client as contracts see it, and what holds of it. `Replies`: what a reply says.
//! 2. `Posting`, `Collecting` and `Calling`: what these calls change, and what each of their faults says.
//! 3. `Readings`: what a place word says to its thread. `Waiting`: how a wait for a core ends.
//! 4. `Closing`: what a client leaves.
#![tactic(auto)]

mod calling;
mod client;
mod closing;
mod collecting;
mod faults;
mod posting;
mod readings;

pub use arb_desk::Past;
pub use client::{Client, MOST_OPEN, OpenOrder};
pub use faults::{CallFault, CollectFault, PostFault, WaitFault};
