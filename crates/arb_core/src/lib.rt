//! The core arbiter on one thread.
//!
//! A machine's managed cores are shared by up to sixteen applications. Each states how many cores it wants,
//! [`Order::Ask`], and its threads wait for cores, [`Order::Block`]. It may have a cap, [`Order::Cap`]: no more of its
//! request stands than that. A [`Core`] takes one order after another. [`Core::step`] makes the order's own change, and
//! divides the cores evenly over the requests standing. Then it asks cores back from applications that own more than is
//! due, and grants free cores to those that own less. A tick moves a thread that has kept a
//! core for the grace or longer since it was asked back, [`Order::Tick`].
//!
//! What threads are to see stands in page words ([`Core::word`]). One counts the orders, two of each application say
//! which of its cores are asked back, and one of each thread says where it is. [`layout`] has them in a table, and reads
//! them. A word that differs from what was posted of it is stale. An order posts the count of orders itself. The words
//! that it leaves stale are posted one by one before the next order, those that lose a core first:
//!
//! ```
//! let reply = core.step(client, &Order::Block);
//! core.post_all(&mut |w, value| page.post(w, value));
//! ```
//!
//! So no two posted place words ever name one core, neither between two posts nor after the last ([`Core::posted`]).
//! At the limit on orders an arbiter is renewed ([`Core::renew`]): it counts orders from 0 again, and keeps all else.
//! The program `example_one_thread` is a complete caller, with its proof.
//!
//! An order costs what it touches: beside each array stand the sets and indexes that answer its questions. It goes a
//! bounded number of times over the applications. Beyond that it looks only at these:
//!
//! - the cores of each application that is asked to give some back;
//! - at a tick, the cores that are asked back, and at a leave, the threads of the application;
//! - for each grant, the sockets and the threads of the application;
//! - the complete queue of waiting threads, at most once in as many blocks as there are threads.
//!
//! No call takes memory.
//!
//! `specs/` of `arb_model` says what the arbiter is: the standing, the order step, the page words and their posting,
//! histories and readings. Their laws are the contracts of the functions of [`laws`]. [`order_cases`] is the one table
//! of orders. `arb_seats` keeps who is where.
#![tactic(auto)]

mod arbiter;
mod orders;
mod requests;
mod state;
mod tally;

pub use arb_model::{
    APPLICATIONS, ClientId, Entry, Event, Half, Order, Place, Refusal, Reply, THREADS, laws, layout,
};
pub use arbiter::Core;
pub use requests::MAX_CAP;
