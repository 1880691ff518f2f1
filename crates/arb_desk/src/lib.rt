//! What crosses between the threads of a service: the queue of orders, the desk that all share, and the answers.
//!
//! **The queue.** One queue of [`PLACES`] places takes the orders of all clients, and the mark with which a client closes.
//! Each thread comes to it with a pass of its own: the server's takes messages, and each client's puts them. The queue
//! keeps a rule, whatever the threads do. What a client put is what was taken of it, and then what the queue still holds of
//! it, in the order in which it was put. So each message is taken once, and none is lost or invented. A close mark is
//! the last message of its client. Contracts see a pass as a [`PassView`]: what it put, or what it took.
//!
//! ```
//! let (orders, mut server) = open_queue(alloc)?;
//! let mut pass = pass_for(&orders, &mut server, client);
//! put(rt, &orders, &mut pass, Message { client, body: Body::Put(Order::Join) });
//! let message = take(rt, &orders, &mut server);
//! ```
//!
//! **The desk.** A [`Desk`] has the page words, the queue of orders, the machine, and a flag that says that the server has
//! ended. All threads share one, in an `Arc`.
//!
//! **The channels.** Each client has its answers by a channel of its own, without a lock ([`open_channel`]): the server keeps the
//! [`Sender`], the client the [`Receiver`]. Contracts say nothing of what comes through.
//!
//! **The answers.** An [`Answer`] says what came of an order ([`Admission`]), with a note of the history in which that
//! stands. That it does is kept in the type, so an answer may go through any channel and is still true where it arrives.
//! A [`Past`] is what a client leaves when it closes.
//!
//! The files of `specs/`, in the order to read them:
//!
//! 1. `Limits`: how many places the queue has. `Messages`: a client's messages, and where its close mark may stand.
//! 2. `Passes`: what a pass knows, how that changes, and which queue it is of. With `Messages` this is all that the clauses
//!    of the queue's calls speak of.
//! 3. `Rule`: what the queue keeps, and what a call learns of it.
//! 4. `Answers`: what holds of an answer.
#![tactic(auto)]

mod answer;
mod channel;
mod desk;
mod message;
mod past;
mod queue;
mod rule;

pub use answer::{Admission, Answer};
pub use channel::{Receiver, Sender, open_channel};
pub use desk::Desk;
pub use message::{Body, Message};
pub use past::Past;
pub use queue::{PLACES, is_empty, open_queue, pass_for, put, reconcile, take};
pub use rule::{OrderPass, Orders, PassView};
