//! The arbiter as a service of threads: a server that takes orders and answers them, the opening of a house, and the audit of
//! what its clients leave.
//!
//! [`House::open`] makes a server and its clients, over page words that [`arb_page::Pages::open`] made. The [`Server`] runs
//! on a thread of its own and serves ([`Server::serve`]) until all clients have closed. Each [`Client`] may run on another
//! thread: it posts orders and collects their replies, up to eight at a time; it reads its page words without the server;
//! and it closes. Then [`audit`] compares what the clients were answered with the server's journal, and
//! [`Ended::reconcile`] what each put with what was taken of it. [`audit_own`] compares the pasts of a house's own clients so,
//! and tells of each what `reconcile` tells of one. It never answers that one differs from the journal. [`LeavesPast`] and
//! [`LeavesEnded`] bring what it asks from the threads that are joined.
//!
//! Every reply has its place in one history that its caller has seen, and every page reading is that of a point of that
//! history, never before a point that the caller had seen. Clients tell each other of points by notes.
//!
//! ```
//! let (server, clients) = House::open::<K>(rt, alloc, blank, &topology, &[id])?;
//! // on one thread
//! let ended = server.serve(rt);
//! // on another
//! let reply = client.call(rt, Order::Join)?;
//! let past = client.close(rt);
//! // after both
//! audit(&ended, &[past])?;
//! ```
//!
//! Two parts stand in crates of their own: what crosses between threads (`arb_desk`), and the client (`arb_client`). All that a
//! runtime names is given out here: the machine ([`Topology`]), requests, clients, orders and replies, and page words with
//! their notes. So a runtime's crate stands on this one alone.
//!
//! **The server.** It takes the orders that clients put into the queue, one after another, and answers each. A [`Server`] takes
//! each message once. It enters exactly the order that the message holds, posts each word that the order left stale, and only
//! then answers, with a note of the history so far. Where the limit on orders is reached it answers so, and enters nothing. It
//! ends once it has taken the close mark of every client, or where it is out of memory. It makes room for an entry before it
//! takes a message. Each message that it takes is of a client that it serves, to whom it has a sender: no contract says more of
//! what is sent.
//!
//! The type of what it leaves, [`Ended`], keeps what holds. The journal is the entries of a legal history, with the arbiter
//! in the state after it and no word stale. Its orders are those that were taken, up to the limit. So this still holds
//! where the value arrives through a thread's join. It learns notes ([`Ended::learn`]): what a client had seen is a prefix
//! of that history. And it reconciles what a client left ([`Ended::reconcile`]): what was taken of the client is a prefix of
//! what it put, and is all of it where its close mark was taken.
//!
//! The arbiter and the writer of its page words stand in one value, a [`Publisher`]. It enters an order into the arbiter and,
//! by one store, into the history; and it posts each word that the order left stale, in the arbiter and then on the pages. A
//! [`Recorder`] has a journal beside it: it keeps the entry, and answers with the entry, its index in the journal, and a note.
//! It takes memory in one call alone, [`Recorder::reserve`], which makes the room that the next entry takes.
//!
//! **The audit.** It walks once over the pasts and once over the journal, and takes no memory. [`compare`] is the same where
//! the clients and the journal are given by themselves.
//!
//! The files of `specs/`, in the order to read them:
//!
//! 1. `Recording`: a recorder as contracts see it, what comes of an order, and where the history goes.
//! 2. `Clients`: the clients of a server, and which of them have closed.
//! 3. `Taking`: the orders of messages and of entries, and what the journal has of those that were taken.
//! 4. `Serving`: a server and what it leaves, as contracts see them.
//! 5. `Opening`: which lists of clients are refused.
//! 6. `FirstClient`: what is said of no client, and of the first client. `Pasts`: what the journal and the pasts say of one.
//! 7. `Auditing`: when they agree, which fault is the first, that each input comes to exactly one outcome, and which faults
//!    an audit of a house's own pasts has.
//! 8. `OwnPasts`: what is known of a past of a house's own client, and what taking it in tells.
//! 9. `Walks`: what the walks keep of each client; no public call speaks of it.
//!
//! `Messages` and `Passes` of `arb_desk`, and `Sides` to `Closing` of `arb_client`, are given out here too.
#![tactic(auto)]

mod auditing;
mod clients;
mod differing;
mod ended;
mod ends;
pub mod laws;
mod looks;
mod marks;
mod opening;
mod own_pasts;
mod promises;
mod publisher;
mod recorder;
mod server;
mod survey;

pub use arb_client::{
    CallFault, Client, CollectFault, MOST_OPEN, OpenOrder, Past, PostFault, WaitFault,
};
pub use arb_config::{ConfigFault, Topology};
pub use arb_core::{Core, MAX_CAP};
pub use arb_desk::{Admission, Answer};
pub use arb_model::{
    APPLICATIONS, ClientId, Entry, Half, Order, Place, Refusal, Reply, THREADS, layout,
};
pub use arb_page::{Blank, Memory, Note, Pages, Point, Reader, Set, Writer};
pub use arb_share::{LEVELS, MAX_ENTRY, Request, TooMany};
pub use auditing::{AuditFault, audit, compare};
pub use clients::Roster;
pub use ended::{Ended, Served};
pub use opening::{House, OpenFault};
pub use own_pasts::audit_own;
pub use promises::{LeavesEnded, LeavesPast};
pub use publisher::Publisher;
pub use recorder::Recorder;
pub use server::Server;
