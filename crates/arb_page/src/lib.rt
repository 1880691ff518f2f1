//! Page words that one writer stores and any thread reads, each by one load, and the one history behind them.
//!
//! The page words stand on one atomic table. The [`Writer`] stores them: an order's entry is one store to word 0
//! ([`Writer::enter`]), and a post is one store to its word ([`Writer::post`]). Each store is one event of the history,
//! and the history is one, however threads interleave. A [`Reader`] loads a word ([`Reader::read`]): no lock, no wait,
//! and no call of the arbiter.
//!
//! Contracts see a writer or a reader as the history that it has *seen*, which is a point of the one history: it is
//! legal, only grows, and is a prefix of the writer's. A word that is read has the value that it has at the point
//! then seen. Threads tell each other of points by a [`Note`], which has no bytes: it carries what its teller has seen
//! ([`Reader::tell`], [`Writer::tell`]), and whoever learns it has seen that too ([`Reader::learn`], [`Writer::learn`]).
//! A [`Point`] is a note for values whose type doesn't name the pages ([`Note::into_point`], [`Point::into_reader`]).
//! Contracts count steps besides, so that "one load" and "one store" are clauses. Each step is sequentially consistent.
//!
//! [`Pages::open`] makes the words of a machine, all 0. [`Blank::name`] names them by a [`Set`], which all types keep. So no
//! call has a condition that the pages are the right ones, and a note of another table doesn't compile.
//!
//! **Bells.** A thread that waits for its place word to change sleeps on its [`Bell`] ([`Pages::bell`]), which the writer
//! rings after a post that no longer says waiting. [`Patience`] is how a waiting loop looks: a few times at once, then
//! asleep. [`Watch`] is how a server does so for one message after another. [`Waiters`] are many that wait for what one of
//! them can have at a time, as room in a queue. None of these is a page word, so sleeping and waking are no steps of the
//! history. No contract says that a sleeper wakes; `bell.rt` and `waiters.rt` say why it does.
//!
//! ```
//! let (pages, mut writer) = blank.name::<K>();
//! let mut reader = writer.tell(&pages).into_reader();
//! writer.enter(&pages, client, &order, &reply);
//! reader.learn(&pages, writer.tell(&pages));
//! let orders = reader.read(&pages, 0);
//! ```
//!
//! The crate `test_pages` has a complete caller, with its proof: `tour`.
//!
//! The files of `specs/`, in the order to read them:
//!
//! 1. `Seen`: a writer or a reader, as contracts see it. `Names`: pages and points without a name. With `History` and `Reading` of
//!    `arb_model` these are all that public contracts speak of.
//! 2. `Views`: what a seat at the table knows. `Rule`: what the table keeps, over legal histories and readings alone.
//!    `Steps`: what a load and a store tell. `Seats`: what holds of the seats of writers, readers and notes.
#![tactic(auto)]

mod bell;
mod blank;
mod note;
mod pages;
mod patience;
mod point;
mod reader;
mod set;
mod table;
mod waiters;
mod watch;
mod writer;

pub use bell::Bell;
pub use blank::{Blank, Memory};
pub use note::Note;
pub use pages::Pages;
pub use patience::{LONGEST_SLEEP, Patience};
pub use point::Point;
pub use reader::Reader;
pub use set::Set;
pub use waiters::Waiters;
pub use watch::Watch;
pub use writer::Writer;
