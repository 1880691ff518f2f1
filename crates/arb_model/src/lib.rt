//! What the arbiter is, and nothing of how it works. Here stand the types that its contracts name, the definitions, in
//! `specs/`, and the laws that are proved of them.
//!
//! The arbiter hands out a machine's managed cores to the threads of applications. A client, which is such a thread or
//! the clock, gives it an [`Order`]; it changes its standing and answers with a [`Reply`]. The standing says who asked
//! for what, and who is where. What a thread is to see stands in its page word. The words that an order changes are posted
//! one by one before the next order. Orders and posts are the events of a history.
//!
//! The files of `specs/`, in the order to read them:
//!
//! 1. `Limits`, `Lists`: how many threads and clients there are, the limit on caps, and a few words on lists.
//! 2. `Standing`: who asked for what, what of it stands, and who is where. `WellFormed`: which standings make sense.
//! 3. `Changes`: what each order changes by itself. `Pick`: which places are the least by their keys, and `Least`: their
//!    name. `Asks`: which cores are asked back. `Grants`: which free cores are given to which waiting threads.
//! 4. `Step`: one complete order: its refusal, or its change with the asks and the grants, and its reply.
//! 5. `Layout`: which page word says what, and by which values. `Words`: the words of a standing. `Decoding`: a word
//!    read back.
//! 6. `Texts`: clients, orders and replies as text.
//! 7. `Posting`: which words are stale, and in which order they are posted.
//! 8. `History`: where a list of events leads, and which lists are legal. `Reading`: what a word reads then.
//! 9. `Consistent`: what holds at each point of a legal history. `Arbiter`: an arbiter, as its callers see it.
//! 10. `Owners`: who owns a core, and who loses one or gives one up.
//! 11. `Laws`, `HistoryLaws`: what is proved of all this. Each law is the contract of a function of [`laws`]; those on reading a word
//!     back stand in [`layout`].
//! 12. `Renewal`: orders counted from 0 again, and what callers see of that.
#![tactic(auto)]

mod clients;
mod holders;
pub mod laws;
pub mod layout;
mod orders;
mod texts;

pub use arb_share::APPLICATIONS;
pub use clients::{ALL_THREADS, CLIENTS, ClientId, THREADS};
pub use holders::Holder;
pub use layout::Half;
pub use orders::{Entry, Event, Order, Place, Refusal, Reply};
