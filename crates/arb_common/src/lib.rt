//! One arbiter that any thread steps under a lock, and page words that any thread reads by one load, in one history.
//!
//! The page words, a lock word behind them and a slot with the [`arb_core::Core`] lie in one atomic table. There is no
//! server. A [`Member`] is one thread's side: it gives orders ([`Member::give`]) and reads words ([`Member::read`]). The
//! member that takes the lock has the arbiter. It enters the order, posts each word that the order leaves stale, and gives
//! the lock back. Each store of a page word is one event of the history, and the history is one, however threads interleave.
//!
//! Contracts see a member as the history that it has *seen*, which is legal and only grows. Each reply is the one-thread
//! arbiter's at a point of that history, never before a point that the member had seen; and each word that is read has its
//! reading at such a point. The entries of a member's own answered orders stand at its places (`mine`), which rise.
//! A [`Note`] tells another member what was seen; it has no bytes. Contracts count steps besides, so that "one load" and "one
//! store" are clauses, and how often a member found the lock taken: a member is busy only by such a step.
//!
//! [`Member::open`] makes a table and its first member, and [`Member::another`] one more, for another thread.
//!
//! ```
//! let mut member = Member::open(alloc, &topology, u64::MAX)?;
//! let other = member.another()?;
//! match member.give(client, &Order::Join) {
//!     Given::Answered(reply) => ..,
//!     Given::Busy => .., // another member has the lock: pause, and give again
//!     Given::Full => ..,
//! }
//! let orders = member.read(0);
//! ```
//!
//! A caller that has something to do between two posts takes a [`Turn`] ([`Member::begin`]): it has the lock, and enters orders
//! and posts words one by one. A [`MemberOrTurn`] is either of the two, for a caller whose types can't tell which.
//!
//! The caller gives the limit on orders, up to 2^64 - 1. Each time that the arbiter takes no further order, it is renewed, which
//! no reply, place or page word tells: word 0 counts all orders.
//!
//! No call waits. So a caller that finds the lock taken pauses and calls again. The crate takes no thread, no sleep and no
//! wake-up, so that a static library may stand on it.
//!
//! The files of `specs/`, in the order to read them:
//!
//! 1. `Sides`: a member and a note, as contracts see them. `Limits`: a machine with any limit on orders. `Giving`: what comes
//!    of an order, at once or in a turn. `Lawful`: what holds at each point of a history. With `History` and `Reading` of
//!    `arb_model` these are all that public contracts speak of.
//! 2. `Places`: which seat gave each entry. `Views`: what a seat at the table knows. `Rule`: what the table keeps, over
//!    legal histories and readings alone. `Steps`: what each step on the table tells.
#![tactic(auto)]

mod giving;
mod member;
mod member_or_turn;
mod note;
mod seats;
mod table;
mod turn;

pub use giving::Given;
pub use member::Member;
pub use member_or_turn::MemberOrTurn;
pub use note::Note;
pub use turn::Turn;
