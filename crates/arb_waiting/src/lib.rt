//! Threads that share an arbiter without a server, with calls that wait.
//!
//! A [`WaitingMember`] is one thread's side, over a member of `arb_common`. [`WaitingMember::give`] gives an order however long
//! another member has the lock. [`WaitingMember::wait_for_core`] reads a thread's place until the thread no longer waits. Both
//! look a few times at once, and then sleep. [`WaitingMember::place`], [`WaitingMember::must_release`] and
//! [`WaitingMember::read`] are one load each, and never wait.
//!
//! ```
//! let mut member = WaitingMember::open(alloc, &topology, u64::MAX)?;
//! let other = member.another()?; // for another thread
//! member.give(rt, client, &Order::Join);
//! member.give(rt, client, &Order::Ask(request));
//! member.give(rt, client, &Order::Block);
//! let place = member.wait_for_core(rt, client);
//! ```
//!
//! Who gives an order posts the words that it leaves stale, and wakes each thread whose place word then doesn't say waiting. Who
//! gives the lock back wakes one that waits for it. What they sleep on is no page word, so sleeping and waking are no steps of the
//! history. No contract says that a sleeper wakes; `bell.rt` and `waiters.rt` of `arb_page` say why it does.
//!
//! Contracts see a waiting member as they see a member of `arb_common`, by its `Side`. An order stands in the one history as one
//! that was given at once; the tries that found the lock taken are steps before it.
//!
//! The files of `specs/`: `Trying` says how a member takes the lock, and what comes of an order then.
#![tactic(auto)]

mod giving;
mod member;
mod readings;
mod sleepers;

pub use arb_config::{ConfigFault, Topology};
pub use arb_model::{ClientId, Half, Order, Place, Refusal, Reply, layout};
pub use arb_share::{Request, TooMany};
pub use member::WaitingMember;
