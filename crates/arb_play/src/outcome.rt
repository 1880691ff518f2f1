//! What came of a script on threads.

use arb_core::Core;
use arb_house::OpenFault;
use arb_model::{CLIENTS, Entry};
use std::error::Error;
use std::fmt;

/// What is left when all threads have ended.
#[derive(Drop)]
pub struct Outcome {
    /// The entries, in their order.
    pub journal: Vec<Entry>,
    /// The arbiter after them.
    pub core: Core,
    /// Of each client, by its number: the index in the script from which on its orders came past the limit.
    pub full_from: [usize; CLIENTS],
}

/// Why a play of a script ended without a complete journal report, the first that applies in this order.
#[derive(Clone, Copy, Debug, PartialEq, Eq)]
pub enum PlayFault {
    /// The house wasn't opened: what is needed for it found no memory. No client is opened twice, so it is always
    /// [`OpenFault::Memory`].
    Open(OpenFault),
    /// A thread couldn't be started. No order was begun.
    Start,
    /// The gate gave orders up, and this is the first of them, by its index in the script.
    GaveUp(usize),
    /// The server or a client ended early, a client found no memory, a client left no past or two, or an order counted as
    /// full below the limit.
    Ended,
    /// A call of the writer of the report failed.
    Write,
}

impl fmt::Display for PlayFault {
    ghost use Rattle.std.specs.Prelude.{Some};
    ghost use Rattle.arb_play.specs.FaultText.{play_fault_text};

    ghost output = { λ fault. Some (play_fault_text fault) };

    fn fmt<W: fmt::Write>(&self, f: &mut fmt::Formatter<W>) -> fmt::Result {
        match self {
            PlayFault::Open(OpenFault::Twice(_)) => write!(f, "H1 client named twice"),
            PlayFault::Open(OpenFault::Memory) => write!(f, "out of memory"),
            PlayFault::Start => write!(f, "P2 thread not started"),
            PlayFault::GaveUp(order) => write!(f, "P3 gate gave up at order {order}"),
            PlayFault::Ended => write!(f, "P4 ended early"),
            PlayFault::Write => write!(f, "write fault"),
        }
    }
}

impl Error for PlayFault {}
