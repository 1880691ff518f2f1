//! Orders and their replies.

ghost use Rattle.arb_model.specs.History.{FitsOrder};

use crate::clients::ClientId;
use arb_share::Request;

/// What a client orders. Its text is as in a script, an asked request with all eight entries, as `ask 2 0 0 0 0 0 0 0`.
#[derive(Clone, Copy, Debug, PartialEq, Eq, Hash)]
pub enum Order {
    /// The thread's application joins, with a request for no core.
    Join,
    /// The application's request becomes this one.
    Ask(Request),
    /// The application's cap becomes this one, 128 at most. No more of its request stands than so many cores, until it has
    /// another cap or leaves. The request itself is kept, so a greater cap lets more of it stand.
    Cap(u8),
    /// The thread gives its core back, if it has one, and waits for a core.
    Block,
    /// The thread gives its core back, if it has one, and becomes unmanaged.
    Retire,
    /// The application leaves, and all its threads become unmanaged.
    Leave,
    /// Tells what the application has.
    Status,
    /// Tells the present moment, in microseconds.
    Tick(u64),
}

impl Order {
    /// Does nothing. Its clause says that the numbers of an order fit their types, for callers whose proof needs it.
    pub fn in_range(&self)
        ensures { FitsOrder self.now }
    {
        match self {
            Order::Join | Order::Block | Order::Retire | Order::Leave | Order::Status => {}
            Order::Ask(request) => {
                // its clauses say that a request has an entry for each level, each within the limit
                let _entry = request.entry(0);
            }
            Order::Cap(cap) => {
                // a number that is read is within its type
                let _cap = *cap;
            }
            Order::Tick(moment) => {
                let _moment = *moment;
            }
        }
    }
}

/// Where a thread is.
#[derive(Clone, Copy, Debug, PartialEq, Eq, Hash)]
pub enum Place {
    /// The ordinary scheduler has it.
    Unmanaged,
    /// It waits for a core.
    Waiting,
    /// It kept its core for the grace or longer since it was asked back, and lost it: it belongs on the unmanaged cores.
    Moved,
    /// It is on a managed core.
    On {
        /// The number of the core.
        core: u16,
        /// Whether the core is asked back.
        asked: bool,
    },
}

/// Why an order is refused.
#[derive(Clone, Copy, Debug, PartialEq, Eq, Hash)]
pub enum Refusal {
    /// The application has joined before.
    AlreadyJoined,
    /// The application has not joined.
    NotJoined,
    /// The thread waits already.
    AlreadyWaiting,
    /// The moment lies before the latest one, which is this, in microseconds.
    ClockBack(u64),
    /// Only threads give such an order, and the clock gave it.
    NotAThread,
    /// The cap is above 128.
    CapTooLarge,
}

/// The answer to an order.
#[derive(Clone, Copy, Debug, PartialEq, Eq, Hash)]
pub enum Reply {
    /// The application has joined.
    Joined,
    /// The cores due to the application.
    Due(u8),
    /// Where the thread is now.
    Now(Place),
    /// The order was done.
    Done,
    /// Of the application: the cores due, owned and asked back, and the threads that wait.
    Counts {
        due: u8,
        owned: u8,
        asked: u8,
        waiting: u8,
    },
    /// How many threads were moved: each had kept its core for the grace or longer since it was asked back.
    Moved(u8),
    /// The order was refused, and changed nothing but the counts of orders.
    Refused(Refusal),
}

/// An order that was entered, and its reply.
#[derive(Clone, Copy, Debug, PartialEq, Eq, Hash)]
pub struct Entry {
    /// Who gave the order.
    pub client: ClientId,
    /// How many orders of the client were entered before.
    pub number: u32,
    /// What was ordered.
    pub order: Order,
    /// What was answered.
    pub reply: Reply,
}

/// What happens: an order is entered, or a word is posted. Histories are lists of these. Only contracts speak of it: no
/// value of it is made.
#[derive(Clone, Copy, Debug, PartialEq, Eq, Hash)]
pub enum Event {
    /// An order is entered, and with it word 0, the count of orders, grows by one.
    Entered(Entry),
    /// The page word of a number, which isn't 0, becomes a value.
    Posted(usize, u64),
}
