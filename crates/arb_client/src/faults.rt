//! Why a client's call failed.

use arb_model::{Place, Refusal};
use thiserror::Error;

/// Why an order wasn't posted. Nothing was posted, and the client is as before. With `Busy` it looked at word 0 of the pages,
/// and may have got more room for replies.
///
/// Where several apply, the first of this order is answered: `Gone`, `Full`, `TooManyOut`, `Memory`, `Busy`.
#[derive(Clone, Copy, Debug, PartialEq, Eq, Error)]
pub enum PostFault {
    /// The queue was full at some moment of the call.
    #[error("the queue is full")]
    Busy,
    /// As many orders are open as may be.
    #[error("as many orders are open as may be")]
    TooManyOut,
    /// The limit on orders is reached: an earlier `collect` of this client answered `Full`.
    #[error("the limit on orders is reached")]
    Full,
    /// The server was seen to have ended, now or by an earlier `wait_for_core`; or an earlier `collect` answered `Gone` or
    /// `Stranger`.
    #[error("the server has ended")]
    Gone,
    /// There was not enough memory.
    #[error("out of memory")]
    Memory,
}

/// Why no reply was collected.
#[derive(Clone, Copy, Debug, PartialEq, Eq, Error)]
pub enum CollectFault {
    /// No order is open. Nothing changes.
    #[error("no order is open")]
    NothingOut,
    /// The limit on orders is reached: what the client has seen now holds as many. The oldest open order isn't among them, nor
    /// is it entered later. It is open no longer.
    #[error("the limit on orders is reached")]
    Full,
    /// The server has ended. Nothing is said of the open orders, none is open any more, and no order is posted from now on.
    #[error("the server has ended")]
    Gone,
    /// The answer isn't to the oldest open order. The client is closed as after `Gone`.
    #[error("the answer is to another order")]
    Stranger,
}

/// Why a call got no reply.
#[derive(Clone, Copy, Debug, PartialEq, Eq, Error)]
pub enum CallFault {
    /// The order wasn't posted.
    #[error("order not posted: {0}")]
    Post(PostFault),
    /// No reply was collected.
    #[error("no reply: {0}")]
    Collect(CollectFault),
}

/// Why a wait for a core ended without one.
#[derive(Clone, Copy, Debug, PartialEq, Eq, Error)]
pub enum WaitFault {
    /// The order to block got no reply; or the server was seen to have ended, and the thread was still waiting.
    #[error("{0}")]
    Call(CallFault),
    /// The order to block was refused.
    #[error("the order to block was refused")]
    Refused(Refusal),
    /// The thread no longer waits, and is on no core: its application left, or it was moved before it looked.
    #[error("the thread no longer waits")]
    Lost(Place),
}
