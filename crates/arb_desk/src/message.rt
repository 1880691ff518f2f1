//! What a client puts into the queue.

use arb_model::{ClientId, Order};

/// What a message says.
#[derive(Clone, Copy, Debug, PartialEq, Eq)]
pub enum Body {
    /// The client orders this.
    Put(Order),
    /// The client closes: no message of it follows.
    Close,
}

/// A message of a client to the server.
#[derive(Clone, Copy, Debug, PartialEq, Eq)]
pub struct Message {
    /// Who put it.
    pub client: ClientId,
    /// What it says.
    pub body: Body,
}
