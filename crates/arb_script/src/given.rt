//! An order and who gives it.

use arb_model::{ClientId, Order};

/// An order of a client.
#[derive(Clone, Copy, Debug, PartialEq, Eq)]
pub struct ClientOrder {
    /// Who gives the order.
    pub client: ClientId,
    /// What is ordered.
    pub order: Order,
}
