//! A list of orders, each with who gives it.

ghost use Rattle.std.specs.Prelude.{◌≡◌, ◌==◌, ◌<◌, ◌++◌, ◌∷◌, [], Some, length, slice_get, OnOk};
ghost use Rattle.std.specs.Option.{option_map};

use crate::given::ClientOrder;
use arb_model::{ClientId, Order};
use std::alloc::{AllocError, Global};
use std::marker::Model;

/// Orders of clients. Clients and orders are kept apart, since together each would take a quarter more.
#[derive(Debug, Drop)]
pub(crate) struct OrderList {
    clients: Vec<ClientId>,
    /// The order of the client at the same index.
    orders: Vec<Order>,
}

impl Model for OrderList {
    ghost use Rattle.std.specs.Prelude.{◌≡◌, List, length};
    ghost use Rattle.arb_script.specs.Given.{orders_by};
    ghost use Rattle.arb_script.specs.declared.given.ClientOrder.{ClientOrder as GivenOrder};

    ghost Value = { List GivenOrder };

    ghost view = { λ l. orders_by l.clients.items l.orders.items };

    ghost invariant = { λ l. length l.clients.items ≡ length l.orders.items };
}

impl OrderList {
    /// No order.
    pub(crate) fn new(alloc: Global) -> OrderList
        ensures { result ≡ [] }
    {
        OrderList {
            clients: Vec::new(alloc),
            orders: Vec::new(alloc),
        }
    }

    /// Appends an order of a client.
    ///
    /// # Errors
    /// An allocation failed.
    pub(crate) fn push(&mut self, given: ClientOrder) -> Result<(), AllocError>
        ensures { OnOk result (self.new ≡ self.old ++ given ∷ []) }
    {
        self.clients.push(given.client)?;
        if self.orders.push(given.order).is_err() {
            let _client = self.clients.pop();
            return Err(AllocError);
        }
        Ok(())
    }

    /// How many orders there are.
    pub(crate) fn len(&self) -> usize
        ensures { result ≡ length self.now }
    {
        self.orders.len()
    }

    /// Whether there is no order.
    pub(crate) fn is_empty(&self) -> bool
        ensures { result ≡ (length self.now == 0) }
    {
        self.len() == 0
    }

    /// Who gives the order at an index.
    pub(crate) fn client(&self, index: usize) -> ClientId
        requires { index < length self.now }
        ensures { option_map (λ given. given.client) (slice_get self.now index) ≡ Some result }
    {
        self.clients[index]
    }

    /// The order at an index.
    pub(crate) fn order(&self, index: usize) -> Order
        requires { index < length self.now }
        ensures { option_map (λ given. given.order) (slice_get self.now index) ≡ Some result }
    {
        self.orders[index]
    }
}
