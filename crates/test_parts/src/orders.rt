//! Clients, requests and orders in a few words.

use arb_model::{ClientId, Order, Reply};
use arb_share::Request;

/// The counts of an application that asked for nothing.
pub const NO_COUNTS: Reply = Reply::Counts {
    due: 0,
    owned: 0,
    asked: 0,
    waiting: 0,
};

/// The thread of an application; the clock where there is no such thread.
pub fn thread(app: u8, number: u8) -> ClientId {
    ClientId::app(app, number).unwrap_or(ClientId::clock())
}

/// A client in a constant table, which holds no client's number: the numbers of its application and of its thread, or [`CLOCK`].
pub type Named = (u8, u8);

/// The clock, which is no thread.
pub const CLOCK: Named = (u8::MAX, 0);

/// The client that is named.
pub fn client_of(named: Named) -> ClientId {
    thread(named.0, named.1)
}

/// A request with these entries; the empty one where they are too many.
pub fn request(entries: [u8; 8]) -> Request {
    Request::new(entries).unwrap_or_default()
}

/// An order for so many cores at level 0, and none at the others.
pub fn ask(cores: u8) -> Order {
    Order::Ask(Request::at(0, cores).unwrap_or_default())
}

/// An order for so many cores at each level.
pub fn ask_for(entries: [u8; 8]) -> Order {
    Order::Ask(request(entries))
}

/// An order in a constant table, which holds no request.
#[derive(Clone, Copy)]
pub enum Gives {
    Join,
    /// It asks for so many cores at level 0.
    Ask(u8),
    Block,
    Leave,
    Status,
    Tick(u64),
}

impl Gives {
    pub fn order(self) -> Order {
        match self {
            Gives::Join => Order::Join,
            Gives::Ask(cores) => ask(cores),
            Gives::Block => Order::Block,
            Gives::Leave => Order::Leave,
            Gives::Status => Order::Status,
            Gives::Tick(moment) => Order::Tick(moment),
        }
    }
}
