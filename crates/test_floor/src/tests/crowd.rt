//! Crowds: how many clients play, what they give, and how they share the floor.

use std::alloc::{AllocError, Global};
use std::test::Fail;
use std::thread::{Threads, available_parallelism};

/// How many clients play: more than the queue has places.
pub const CLIENTS: usize = 72;

/// How many orders each gives: so many that the script is long. Behind the first one they are complete turns.
pub const OWN_ORDERS: usize = 67;

/// How many orders each client gives before it first waits for the floor.
pub const FIRST_ORDERS: usize = 1;

/// How many clients have the floor at a time.
pub const PLACES: usize = 8;

/// How many orders each client gives on the floor before it makes room.
pub const ORDERS: usize = 3;

/// How many clients play of which the queue has room for all.
pub const FEW: usize = 24;

/// On so many processors, or more, some of these have the floor at a time: so many more than there are processors.
const MANY_PROCESSORS: usize = 4;

const MORE_PLACES: usize = 2;

/// So many clients, which give so many orders each.
#[derive(Clone, Copy)]
pub struct Crowd {
    pub clients: usize,
    pub orders: usize,
}

/// The crowd of most tests.
pub const CROWD: Crowd = Crowd {
    clients: CLIENTS,
    orders: OWN_ORDERS,
};

impl Crowd {
    /// A script in which each client's first order comes, then each one's second, and so on. Each joins, and then blocks and retires
    /// by turns.
    pub fn script(self, alloc: Global) -> Result<String, AllocError> {
        let mut script = String::new(alloc);
        for number in 0..self.orders {
            let order = match number {
                0 => "join",
                _ if number % 2 == 1 => "block",
                _ => "retire",
            };
            for client in 0..self.clients {
                let (app, thread) = (client % 16, client / 16);
                script.push_str(format!(in alloc; "{app}.{thread} {order}\n")?.as_str())?;
            }
        }
        Ok(script)
    }

    /// How many orders all give together.
    pub fn all_orders(self) -> usize {
        self.clients.wrapping_mul(self.orders)
    }
}

/// How many clients have the floor at a time where the queue has room for all, or `None` on few processors: there all call at once.
pub fn places_of_a_few<R: Threads>(rt: &R) -> Result<Option<usize>, Fail> {
    let processors = available_parallelism(rt)?.get();
    if processors < MANY_PROCESSORS {
        return Ok(None);
    }
    Ok(Some(processors.saturating_add(MORE_PLACES)))
}

/// The client of a line of a journal.
pub fn client_of(line: &str) -> Result<usize, Fail> {
    let (name, _) = line.split_once(" ").ok_or("no order")?;
    let (app, thread) = name.split_once(".").ok_or("no client")?;
    let (app, thread) = (app.parse::<usize>()?, thread.parse::<usize>()?);
    Ok(thread.wrapping_mul(16).wrapping_add(app))
}
