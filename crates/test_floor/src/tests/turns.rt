//! What a journal shows of turns on the floor.

use crate::tests::crowd::{Crowd, FIRST_ORDERS, client_of};
use std::test::Fail;

/// The most clients of a crowd.
const MOST_CLIENTS: usize = 128;

/// What was read of one client.
#[derive(Clone, Copy)]
struct Given {
    /// How many entries it has.
    entries: usize,
    /// How many of these are of the turn that it is in the middle of.
    in_turn: usize,
    /// How many turns had ended when its last one had, if every client had begun one by then.
    left_at: Option<usize>,
}

/// The turns in a journal, as it is read: each is so many orders of a client in a row, behind its first order.
///
/// A client has the floor from the first entry of a turn to the last one. So where there is a floor, no more clients than it has places
/// are in the middle of a turn at once. A client that made room comes again behind those that waited then. All of these have ended a
/// turn by then, but for as many as have the other places.
#[derive(Drop)]
pub struct Turns {
    crowd: Crowd,
    /// How many orders a turn has.
    orders: usize,
    given: [Given; MOST_CLIENTS],
    /// How many clients have begun a turn, and whether one has given all its orders.
    begun: usize,
    is_over: bool,
    /// How many clients are in the middle of a turn, and how many turns have ended.
    in_turn: usize,
    ended: usize,
    /// The most clients that were in the middle of a turn at once.
    pub most: usize,
    /// How often a client came again after every client had begun, and before one had given all its orders.
    pub returns: usize,
    /// The fewest turns of others that ended before a client came again.
    pub fewest: usize,
}

impl Turns {
    /// Reads the report of a play by a crowd. Its turns are of so many orders.
    pub fn of(report: &str, crowd: Crowd, orders: usize) -> Result<Turns, Fail> {
        let none = Given {
            entries: 0,
            in_turn: 0,
            left_at: None,
        };
        let mut turns = Turns {
            crowd,
            orders,
            given: [none; MOST_CLIENTS],
            begun: 0,
            is_over: false,
            in_turn: 0,
            ended: 0,
            most: 0,
            returns: 0,
            fewest: usize::MAX,
        };
        for line in report.lines() {
            if line.contains(" -> ") {
                turns.enter(client_of(line)?);
            }
        }
        Ok(turns)
    }

    /// One entry more, of a client.
    fn enter(&mut self, client: usize) {
        let Some(given) = self.given.get_mut(client) else {
            return;
        };
        given.entries = given.entries.wrapping_add(1);
        if given.entries <= FIRST_ORDERS {
            return;
        }
        given.in_turn = given.in_turn.wrapping_add(1);
        let begins = given.in_turn == 1;
        let is_last = given.entries == self.crowd.orders;
        let ends = given.in_turn == self.orders || is_last;
        if ends {
            given.in_turn = 0;
        }
        self.is_over |= is_last;
        if begins {
            self.begin(client);
        }
        if ends {
            self.end(client);
        }
    }

    /// A client begins a turn.
    fn begin(&mut self, client: usize) {
        self.in_turn = self.in_turn.wrapping_add(1);
        self.most = self.most.max(self.in_turn);
        let Some(given) = self.given.get(client) else {
            return;
        };
        if given.entries == FIRST_ORDERS + 1 {
            self.begun = self.begun.wrapping_add(1);
        }
        if let Some(before) = given.left_at
            && !self.is_over
        {
            self.returns = self.returns.wrapping_add(1);
            self.fewest = self.fewest.min(self.ended.wrapping_sub(before));
        }
    }

    /// A client ends its turn.
    fn end(&mut self, client: usize) {
        self.in_turn = self.in_turn.wrapping_sub(1);
        self.ended = self.ended.wrapping_add(1);
        let all_have_begun = self.begun == self.crowd.clients;
        if let Some(given) = self.given.get_mut(client)
            && all_have_begun
        {
            given.left_at = Some(self.ended);
        }
    }
}
