//! A second arbiter, as plain and as slow as can be: it keeps where each thread is and nothing else about cores, and
//! finds all the rest by going over the threads.

use arb_core::{Order, Place, Refusal, Reply};
use arb_share::Request;

// The limits and the layout of the page words are written out once more: this arbiter is independent.

/// How many applications there are at most.
pub const APPLICATIONS: usize = 16;

/// How many threads an application has at most.
pub const THREADS: usize = 32;

/// How many threads all applications have together.
pub const ALL_THREADS: usize = 512;

/// How many clients there are: all threads, and the clock.
pub const CLIENTS: usize = 513;

/// How many managed cores there are at most.
pub const CORES: usize = 128;

/// The largest cap of an application.
const MAX_CAP: u8 = 128;

/// The first place word.
pub const FIRST_PLACE: usize = 33;

/// How many page words there are.
pub const WORDS: usize = 545;

/// Where a thread is.
#[derive(Clone, Copy, Debug, PartialEq, Eq)]
pub enum Spot {
    Unmanaged,
    /// It waits, and came with this ticket.
    Waiting(u64),
    Moved,
    /// It is on the core at a position, which is asked back since a moment, or is not.
    On(u32, Option<u64>),
}

/// The arbiter.
#[derive(Drop)]
pub struct Plain {
    /// The number and the socket of each managed core, by position.
    pub cores: [Option<(u16, u8)>; CORES],
    pub grace: u64,
    /// The request of each application that has joined, as it was asked for.
    pub requests: [Option<Request>; APPLICATIONS],
    /// The cap of each application that has one.
    pub caps: [Option<u8>; APPLICATIONS],
    pub spots: [Spot; ALL_THREADS],
    /// The ticket of the next thread that waits.
    pub ticket: u64,
    pub clock: u64,
    /// The orders of each thread, and of the clock.
    pub counts: [u64; CLIENTS],
    pub posted: [u64; WORDS],
}

impl Plain {
    pub fn new(cores: &[(u16, u8)], grace: u64) -> Plain {
        let mut all = [None; CORES];
        for position in 0..CORES {
            all[position] = cores.get(position).copied();
        }
        Plain {
            cores: all,
            grace,
            requests: [None; APPLICATIONS],
            caps: [None; APPLICATIONS],
            spots: [Spot::Unmanaged; ALL_THREADS],
            ticket: 0,
            clock: 0,
            counts: [0; CLIENTS],
            posted: [0; WORDS],
        }
    }

    /// Enters an order of a client: 32 times the application and the thread, 512 for the clock.
    pub fn step(&mut self, client: usize, order: &Order) -> Reply {
        if let Some(count) = self.counts.get_mut(client) {
            *count = count.wrapping_add(1);
        }
        let reply = self.answer(client, order);
        self.posted[0] = self.word(0);
        reply
    }

    /// Orders are counted from 0 again, and all else stays.
    pub fn renew(&mut self) {
        self.counts = [0; CLIENTS];
        self.posted[0] = 0;
    }

    fn answer(&mut self, client: usize, order: &Order) -> Reply {
        if let Some(refusal) = self.refusal(client, order) {
            return Reply::Refused(refusal);
        }
        let moved = self.change(client, order);
        let due = self.due();
        self.ask_back(&due);
        self.grant_all(&due);
        self.reply(client, order, moved)
    }

    /// Where a thread is; the clock is nowhere.
    pub fn spot(&self, client: usize) -> Spot {
        match self.spots.get(client) {
            Some(spot) => *spot,
            None => Spot::Unmanaged,
        }
    }

    fn set_spot(&mut self, client: usize, spot: Spot) {
        if let Some(old) = self.spots.get_mut(client) {
            *old = spot;
        }
    }

    fn has_joined(&self, client: usize) -> bool {
        match self.requests.get(client / THREADS) {
            Some(request) => request.is_some(),
            None => false,
        }
    }

    fn set_request(&mut self, client: usize, request: Option<Request>) {
        if let Some(old) = self.requests.get_mut(client / THREADS) {
            *old = request;
        }
    }

    fn set_cap(&mut self, client: usize, cap: Option<u8>) {
        if let Some(old) = self.caps.get_mut(client / THREADS) {
            *old = cap;
        }
    }

    /// Why an order is refused, if it is.
    fn refusal(&self, client: usize, order: &Order) -> Option<Refusal> {
        if let Order::Tick(moment) = order {
            return if *moment < self.clock {
                Some(Refusal::ClockBack(self.clock))
            } else {
                None
            };
        }
        if client == ALL_THREADS {
            return Some(Refusal::NotAThread);
        }
        let joined = self.has_joined(client);
        let joins = matches!(order, Order::Join);
        if joins && joined {
            return Some(Refusal::AlreadyJoined);
        }
        if !joins && !joined {
            return Some(Refusal::NotJoined);
        }
        match (order, self.spot(client)) {
            (Order::Cap(cap), _) if *cap > MAX_CAP => Some(Refusal::CapTooLarge),
            (Order::Block, Spot::Waiting(_)) => Some(Refusal::AlreadyWaiting),
            _ => None,
        }
    }

    /// What an order changes by itself; gives how many threads it moved.
    fn change(&mut self, client: usize, order: &Order) -> u8 {
        match order {
            Order::Join => {
                self.set_request(client, Some(Request::default()));
                self.set_cap(client, None);
            }
            Order::Ask(request) => self.set_request(client, Some(*request)),
            Order::Cap(cap) => self.set_cap(client, Some(*cap)),
            Order::Block => {
                self.set_spot(client, Spot::Waiting(self.ticket));
                self.ticket = self.ticket.wrapping_add(1);
            }
            Order::Retire => self.set_spot(client, Spot::Unmanaged),
            Order::Leave => {
                self.set_request(client, None);
                self.set_cap(client, None);
                self.clear(client / THREADS);
            }
            Order::Status => {}
            Order::Tick(moment) => {
                self.clock = *moment;
                return self.move_overdue();
            }
        }
        0
    }

    /// All threads of an application become unmanaged.
    fn clear(&mut self, app: usize) {
        for thread in 0..ALL_THREADS {
            if thread / THREADS == app {
                self.spots[thread] = Spot::Unmanaged;
            }
        }
    }

    /// Moves the threads whose core is asked back for the grace or longer.
    fn move_overdue(&mut self) -> u8 {
        let mut moved: u8 = 0;
        for thread in 0..ALL_THREADS {
            if let Spot::On(_, Some(since)) = self.spots[thread] {
                if self.clock.saturating_sub(since) >= self.grace {
                    self.spots[thread] = Spot::Moved;
                    moved = moved.wrapping_add(1);
                }
            }
        }
        moved
    }

    fn reply(&self, client: usize, order: &Order, moved: u8) -> Reply {
        let app = client / THREADS;
        match order {
            Order::Join => Reply::Joined,
            Order::Ask(_) | Order::Cap(_) => Reply::Due(self.due_of(app)),
            Order::Block => Reply::Now(self.place(client)),
            Order::Retire | Order::Leave => Reply::Done,
            Order::Status => Reply::Counts {
                due: self.due_of(app),
                owned: self.owned(app),
                asked: self.asked(app),
                waiting: self.waiting(app),
            },
            Order::Tick(_) => Reply::Moved(moved),
        }
    }

    /// Where a thread is, as callers see it.
    pub fn place(&self, client: usize) -> Place {
        match self.spot(client) {
            Spot::Unmanaged => Place::Unmanaged,
            Spot::Waiting(_) => Place::Waiting,
            Spot::Moved => Place::Moved,
            Spot::On(position, asked) => match self.core(position) {
                Some((core, _)) => Place::On {
                    core,
                    asked: asked.is_some(),
                },
                None => Place::Unmanaged,
            },
        }
    }

    /// The number and the socket of the managed core at a position, where there is one.
    pub fn core(&self, position: u32) -> Option<(u16, u8)> {
        match self.cores.get(position as usize) {
            Some(core) => *core,
            None => None,
        }
    }

    /// The thread that is on the core at a position.
    pub fn owner(&self, position: u32) -> Option<usize> {
        for thread in 0..ALL_THREADS {
            if let Spot::On(held, _) = self.spots[thread] {
                if held == position {
                    return Some(thread);
                }
            }
        }
        None
    }
}
