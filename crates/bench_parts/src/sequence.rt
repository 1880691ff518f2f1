//! A mixed sequence of orders, the same in each run.
//!
//! Sixteen applications, with 32 threads each, join and ask for cores. Then orders of all kinds follow, in a fixed mixture.

ghost use Rattle.std.specs.Prelude.{◌<◌};

use arb_config::MAX_ORDERS;
use arb_core::{APPLICATIONS, ClientId, Order, THREADS};
use arb_share::{LEVELS, Request};
use std::alloc::{AllocError, Global};

/// The most orders of a sequence: the arbiter's own limit.
pub const MOST: usize = MAX_ORDERS as usize;

/// The seed of the sequence that is measured.
pub const SEED: u64 = 20_260_101;

/// What the linear congruence multiplies the last state by, and adds to it.
const FACTOR: u64 = 6_364_136_223_846_793_005;

const SUMMAND: u64 = 1_442_695_040_888_963_407;

/// An order, and who gives it.
pub type Given = (ClientId, Order);

/// A sequence, of which order after order is made at random: by a linear congruence, of which the upper half is used.
#[derive(Drop)]
pub struct Sequence {
    state: u64,
    /// How many orders came from applications that join, and then ask, for the first time.
    opened: u8,
    /// The last moment of the clock.
    moment: u64,
    /// The application that has left, if one has.
    absent: Option<u8>,
}

/// An order of the first thread of an application.
fn first_of(app: u8, order: Order) -> Given {
    (ClientId::app(app, 0).unwrap_or(ClientId::clock()), order)
}

impl Sequence {
    /// The sequence of a seed.
    pub fn new(seed: u64) -> Sequence {
        Sequence {
            state: seed,
            opened: 0,
            moment: 0,
            absent: None,
        }
    }

    /// A number below so many.
    fn roll(&mut self, sides: u64) -> u64
        requires { 0 < sides }
        ensures { result < sides }
    {
        self.state = self.state.wrapping_mul(FACTOR).wrapping_add(SUMMAND);
        (self.state >> 32) % sides
    }

    /// One of the sixteen applications.
    fn app(&mut self) -> u8 {
        self.roll(APPLICATIONS as u64) as u8
    }

    /// One of the threads of all applications.
    fn thread(&mut self) -> ClientId {
        let app = self.app();
        let thread = self.roll(THREADS as u64) as u8;
        ClientId::app(app, thread).unwrap_or(ClientId::clock())
    }

    /// A request for up to eight cores, at one or two levels.
    fn request(&mut self) -> Request {
        let mut entries = [0; LEVELS];
        for _ in 0..1 + self.roll(2) {
            let level = self.roll(LEVELS as u64) as usize;
            entries[level] = self.roll(9) as u8;
        }
        Request::new(entries).unwrap_or(Request::default())
    }

    /// The next order: each application joins and asks, and then orders of all kinds follow. An application that has left
    /// joins again, after twenty orders on average.
    pub fn next_order(&mut self) -> Given {
        let app = self.opened / 2;
        if (app as usize) < APPLICATIONS {
            self.opened += 1;
            return match self.opened % 2 {
                1 => first_of(app, Order::Join),
                _ => first_of(app, Order::Ask(self.request())),
            };
        }
        if self.absent.is_some() && self.roll(20) == 0 {
            return self.join_or_leave();
        }
        self.mixed()
    }

    /// An order of any kind: of 10,000 about 6,000 block, 1,800 ask, 800 are ticks, 600 retire, 750 ask for the status,
    /// 25 leave, and as many join. By a tick the clock goes on by 200 to 4,200 microseconds.
    fn mixed(&mut self) -> Given {
        match self.roll(9975) {
            0..6000 => (self.thread(), Order::Block),
            6000..7800 => (self.thread(), Order::Ask(self.request())),
            7800..8600 => {
                self.moment = self.moment.wrapping_add(200 + self.roll(4001));
                (ClientId::clock(), Order::Tick(self.moment))
            }
            8600..9200 => (self.thread(), Order::Retire),
            9200..9950 => (self.thread(), Order::Status),
            _ => self.join_or_leave(),
        }
    }

    /// The application that has left joins; where none has, one leaves.
    fn join_or_leave(&mut self) -> Given {
        if let Some(app) = self.absent.take() {
            return first_of(app, Order::Join);
        }
        let app = self.app();
        self.absent = Some(app);
        first_of(app, Order::Leave)
    }
}

/// The first orders of the sequence that is measured.
pub fn first_orders(alloc: Global, count: usize) -> Result<Vec<Given>, AllocError> {
    let mut sequence = Sequence::new(SEED);
    let mut orders = Vec::new(alloc);
    for _ in 0..count {
        orders.push(sequence.next_order())?;
    }
    Ok(orders)
}
