//! Orders, one after another: of applications that contend for cores.

use crate::dice::Dice;
use arb_core::{APPLICATIONS, ClientId, Order, THREADS};
use arb_share::{LEVELS, Request};

/// An order, and who gives it.
pub type Given = (ClientId, Order);

/// How many threads there are.
const ALL_THREADS: usize = APPLICATIONS * THREADS;

/// What orders a mixture has.
#[derive(Clone, Copy, PartialEq, Eq)]
pub enum Kind {
    /// Of 100 orders some 40 block, 20 ask, 15 retire, 10 ask for the status, 6 are ticks, and some set caps, leave and join.
    Usual,
    /// Nearly all ask, for up to 128 cores at each level, or set a cap.
    Asks,
    /// Each fifth is a tick.
    Ticks,
    /// Half of them are refused.
    Refused,
}

/// Who gives the orders.
#[derive(Clone, Copy)]
pub struct Crowd {
    /// How many applications there are.
    pub apps: u16,
    /// How many threads each has.
    pub threads: u16,
    /// How many threads take part at a time: the others are unmanaged.
    pub active: u16,
}

/// As many threads as there may be; of those that take part each second one finds a core, or more.
pub const EVERYBODY: Crowd = Crowd {
    apps: 16,
    threads: 32,
    active: 192,
};

/// A mixture of orders, of which one after another is made.
#[derive(Drop)]
pub struct Mix {
    dice: Dice,
    kind: Kind,
    apps: u16,
    active: u16,
    /// How many orders came from applications that join, and then ask, for the first time.
    opened: u16,
    /// The last moment of the clock.
    moment: u64,
    /// The application that has left, if one has.
    absent: Option<u16>,
    /// The threads, those that take part first.
    threads: [u16; ALL_THREADS],
    /// How many threads there are.
    all: u16,
    /// How many of them take part.
    taking: u16,
}

impl Mix {
    /// The mixture of a crowd, before its first order.
    pub fn new(dice: Dice, kind: Kind, crowd: Crowd) -> Mix {
        let apps = crowd.apps.clamp(1, APPLICATIONS as u16);
        let mut threads = [0; ALL_THREADS];
        let mut all = 0u16;
        for thread in 0..crowd.threads.min(THREADS as u16) {
            for app in 0..apps {
                threads[all as usize % ALL_THREADS] = app * THREADS as u16 + thread;
                all = all.wrapping_add(1);
            }
        }
        Mix {
            dice,
            kind,
            apps,
            active: crowd.active,
            opened: 0,
            moment: 0,
            absent: None,
            threads,
            all,
            taking: 0,
        }
    }

    /// The next order. Each application joins and asks first. One that has left joins again, after twenty orders on average.
    pub fn next_order(&mut self) -> Given {
        let app = self.opened / 2;
        if app < self.apps {
            self.opened = self.opened.wrapping_add(1);
            return match self.opened % 2 {
                1 => (thread_of(app, 0), Order::Join),
                _ => (thread_of(app, 0), self.ask(9)),
            };
        }
        if self.absent.is_some() && self.dice.roll(20) == 0 {
            return self.leave_or_join();
        }
        match self.kind {
            Kind::Usual => self.usual(),
            Kind::Asks => self.asking(),
            Kind::Ticks => self.ticking(),
            Kind::Refused => self.refused(),
        }
    }

    /// An order of the usual mixture.
    fn usual(&mut self) -> Given {
        match self.dice.roll(100) {
            0..42 => self.block(),
            42..62 => (self.anyone(), self.ask(9)),
            62..77 => self.retire(),
            77..87 => (self.anyone(), Order::Status),
            87..93 => self.tick(4001),
            93..98 => (self.anyone(), Order::Cap(8 + self.dice.roll(121) as u8)),
            _ => self.leave_or_join(),
        }
    }

    /// An order of a mixture of asks.
    fn asking(&mut self) -> Given {
        match self.dice.roll(100) {
            0..70 => (self.anyone(), self.ask(129)),
            70..85 => (self.anyone(), Order::Cap(self.dice.roll(129) as u8)),
            85..90 => self.tick(4001),
            90..99 => self.block(),
            _ => self.retire(),
        }
    }

    /// An order of a mixture of ticks that move threads.
    fn ticking(&mut self) -> Given {
        match self.dice.roll(100) {
            0..45 => self.block(),
            45..75 => (self.anyone(), self.ask(33)),
            75..95 => self.tick(100),
            _ => (self.anyone(), Order::Status),
        }
    }

    /// An order of a mixture of which half is refused.
    fn refused(&mut self) -> Given {
        match self.dice.roll(100) {
            0..10 => (ClientId::clock(), Order::Block),
            10..20 => (self.anyone(), Order::Join),
            20..30 => (ClientId::clock(), Order::Tick(0)),
            30..40 => (self.anyone(), Order::Cap(200)),
            _ => self.usual(),
        }
    }

    /// A thread that takes part blocks, or one more does.
    fn block(&mut self) -> Given {
        if self.taking < self.active.min(self.all) {
            let others = u64::from(self.all.wrapping_sub(self.taking)).max(1);
            let other = self
                .taking
                .wrapping_add(self.dice.roll(others) as u16 % 512);
            self.swap(self.taking, other);
            self.taking = self.taking.wrapping_add(1);
            return (self.thread_at(self.taking.wrapping_sub(1)), Order::Block);
        }
        let index = self.dice.roll(u64::from(self.taking).max(1)) as u16 % 512;
        (self.thread_at(index), Order::Block)
    }

    /// A thread that takes part retires.
    fn retire(&mut self) -> Given {
        let index = self.dice.roll(u64::from(self.taking).max(1)) as u16 % 512;
        self.taking = self.taking.saturating_sub(1);
        self.swap(index, self.taking);
        (self.thread_at(self.taking), Order::Retire)
    }

    /// A tick, later than the last one by 200 microseconds and some more, below a limit.
    fn tick(&mut self, more: u64) -> Given {
        let step = self.dice.roll(more.max(1)).wrapping_add(200);
        self.moment = self.moment.wrapping_add(step);
        (ClientId::clock(), Order::Tick(self.moment))
    }

    /// An order to ask at one to eight levels, at each for a number of cores below a limit.
    fn ask(&mut self, limit: u64) -> Order {
        let mut entries = [0; LEVELS];
        for _ in 0..1 + self.dice.roll(4) {
            let level = self.dice.roll(LEVELS as u64) as usize;
            entries[level] = (self.dice.roll(limit.max(1)) % 129) as u8;
        }
        Order::Ask(Request::new(entries).unwrap_or(Request::default()))
    }

    /// The application that has left joins; where none has, one leaves.
    fn leave_or_join(&mut self) -> Given {
        if let Some(app) = self.absent.take() {
            return (thread_of(app, 0), Order::Join);
        }
        let app = self.dice.roll(u64::from(self.apps).max(1)) as u16 % 16;
        self.absent = Some(app);
        (thread_of(app, 0), Order::Leave)
    }

    /// Any thread.
    fn anyone(&mut self) -> ClientId {
        let index = self.dice.roll(u64::from(self.all).max(1)) as u16 % 512;
        self.thread_at(index)
    }

    /// The thread at an index.
    fn thread_at(&self, index: u16) -> ClientId {
        ClientId::of_thread(self.threads[index as usize % ALL_THREADS] % ALL_THREADS as u16)
    }

    /// Changes the places of two threads.
    fn swap(&mut self, a: u16, b: u16) {
        let (a, b) = (a as usize % ALL_THREADS, b as usize % ALL_THREADS);
        self.threads.swap(a, b);
    }
}

/// A thread of an application.
pub fn thread_of(app: u16, thread: u16) -> ClientId {
    ClientId::of_thread(app % 16 * 32 + thread % 32)
}
