//! Orders at random.

use arb_core::{ClientId, Order};
use arb_share::Request;

/// A generator of numbers that look random: a linear congruence, of which the upper half is used.
#[derive(Drop)]
pub struct Dice {
    pub state: u64,
    /// How many applications give orders, and how many threads of each.
    pub apps: u64,
    pub threads: u64,
    /// A tick goes on by up to five of these, so that the grace is met exactly now and then.
    pub step: u64,
}

impl Dice {
    /// A number below so many.
    pub fn roll(&mut self, sides: u64) -> u64 {
        self.state = self
            .state
            .wrapping_mul(6_364_136_223_846_793_005)
            .wrapping_add(1_442_695_040_888_963_407);
        (self.state >> 32) % sides.max(1)
    }

    /// A number below so many, at most 256.
    fn small(&mut self, sides: u64) -> u8 {
        u8::try_from(self.roll(sides)).unwrap_or(0)
    }

    /// A thread, or now and then the clock.
    pub fn client(&mut self) -> ClientId {
        if self.roll(12) == 0 {
            return ClientId::clock();
        }
        let app = self.small(self.apps);
        let thread = self.small(self.threads);
        ClientId::app(app, thread).unwrap_or(ClientId::clock())
    }

    /// A request at some of the eight levels, for few cores mostly, and now and then for up to 128.
    pub fn request(&mut self) -> Request {
        let mut entries = [0; 8];
        for level in 0..8 {
            entries[level] = match self.roll(12) {
                0 => self.small(2),
                1 => self.small(5),
                2 => self.small(9),
                3 => self.small(129),
                _ => 0,
            };
        }
        Request::new(entries).unwrap_or(Request::default())
    }

    /// A cap, which cuts most requests or few, or is too large now and then.
    fn cap(&mut self) -> u8 {
        match self.roll(4) {
            0 => self.small(5),
            1 => self.small(33),
            2 => self.small(129),
            _ => 120u8.saturating_add(self.small(21)),
        }
    }

    /// A moment near the clock, before it now and then.
    fn moment(&mut self, clock: u64) -> u64 {
        if self.roll(8) == 0 {
            return clock.saturating_sub(self.roll(self.step));
        }
        clock.saturating_add(self.step.wrapping_mul(self.roll(6)))
    }

    /// An order of any kind.
    pub fn order(&mut self, clock: u64) -> Order {
        match self.roll(100) {
            0..9 => Order::Join,
            9..24 => Order::Ask(self.request()),
            24..29 => Order::Cap(self.cap()),
            29..64 => Order::Block,
            64..71 => Order::Retire,
            71..73 => Order::Leave,
            73..83 => Order::Status,
            _ => Order::Tick(self.moment(clock)),
        }
    }
}
