//! Who orders: the threads of the applications, and the clock.

ghost use Rattle.std.specs.Prelude.{◌≡◌, ℕ, ◌+◌, ◌*◌, ◌%◌, ◌<◌, ◌==◌};
ghost use Rattle.std.specs.Option.{SomeIff};
ghost use Rattle.arb_share.specs.Limits.{applications};
ghost use Rattle.arb_model.specs.Limits.{all_threads, clients, threads};
ghost use Rattle.arb_model.specs.Standing.{app_of, the_clock};

use arb_share::APPLICATIONS;
use std::marker::Model;

/// How many threads an application may have, numbered from 0.
pub const THREADS: usize = 32;

/// How many threads all applications may have together. They are numbered from 0, application by application.
pub const ALL_THREADS: usize = APPLICATIONS * THREADS;

/// How many clients there are: all threads, and the clock as the last.
pub const CLIENTS: usize = ALL_THREADS + 1;

/// A client of the arbiter: one of the threads of an application, or the clock. Its text is `clock`, or the numbers of
/// the application and of its thread with a dot between them, as `2.0`.
#[derive(Clone, Copy, Debug, PartialEq, Eq, Hash)]
pub struct ClientId {
    index: u16,
}

impl Model for ClientId {
    ghost use Rattle.std.specs.Prelude.{ℕ, ◌<◌};
    ghost use Rattle.arb_model.specs.Limits.{clients};

    ghost Value = { ℕ };

    ghost view = { λ c. c.index };

    ghost invariant = { λ c. c.index < clients };

    ghost inverse = { λ n. record { index = n } };
}

impl ClientId {
    /// A thread of an application, both numbered from 0. `None` where the application isn't below [`APPLICATIONS`] or the
    /// thread isn't below [`THREADS`].
    pub fn app(app: u8, thread: u8) -> Option<ClientId>
        ensures { SomeIff result ((app < applications) × (thread < threads)) (threads * app + thread) }
    {
        let (app, thread) = (app as usize, thread as usize);
        if app < APPLICATIONS && thread < THREADS {
            Some(ClientId {
                index: (THREADS * app + thread) as u16,
            })
        } else {
            None
        }
    }

    /// The clock. All its orders but ticks are refused.
    pub fn clock() -> ClientId
        ensures { result ≡ the_clock }
    {
        ClientId {
            index: (CLIENTS - 1) as u16,
        }
    }

    /// The thread of a number among all threads, which is below [`ALL_THREADS`].
    pub fn of_thread(number: u16) -> ClientId
        requires { number < all_threads }
        ensures { result ≡ number }
    {
        ClientId { index: number }
    }

    /// Whether this is the clock.
    pub fn is_clock(&self) -> bool
        ensures { result ≡ (self.now == the_clock) }
    {
        self.index() == ALL_THREADS
    }

    /// The client's number among all clients: [`THREADS`] times the application, plus the thread. The clock's is
    /// [`ALL_THREADS`].
    pub fn index(&self) -> usize
        ensures value { result ≡ self.now }
        ensures within { result < clients }
    {
        self.index as usize
    }

    /// The application's number, or `None` for the clock.
    pub fn app_no(&self) -> Option<u8>
        ensures { SomeIff result (self.now < all_threads) (app_of self.now) }
    {
        if self.is_clock() {
            None
        } else {
            Some((self.index() / THREADS) as u8)
        }
    }

    /// The number of the thread within its application, or `None` for the clock.
    pub fn thread_no(&self) -> Option<u8>
        ensures { SomeIff result (self.now < all_threads) (self.now % threads) }
    {
        if self.is_clock() {
            None
        } else {
            Some((self.index() % THREADS) as u8)
        }
    }
}
