//! One order held back for another.

ghost use Rattle.std.specs.Prelude.{◌≡◌, ◌≢◌, ◌⊎◌, IsFalse, IsTrue};
ghost use Rattle.arb_play.specs.Holding.{Calls, CallsAtMost};

use crate::gate::Gate;
use std::marker::Model;
use std::sync::Wait;
use std::sync::atomic::{AtomicBool, Ordering};
use std::thread;

/// Holds one order back until another was given, for so many turns at most. Every other order goes at once.
///
/// Contracts see the order that it holds back, the order that it waits for, and the limit on its turns.
#[derive(Drop)]
pub struct HoldGate {
    held: usize,
    until: usize,
    limit: u64,
    /// Whether the order that is awaited was given.
    given: AtomicBool,
    /// Whether the turns are used up.
    used_up: AtomicBool,
}

impl Model for HoldGate {
    ghost use Rattle.arb_play.specs.Holding.{Holding};

    ghost Value = { Holding };

    ghost view = { λ g. record { held = g.held; until = g.until; limit = g.limit } };
}

impl HoldGate {
    /// Holds order `held` back until order `until` was given, for at most `limit` turns.
    pub fn new(held: usize, until: usize, limit: u64) -> HoldGate
        ensures { result ≡ record { held = held; until = until; limit = limit } }
    {
        HoldGate {
            held,
            until,
            limit,
            given: AtomicBool::new(false),
            used_up: AtomicBool::new(false),
        }
    }

    /// Waits for the order's turn, which comes in at most so many turns of a loop that each yield: it takes no runtime,
    /// so it returns whatever other threads do. Once the turns are used up it is false for the held order, then and at
    /// every later call. A gate without a turn gives the held order up at once.
    pub fn is_let_through(&self, order: usize) -> bool
        ensures given_up { IsFalse result → order ≡ self.now.held }
        ensures let_through { IsTrue result → order ≡ self.now.held → self.now.limit ≢ 0 }
    {
        self.is_let_through_by(order, &mut || thread::yield_now())
    }

    /// [`HoldGate::is_let_through`], with a pause of the caller's in place of the yield.
    pub fn is_let_through_by<F: FnMut()>(&self, order: usize, pause: &mut F) -> bool
        requires { F.IsAlwaysCallable pause.old }
        ensures given_up { IsFalse result → order ≡ self.now.held }
        ensures let_through { IsTrue result → order ≡ self.now.held → self.now.limit ≢ 0 }
        ensures turns { CallsAtMost (λ before after. F.step before tt after) self.now.limit pause.old pause.new }

        // it gives up after as many pauses as there are turns, or after none, as where these were used up before
        ensures used_up { IsFalse result → Calls (λ before after. F.step before tt after) self.now.limit pause.old pause.new ⊎ (pause.new ≡ pause.old) }
    {
        if order != self.held {
            return true;
        }
        if self.used_up.load(Ordering::SeqCst) {
            return false;
        }
        let goes = self.take_turns(pause);
        if !goes {
            self.used_up.store(true, Ordering::SeqCst);
        }
        goes
    }

    /// Takes the turns of the held order, with a pause at the end of each. Gives whether it goes; else all turns are used up.
    fn take_turns<F: FnMut()>(&self, pause: &mut F) -> bool
        requires { F.IsAlwaysCallable pause.old }
        ensures let_through { IsTrue result → self.now.limit ≢ 0 }
        ensures turns { IsTrue result → CallsAtMost (λ before after. F.step before tt after) self.now.limit pause.old pause.new }

        // it gives up only after as many pauses as there are turns
        ensures used_up { IsFalse result → Calls (λ before after. F.step before tt after) self.now.limit pause.old pause.new }
    {
        for _turn in 0..self.limit {
            if self.given.load(Ordering::SeqCst) {
                return true;
            }
            pause();
        }
        false
    }
}

impl Gate for HoldGate {
    ghost use Rattle.std.specs.Prelude.{◌≡◌, ◌≢◌};

    ghost may_give_up = { λ hold order. order ≡ hold.held };

    /// The held order only where there is a turn.
    ghost may_let_through = { λ hold order. order ≡ hold.held → hold.limit ≢ 0 };

    /// As [`HoldGate::is_let_through`].
    fn before<R: Wait>(&self, _rt: &R, order: usize) -> bool {
        self.is_let_through(order)
    }

    /// Lets the held order through where this is the order that it waits for.
    fn after<R: Wait>(&self, _rt: &R, order: usize) {
        if order == self.until {
            self.given.store(true, Ordering::SeqCst);
        }
    }
}
