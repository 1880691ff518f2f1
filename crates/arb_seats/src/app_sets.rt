//! A set of positions for each application.

ghost use Rattle.std.specs.Prelude.{◌≡◌, ◌==◌, ◌&&◌, ◌<◌, ◌≤◌, ℕ, Bool, count_ones, false, true, if◌then◌else◌, replicate, slice_index};
ghost use Rattle.arb_seats.specs.Bits.{has_bit};
ghost use Rattle.arb_seats.specs.CoreSets.{IsSetOf, set_size};
ghost use Rattle.arb_model.specs.Lists.{count_below};
ghost use Rattle.arb_model.specs.Standing.{app_of};
ghost use Rattle.arb_model.specs.Limits.{all_threads};
ghost use Rattle.arb_share.specs.Limits.{applications};

use crate::holders::application_of;
use crate::positions::put_position;
use arb_model::APPLICATIONS;
use std::marker::Model;

/// A set of positions for each application. How many positions each set has is kept beside it, since every order asks.
#[derive(Drop)]
pub struct AppSets {
    sets: [u128; APPLICATIONS],
    /// How many positions are in each set.
    counts: [u8; APPLICATIONS],
}

impl Model for AppSets {
    ghost use Rattle.std.specs.Prelude.{◌≡◌, ◌<◌, ℕ, List, count_ones, slice_index};
    ghost use Rattle.arb_share.specs.Limits.{applications};

    ghost Value = { List ℕ };

    ghost view = { λ s. s.sets };

    ghost invariant = { λ s. (app : ℕ) → app < applications → slice_index s.counts app ≡ count_ones (slice_index s.sets app) };
}

/// How many positions a set has once one is put in, or taken out. It had so many before.
fn count_after(count: u8, before: u128, after: u128, place: usize, on: bool) -> u8
    requires counted { count ≡ count_ones before }
    requires within { place < set_size }
    requires marked { (p : ℕ) → p < set_size → has_bit after p ≡ (if p == place then on else has_bit before p) }
    ensures { result ≡ count_ones after }
{
    if after == before {
        return count;
    }
    if on { count + 1 } else { count - 1 }
}

impl AppSets {
    /// Sets of no position.
    pub fn new() -> AppSets
        ensures { result ≡ replicate applications 0 }
    {
        AppSets {
            sets: [0; APPLICATIONS],
            counts: [0; APPLICATIONS],
        }
    }

    /// The set of an application.
    pub fn of(&self, app: u16) -> u128
        requires { app < applications }
        ensures { result ≡ slice_index self.now app }
    {
        self.sets[app as usize]
    }

    /// How many positions are in the set of an application.
    pub fn count(&self, app: u16) -> u8
        requires { app < applications }
        ensures { (n : ℕ) (passes : ℕ → Bool) → n ≤ set_size → IsSetOf (slice_index self.now app) n passes
            → result ≡ count_below passes n }
    {
        self.counts[app as usize]
    }

    /// Puts a position into the set of a thread's application, or takes it out.
    pub fn mark(&mut self, place: usize, thread: u16, on: bool)
        requires within { place < set_size }
        requires thread { thread < all_threads }
        ensures { (app p : ℕ) → app < applications → p < set_size → has_bit (slice_index self.new app) p
            ≡ (if (app_of thread == app) && (p == place) then on else has_bit (slice_index self.old app) p) }
    {
        let app = application_of(thread) as usize;
        let before = self.sets[app];
        let after = put_position(before, place, on);
        self.sets[app] = after;
        self.counts[app] = count_after(self.counts[app], before, after, place, on);
    }

    /// The positions that are in any of the sets.
    pub fn any(&self) -> u128
        ensures holds { (p app : ℕ) → app < applications → has_bit (slice_index self.now app) p ≡ true → has_bit result p ≡ true }
        ensures none { (p : ℕ) → ((app : ℕ) → app < applications → has_bit (slice_index self.now app) p ≡ false)
            → has_bit result p ≡ false }
    {
        let mut all = 0;
        for app in 0..APPLICATIONS {
            all |= self.sets[app];
        }
        all
    }
}
