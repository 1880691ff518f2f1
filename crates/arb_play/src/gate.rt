//! What a gate does.

ghost use Rattle.std.specs.Prelude.{ℕ, IsFalse, IsTrue};

use std::sync::Wait;

/// Holds orders back until their turn. An order is named by its index in the script.
pub trait Gate: Sync {
    /// The orders that the gate may give up.
    ghost may_give_up: { Self → ℕ → Type 0 };

    /// The orders that the gate may let through.
    ghost may_let_through: { Self → ℕ → Type 0 };

    /// Waits for the order's turn. False where the order is given up.
    fn before<R: Wait>(&self, rt: &R, order: usize) -> bool
        ensures given_up { IsFalse result → may_give_up self.now order }
        ensures let_through { IsTrue result → may_let_through self.now order };

    /// Says that the order was dealt with, whatever came of it. It follows every [`Gate::before`].
    fn after<R: Wait>(&self, rt: &R, order: usize);

    /// Whether it may hold an order back. Where it says no, [`Gate::before`] is to be true at once at every call, and
    /// [`Gate::after`] is to return at once: then a play may let only some of its clients go at a time. A play asks it once,
    /// before it starts threads. Yes, if not written otherwise.
    fn holds_back(&self) -> bool {
        true
    }
}
