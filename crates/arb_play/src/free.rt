//! No turns.

use crate::gate::Gate;
use std::sync::Wait;

/// Holds nothing back.
#[derive(Clone, Copy, Debug, Drop)]
pub struct FreeGate;

impl Gate for FreeGate {
    ghost use Rattle.std.specs.Prelude.{⊤};

    ghost may_give_up = { λ _ _. ⊥ };

    ghost may_let_through = { λ _ _. ⊤ };

    /// True at once.
    fn before<R: Wait>(&self, _rt: &R, _order: usize) -> bool {
        true
    }

    /// Does nothing.
    fn after<R: Wait>(&self, _rt: &R, _order: usize) {}

    /// No.
    fn holds_back(&self) -> bool {
        false
    }
}
