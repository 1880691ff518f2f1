//! An arbiter as a pointer that C may keep.

ghost use Rattle.std.specs.Prelude.{◌≡◌, Option, IsSome, None, Some};
ghost use Rattle.arb_c.specs.Holding.{Holding};
ghost use Rattle.arb_c.specs.Held.{held_owns};

use crate::opened::Opened;
use std::alloc::Global;
use std::marker::{Model, Send};

/// What the pointer points to: nothing that C may look at.
#[repr(C)]
pub struct Opaque {
    byte: u8,
}

/// An arbiter on the heap, or nothing. All zero bytes are nothing.
#[repr(C)]
pub struct Held {
    at: *mut Opaque,
    ghost value: { Option Holding },
}

impl Model for Held {
    ghost also_owns = { λ h. held_owns h.value h.at };
}

// Nobody else has the pointer.
unsafe impl Send for Held {}

impl Held {
    /// Nothing.
    pub fn none() -> Held
        ensures { result.value ≡ None }
    {
        Held {
            at: std::ptr::null_mut(),
        }
    }

    /// Lets go of nothing. A held arbiter can't be let go otherwise than by [`Held::into_box`].
    pub fn gone(self)
        requires { self.value ≡ None }
    {
        let Held { at: _ } = self;
    }

    /// The arbiter of a box.
    pub fn of(opened: Box<Opened, Global>) -> Held
        ensures { result.value ≡ Some opened.value }
    {
        let at = Box::into_raw(opened);
        Held {
            at: at.cast::<Opaque>(),
        }
    }

    /// The box again.
    pub fn into_box(self, alloc: Global) -> Box<Opened, Global>
        requires { IsSome self.value }
        ensures { Some result.value ≡ self.value }
    {
        let Held { at } = self;
        unsafe { Box::from_raw(alloc, at.cast::<Opened>()) }
    }
}
