//! A member as a pointer that C may keep.

ghost use Rattle.std.specs.Prelude.{◌≡◌, Option, IsSome, None, Some};
ghost use Rattle.arb_c.specs.MemberHolding.{MemberHolding};
ghost use Rattle.arb_c.specs.HeldMember.{held_owns};

use crate::held::Opaque;
use crate::member::opened::OpenedMember;
use std::alloc::Global;
use std::marker::{Model, Send};

/// A member on the heap, or nothing. All zero bytes are nothing.
#[repr(C)]
pub struct HeldMember {
    at: *mut Opaque,
    ghost value: { Option MemberHolding },
}

impl Model for HeldMember {
    ghost also_owns = { λ h. held_owns h.value h.at };
}

// Nobody else has the pointer.
unsafe impl Send for HeldMember {}

impl HeldMember {
    /// Nothing.
    pub fn none() -> HeldMember
        ensures { result.value ≡ None }
    {
        HeldMember {
            at: std::ptr::null_mut(),
        }
    }

    /// Lets go of nothing. A held member can't be let go otherwise than by [`HeldMember::into_box`].
    pub fn gone(self)
        requires { self.value ≡ None }
    {
        let HeldMember { at: _ } = self;
    }

    /// The member of a box.
    pub fn of(opened: Box<OpenedMember, Global>) -> HeldMember
        ensures { result.value ≡ Some opened.value }
    {
        let at = Box::into_raw(opened);
        HeldMember {
            at: at.cast::<Opaque>(),
        }
    }

    /// The box again.
    pub fn into_box(self, alloc: Global) -> Box<OpenedMember, Global>
        requires { IsSome self.value }
        ensures { Some result.value ≡ self.value }
    {
        let HeldMember { at } = self;
        unsafe { Box::from_raw(alloc, at.cast::<OpenedMember>()) }
    }
}
