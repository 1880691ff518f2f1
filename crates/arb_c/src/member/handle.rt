//! What C keeps of a member.

ghost use Rattle.std.specs.Prelude.{◌≡◌, ◌↔◌, IsTrue, IsSome, None, Some, option_map};

use crate::member::held::HeldMember;
use crate::member::opened::OpenedMember;
use std::alloc::Global;
use std::mem;

/// What C keeps of a member. All zero bytes are a closed handle.
#[repr(C)]
pub struct MemberHandle {
    held: HeldMember,
    live: bool,
    ghost fits: { IsTrue live ↔ IsSome held.value },
}

impl MemberHandle {
    /// A handle that is closed.
    fn closed() -> MemberHandle
        ensures { result.held.value ≡ None }
    {
        MemberHandle {
            held: HeldMember::none(),
            live: false,
        }
    }

    /// A handle that is open on a member.
    fn of(opened: Box<OpenedMember, Global>) -> MemberHandle
        ensures { result.held.value ≡ Some opened.value }
    {
        MemberHandle {
            held: HeldMember::of(opened),
            live: true,
        }
    }

    /// Whether the handle is open.
    pub fn is_open(&self) -> bool
        ensures { IsTrue result ↔ IsSome self.now.held.value }
    {
        self.live
    }

    /// Takes the member out, and leaves the handle closed.
    pub fn take(&mut self, alloc: Global) -> Option<Box<OpenedMember, Global>>
        ensures taken { option_map (λ opened. opened.value) result ≡ self.old.held.value }
        ensures closed { self.new.held.value ≡ None }
    {
        if !self.live {
            return None;
        }
        let MemberHandle { held, live: _ } = mem::replace(self, MemberHandle::closed());
        Some(held.into_box(alloc))
    }

    /// Puts a member into a closed handle.
    pub fn put(&mut self, opened: Box<OpenedMember, Global>)
        requires { self.old.held.value ≡ None }
        ensures { self.new.held.value ≡ Some opened.value }
    {
        let MemberHandle { held, live: _ } = mem::replace(self, MemberHandle::of(opened));
        held.gone();
    }
}
