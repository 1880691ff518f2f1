//! What C keeps of an arbiter.

ghost use Rattle.std.specs.Prelude.{◌≡◌, ◌↔◌, IsTrue, IsSome, None, Some, option_map};

use crate::held::Held;
use crate::opened::Opened;
use std::alloc::Global;
use std::mem;

/// What C keeps of an arbiter. All zero bytes are a closed handle.
#[repr(C)]
pub struct Handle {
    held: Held,
    live: bool,
    ghost fits: { IsTrue live ↔ IsSome held.value },
}

impl Handle {
    /// A handle that is closed.
    pub fn closed() -> Handle
        ensures { result.held.value ≡ None }
    {
        Handle {
            held: Held::none(),
            live: false,
        }
    }

    /// A handle that is open on an arbiter.
    fn of(opened: Box<Opened, Global>) -> Handle
        ensures { result.held.value ≡ Some opened.value }
    {
        Handle {
            held: Held::of(opened),
            live: true,
        }
    }

    /// Whether the handle is open.
    pub fn is_open(&self) -> bool
        ensures { IsTrue result ↔ IsSome self.now.held.value }
    {
        self.live
    }

    /// Takes the arbiter out, and leaves the handle closed.
    pub fn take(&mut self, alloc: Global) -> Option<Box<Opened, Global>>
        ensures taken { option_map (λ opened. opened.value) result ≡ self.old.held.value }
        ensures closed { self.new.held.value ≡ None }
    {
        if !self.live {
            return None;
        }
        let Handle { held, live: _ } = mem::replace(self, Handle::closed());
        Some(held.into_box(alloc))
    }

    /// Puts an arbiter into a closed handle.
    pub fn put(&mut self, opened: Box<Opened, Global>)
        requires { self.old.held.value ≡ None }
        ensures { self.new.held.value ≡ Some opened.value }
    {
        let Handle { held, live: _ } = mem::replace(self, Handle::of(opened));
        held.gone();
    }

    /// Lets go of a closed handle. An open one is closed first.
    pub fn gone(self)
        requires { self.held.value ≡ None }
    {
        let Handle { held, live: _ } = self;
        held.gone();
    }
}
