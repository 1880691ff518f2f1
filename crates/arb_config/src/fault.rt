//! Why a configuration is refused.

use std::alloc::AllocError;
use thiserror::Error;

/// Why a configuration is refused: the first cause below that applies to the document. Its `Display` is the line that a
/// user reads. `Memory` stands outside the order.
#[derive(Clone, Copy, Debug, PartialEq, Eq, Error)]
pub enum ConfigFault {
    /// The text is not a TOML document.
    #[error("C1 not TOML")]
    NotToml,
    /// The top table, or a table in the `socket` array, has a key that the format does not have.
    #[error("C2 unknown key")]
    UnknownKey,
    /// A needed key is missing, or a value has another type than its key wants.
    #[error("C3 key missing or of the wrong type")]
    BadKey,
    /// An integer is outside the range of its key.
    #[error("C4 number out of range")]
    OutOfRange,
    /// There are no sockets, or more than eight.
    #[error("C5 sockets must be 1 to 8")]
    SocketCount,
    /// This core number is the first that repeats an earlier one. Sockets are read in order, in each the managed list
    /// first.
    #[error("C6 core {0} listed twice")]
    CoreTwice(u16),
    /// All sockets together have no managed core, or more than 128.
    #[error("C7 managed cores must be 1 to 128")]
    ManagedCount,
    /// No socket has an unmanaged core.
    #[error("C8 no unmanaged core")]
    NoUnmanaged,
    /// An allocation failed, which says nothing of the text.
    #[error("out of memory")]
    Memory,
}

impl From<AllocError> for ConfigFault {
    ghost use Rattle.std.specs.Prelude.{◌≡◌};
    ghost use Rattle.arb_config.specs.declared.fault.ConfigFault.TheVariants.{Memory};

    ghost from_gives = { λ _ fault. fault ≡ Memory };

    fn from(_: AllocError) -> ConfigFault {
        ConfigFault::Memory
    }
}
