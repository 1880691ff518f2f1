//! The codes that calls answer.

ghost use Rattle.std.specs.Prelude.{◌≡◌};
ghost use Rattle.arb_c.specs.Codes.{core_named, fault_code};

use arb_config::ConfigFault;

/// It was done.
pub const OK: u32 = 0;

/// The handle is closed.
pub const CLOSED: u32 = 1;

/// The handle is open already.
pub const ALREADY_OPEN: u32 = 2;

/// No client, or no thread, has this number.
pub const NO_CLIENT: u32 = 3;

/// No order is of this kind.
pub const NO_ORDER: u32 = 4;

/// An entry of the request is above its limit.
pub const ENTRY_TOO_LARGE: u32 = 5;

/// A word is to be posted before the next order.
pub const STALE: u32 = 6;

/// The limit on orders is reached.
pub const FULL: u32 = 7;

/// No word is to be posted.
pub const SETTLED: u32 = 8;

/// No page word has this number.
pub const NO_WORD: u32 = 9;

/// No managed core has this position, or no unmanaged core this index.
pub const NO_POSITION: u32 = 10;

/// Nobody is on the core of this number, or it isn't managed.
pub const NO_OWNER: u32 = 11;

/// The text is longer than its limit.
pub const TOO_LONG: u32 = 12;

/// The text isn't UTF-8.
pub const NOT_UTF8: u32 = 13;

/// An allocation failed.
pub const OUT_OF_MEMORY: u32 = 14;

/// No application has this number.
pub const NO_APPLICATION: u32 = 15;

/// The application hasn't joined, so it has no request.
pub const NO_REQUEST: u32 = 16;

/// Another member has the lock.
pub const TAKEN: u32 = 17;

/// The member is in a turn.
pub const IN_TURN: u32 = 18;

/// The member is in no turn.
pub const NO_TURN: u32 = 19;

/// The text isn't a TOML document. This and the following ones are the faults of a configuration, in the order in which
/// they are tried.
pub const NOT_TOML: u32 = 21;

/// A table has a key that the format doesn't have.
pub const UNKNOWN_KEY: u32 = 22;

/// A needed key is missing, or a value has another type than its key wants.
pub const BAD_KEY: u32 = 23;

/// An integer is outside the range of its key.
pub const OUT_OF_RANGE: u32 = 24;

/// There are no sockets, or too many.
pub const SOCKET_COUNT: u32 = 25;

/// A core is listed twice.
pub const CORE_TWICE: u32 = 26;

/// There are no managed cores, or too many.
pub const MANAGED_COUNT: u32 = 27;

/// No socket has an unmanaged core.
pub const NO_UNMANAGED: u32 = 28;

/// The code of a configuration's fault. Where it is a core that is listed twice, `named` becomes that core.
pub fn fault_code(fault: ConfigFault, named: &mut u16) -> u32
    ensures code { result ≡ fault_code fault }
    ensures named { named.new ≡ core_named fault named.old }
{
    match fault {
        ConfigFault::Memory => OUT_OF_MEMORY,
        ConfigFault::NotToml => NOT_TOML,
        ConfigFault::UnknownKey => UNKNOWN_KEY,
        ConfigFault::BadKey => BAD_KEY,
        ConfigFault::OutOfRange => OUT_OF_RANGE,
        ConfigFault::SocketCount => SOCKET_COUNT,
        ConfigFault::CoreTwice(core) => {
            *named = core;
            CORE_TWICE
        }
        ConfigFault::ManagedCount => MANAGED_COUNT,
        ConfigFault::NoUnmanaged => NO_UNMANAGED,
    }
}
