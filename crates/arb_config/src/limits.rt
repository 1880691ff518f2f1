//! The limits of a configuration. `specs/Limits.antt` has each as a number of its own, and the proofs compare the two.

/// The highest number of sockets.
pub const MAX_SOCKETS: usize = 8;

/// The highest number of managed cores, over all sockets.
pub const MAX_MANAGED: usize = 128;

/// How many core numbers there are; the first is 0.
pub const CORE_NUMBERS: usize = 1024;

/// The highest core number.
pub const HIGHEST_CORE: u64 = CORE_NUMBERS as u64 - 1;

/// The longest grace, in microseconds.
pub const MAX_GRACE: u64 = 1_000_000_000;

/// The grace, in microseconds, of a configuration that gives none.
pub const DEFAULT_GRACE: u64 = 10_000;

/// The highest limit on the orders of a run.
pub const MAX_ORDERS: u32 = 1_000_000;

/// The limit on the orders of a run, of a configuration that gives none.
pub const DEFAULT_ORDERS: u32 = 1_000_000;
