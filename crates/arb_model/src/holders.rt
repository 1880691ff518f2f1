//! Who holds a core.

/// A thread on a core, and since when the core has been asked back, if it is.
#[derive(Clone, Copy, Debug, PartialEq, Eq, Hash)]
pub struct Holder {
    /// The thread's number among all threads: [`THREADS`](crate::THREADS) times its application, plus its number there.
    pub thread: u16,
    /// The moment, in microseconds, at which the core was asked back; `None` where it isn't.
    pub asked: Option<u64>,
}
