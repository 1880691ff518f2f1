//! What is drawn of a core and of an application after an order.

/// Who has a core.
#[derive(Clone, Copy, Debug, PartialEq, Eq)]
pub struct Cell {
    /// The thread's number among all threads.
    pub thread: u16,
    /// Whether the core is asked back.
    pub asked: bool,
}

/// How many cores an application has to do with, and how many of its threads wait.
#[derive(Clone, Copy, Debug, Default, PartialEq, Eq)]
pub struct Amounts {
    /// How many cores it owns.
    pub owns: u8,
    /// How many cores are due to it.
    pub due: u8,
    /// How many cores it wants, at all levels together, as far as its cap lets them count.
    pub wants: u16,
    /// How many of its threads wait for a core.
    pub waits: u8,
}

/// An application, and how many threads it has.
#[derive(Clone, Copy, Debug, Default, PartialEq, Eq)]
pub struct AppThreads {
    /// The application's number.
    pub app: u8,
    /// Of how many of its threads an order was entered.
    pub threads: u8,
}
