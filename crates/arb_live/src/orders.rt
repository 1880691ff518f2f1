//! How many orders a conversation takes.

/// How many orders a conversation takes.
#[derive(Clone, Copy, Debug, PartialEq, Eq)]
pub(crate) enum Orders {
    /// As many as the machine's text allows.
    Limited,
    /// Any number, whatever the machine's text allows.
    Endless,
}
