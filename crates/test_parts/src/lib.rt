//! Parts that tests are made of: machines, clients and orders, a script with its report, readers and writers that fail, and what
//! a thread used.
//!
//! Each value that a test expects was worked out by hand. Nothing here may abort, so that programs can use it too.
#![tactic(auto)]

mod machines;
mod orders;
mod scripts;
mod streams;
mod used;

pub use machines::{THREE_ORDERS, TWO_SOCKETS, WIDE};
pub use orders::{CLOCK, Gives, NO_COUNTS, Named, ask, ask_for, client_of, request, thread};
pub use scripts::{FREE_CORES, THREE_APPLICATIONS, THREE_REPORT};
pub use streams::{FailingReader, RepeatingReader, ShortWriter};
pub use used::{Used, used_so_far};
