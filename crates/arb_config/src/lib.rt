//! The machine that the arbiter manages, read from a configuration.
//!
//! A configuration is a TOML document:
//!
//! ```toml
//! grace = 10000         # microseconds, 1 to 1,000,000,000; 10,000 if left out
//! orders = 1000000      # orders per run, 1 to 1,000,000; 1,000,000 if left out
//!
//! [[socket]]            # 1 to 8 sockets, numbered from 0
//! managed = [1, 2, 3]   # cores that the arbiter hands out, 1 to 128 over all sockets
//! unmanaged = [0]       # cores that the ordinary scheduler keeps, at least 1 over all sockets
//! ```
//!
//! Core numbers are 0 to 1,023, and no core is listed twice. There are no other keys.
//!
//! [`Topology::from_text`] reads the text once into a tree. Then it makes one pass over the tree for each cause of
//! refusal, in the order of [`ConfigFault`], and only then builds the machine. So the fault that it answers is the first
//! of that order which applies, wherever in the text it stands.
//!
//! A managed core's *position* is its index, from 0, in the managed lists of all sockets joined in order. A
//! [`Topology`] answers by position and by core number in constant time.
#![tactic(auto)]

mod fault;
mod fixed;
mod limits;
mod passes;
mod roles;
mod topology;
mod tree;

pub use fault::ConfigFault;
pub use limits::{
    CORE_NUMBERS, DEFAULT_GRACE, DEFAULT_ORDERS, MAX_GRACE, MAX_MANAGED, MAX_ORDERS, MAX_SOCKETS,
};
pub use topology::Topology;
