//! Members: any thread of C steps one arbiter with a handle of its own.

pub mod handle;
pub mod held;
pub mod lifetime;
pub mod opened;
pub mod orders;
pub mod readers;
pub mod short_turns;
pub mod turns;
