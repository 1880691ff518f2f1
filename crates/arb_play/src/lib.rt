//! Scripts on threads: a server on one, and each client that the script names on one of its own.
//!
//! [`play`] runs a script so, and writes the journal report. It is made of [`perform`], which opens a house, starts all threads, lets
//! them give the orders of the script by the turns of a [`Gate`], and joins them. What is left is an [`Outcome`]: the
//! server's journal, the arbiter after it, and of each client the index in the script from which on its orders came past
//! the limit on orders. What runs a script on one thread, [`run`] above all, stands in `arb_script` and is named here too.
//!
//! Each thread that gives orders asks the gate before each of its orders, and tells it after each. [`FreeGate`] holds
//! nothing back, [`TurnGate`] lets the orders through one after another in their order, and [`HoldGate`] holds one order
//! back until another was given, and gives it up after so many turns. Where nothing is held back, all clients call at once; in a long
//! play of many clients they take turns on a floor. An index of the script leads each thread from one
//! of its client's orders to the next.
//!
//! The files of `specs/`, in the order to read them:
//!
//! 1. `Scripts`: the clients of a script, the orders of one of them in it and in a journal, and which orders are full.
//! 2. `Outcomes`: what is true of an outcome.
//! 3. `JournalReport`: the journal report of a script on threads.
//! 4. `GivingUp`: which order was given up. `Performing`: what faults say. `FaultText`: their texts.
//! 5. `Holding`: a gate that holds one order back, as contracts see it, and how often it pauses.
//! 6. `OwnOrders`: where the orders of each client stand in a script. `Walking`: what holds of one client's thread. `Joining`:
//!    what holds of all. These are words of inner contracts.
#![tactic(auto)]

mod floor;
mod free;
mod full;
mod gate;
mod hold;
mod joining;
mod let_through;
mod outcome;
mod own_orders;
mod performing;
mod player;
mod start;
mod turn;
mod turns;
mod walking;

pub use arb_script::{MAX_SCRIPT, ReadFault, RunFault, answer, read_script, read_text, run};
pub use free::FreeGate;
pub use gate::Gate;
pub use hold::HoldGate;
pub use outcome::{Outcome, PlayFault};
pub use performing::perform;
pub use player::play;
pub use turn::TurnGate;
