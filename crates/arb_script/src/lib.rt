//! Scripts of orders, the texts of orders, replies and owners, and scripts run through the arbiter of a machine.
//!
//! A script has an order of a client on each line: `0.1 block`, `2.0 ask 6`, `clock tick 10000`. [`Script::from_text`]
//! reads one whole, or names its first faulty line; [`read_line`] reads one line alone, and [`usual_line`] a usual one at the
//! front of a text, in one pass. [`print_entry`] writes an order with its reply, [`print_full`] an
//! order that came after the limit on orders, [`print_reply`] a reply alone, and [`print_table`] who has each managed
//! core. An order is printed as it stands in a script, so it can be read again ([`laws`]). For a caller that gathers lines
//! before it writes them, [`entry_line`], [`full_line`] and [`core_line`] give each as a value, a [`TextLine`], and
//! [`order_line`] gives an order as a script has it; an [`Output`] gathers them.
//!
//! [`run`] reads a script ([`read_script`]), gives its orders one after another to the arbiter of a machine on one thread, and
//! writes the report. [`answer`] gives one order, and makes its line. [`read_text`] reads an input to its end, up to a limit on
//! its length.
//!
//! The files of `specs/`, in the order to read them:
//!
//! 1. `Limits`: how long a line and a script may be, and how large numbers.
//! 2. `Texts` of `arb_model`: clients, orders and replies as text.
//! 3. `Script`: what each line of a text says, and which script or first fault the lines come to. `Front`: a line that
//!    gives an order at the front of a text.
//! 4. `FaultText`: the texts of faults.
//! 5. `Printed`: replies, and orders with what came of them. `Table`: the owner table.
//! 6. `Laws`: what is proved of all this. `Usual` and `Given`: words of inner contracts, for lines that
//!    are read in one pass, and for orders kept beside their clients.
//! 7. `Input`: what is true of an input that is refused. `Report`: the report of a script. `Run`: what holds of an input when
//!    a run of it ends. `Output`: what was written of the bytes on their way.
//!
//! Only what reads a script or an input whole takes memory.
#![tactic(auto)]

mod fault;
mod given;
mod input;
pub mod laws;
mod limits;
mod line;
mod order_list;
mod output;
mod print;
mod runner;
mod script;
mod table;
mod text_line;
mod usual;

pub use fault::{KIND_BYTES, ScriptFault, ScriptKind, WriteFault};
pub use given::ClientOrder;
pub use input::{ReadFault, read_text};
pub use limits::{MAX_CAP_WORD, MAX_LINE, MAX_SCRIPT};
pub use line::read_line;
pub use output::Output;
pub use print::{entry_line, full_line, order_line, print_entry, print_full, print_reply};
pub use runner::{RunFault, answer, read_script, run, write_table};
pub use script::Script;
pub use table::{core_line, print_table};
pub use text_line::{LINE_BYTES, NUMBER_BYTES, TextLine};
pub use usual::usual_line;
