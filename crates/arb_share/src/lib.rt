//! How many cores each application is due.
//!
//! An application states a [`Request`]: how many cores it wants at each of eight levels. [`Request::cut`] cuts it at a
//! cap. [`even`] divides a supply of cores evenly over sixteen demands, and [`due`] divides a machine's cores level by
//! level. [`Demands`] keeps what applications want by level, for a caller who changes one request at a time. [`rows_of`]
//! reads requests from a text, and [`due_run`] goes from such a text to the line of due numbers. [`streams`] has readers
//! and writers whose failed calls a contract can name. [`text`] splits a text into lines and words, and reads numbers.
//! [`limits`] has the limits, and [`laws`] what holds of the definitions alone. Nothing here takes memory.
#![tactic(auto)]

pub mod demands;
pub mod division;
pub mod due_input;
pub mod due_numbers;
mod fault_texts;
pub mod laws;
pub mod limits;
pub mod request;
pub mod rows;
pub mod streams;
pub mod text;

pub use demands::Demands;
pub use division::even;
pub use due_input::{DueFault, due_run};
pub use due_numbers::due;
pub use limits::{APPLICATIONS, LEVELS, MAX_ENTRY, MAX_ENTRY_WORD, MAX_INPUT};
pub use request::{Request, TooMany};
pub use rows::{RowFault, RowKind, rows_of};
pub use streams::{Failed, Sink, Source, Watched};
