//! Who is where on a machine, and the page words that show it.
//!
//! A [`Seating`] keeps the cores by position, the waiting threads and the moved ones, and their page words. Its methods
//! are the changes that orders make, the asks and the grants; its contracts say them in the words of `arb_model`.
//! [`Cores`], [`Waiting`] and [`WordTable`] are its parts, which it lends. Beside each array stand the sets and indexes that
//! answer its questions, so that a change costs what it touches. Nothing here takes memory.
#![tactic(auto)]

mod app_sets;
mod asks;
mod bits;
mod core_sets;
mod core_table;
mod holders;
mod positions;
mod seats;
mod socket_counts;
mod waiting;
mod word_set;
mod word_table;

pub use core_table::Cores;
pub use holders::application_of;
pub use seats::Seating;
pub use waiting::Waiting;
pub use word_table::WordTable;
