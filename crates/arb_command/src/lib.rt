//! The command line of the `arbiter` program, as a function.
//!
//! [`command`] runs a command line over any reader and writers, and answers the exit status. The program
//! `arbiter` calls it with the standard streams. It goes this way:
//!
//! 1. `arguments.rt`: what the words ask for, and all help texts.
//! 2. `config_file.rt`: the machine that a configuration file describes. `one_line.rt` prints the file's name.
//! 3. `program.rt`: the work, which crates below do, and the exit status.
#![tactic(auto)]

mod arguments;
mod config_file;
mod one_line;
mod program;

pub use program::command;
