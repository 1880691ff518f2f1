//! The pictures, by what is tested of them.

mod choices;
mod faults;
mod marks;
mod owners;
mod sample;
