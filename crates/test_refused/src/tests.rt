//! The tests, by what goes on; and the houses that they have in common.

mod closes;
mod courses;
mod ends;
mod houses;
