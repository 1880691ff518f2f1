//! One assertion for all: what came is what was to come.

use std::fmt::Debug;
use std::process::Abort;

/// Asserts that two values are equal, of what is named.
pub fn same<T: PartialEq + Debug + Drop>(rt: &impl Abort, at: &str, got: T, want: T) {
    assert_eq!(rt; got, want, "at {at}");
}
