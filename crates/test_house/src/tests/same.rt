//! One assertion for all: what came is what was to come.

use std::fmt::{Debug, Display};
use std::process::Abort;

/// Asserts that two values are equal, at a row of a table or of what is named.
pub fn same<T: PartialEq + Debug + Drop>(
    rt: &impl Abort,
    at: impl Display + Drop,
    got: T,
    want: T,
) {
    assert_eq!(rt; got, want, "at {at}");
}
