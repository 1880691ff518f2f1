//! Long texts.

use std::alloc::{AllocError, Global};

/// A text, so many times one after another.
pub fn repeated(alloc: Global, piece: &str, times: usize) -> Result<String, AllocError> {
    let mut text = String::new(alloc);
    for _ in 0..times {
        text.push_str(piece)?;
    }
    Ok(text)
}

/// A line with spaces behind it, so many bytes in all.
pub fn padded(alloc: Global, line: &str, bytes: usize) -> Result<String, AllocError> {
    let mut text = String::new(alloc);
    text.push_str(line)?;
    for _ in line.len()..bytes {
        text.push(' ')?;
    }
    Ok(text)
}
