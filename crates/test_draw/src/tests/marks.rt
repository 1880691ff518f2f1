//! The bars of a picture, read off its text.

use std::alloc::{AllocError, Global};

/// A bar of a picture, as its text has it.
#[derive(Clone, Copy, Debug, PartialEq, Eq)]
pub struct Mark<'a> {
    /// Its class: `bar` or `asked`.
    pub class: &'a str,
    /// The number of its core.
    pub core: &'a str,
    /// Its thread.
    pub thread: &'a str,
    /// Its first order.
    pub from: u64,
    /// The order after its last.
    pub to: u64,
}

/// The bar of a line, if the line has one.
fn mark_of(line: &str) -> Option<Mark<'_>> {
    let mut parts = line.split('"');
    if parts.next()? != "<rect class=" {
        return None;
    }
    let class = parts.next()?;
    if parts.next()? != " data-core=" {
        return None;
    }
    let core = parts.next()?;
    if parts.next()? != " data-thread=" {
        return None;
    }
    let thread = parts.next()?;
    if parts.next()? != " data-from=" {
        return None;
    }
    let from = parts.next()?.parse::<u64>().ok()?;
    if parts.next()? != " data-to=" {
        return None;
    }
    let to = parts.next()?.parse::<u64>().ok()?;
    Some(Mark {
        class,
        core,
        thread,
        from,
        to,
    })
}

/// The bars of a picture, in the order of its text.
pub fn marks<'a>(alloc: Global, picture: &'a str) -> Result<Vec<Mark<'a>>, AllocError> {
    let mut marks = Vec::new(alloc);
    for line in picture.lines() {
        if let Some(mark) = mark_of(line) {
            marks.push(mark)?;
        }
    }
    Ok(marks)
}
