//! Lines that are refused, and how.

use crate::setting::{padded, repeated};
use arb_script::{Script, ScriptFault, ScriptKind, WriteFault};
use std::alloc::{AllocError, Global};
use std::fmt::Display;
use std::process::Abort;
use std::test::Fail;

/// The fault of a script: its line and its kind.
fn fault_of(alloc: Global, text: &str) -> Option<(usize, ScriptKind)> {
    let ScriptFault { line, kind } = Script::from_text(alloc, text).err()?;
    Some((line, kind))
}

/// Scripts with the line and the kind of their first fault.
const FAULTY: &[(&str, usize, ScriptKind)] = &[
    ("0.0", 1, ScriptKind::WordCount),
    ("0.0 as", 1, ScriptKind::UnknownOrder),
    ("0.0 ask", 1, ScriptKind::WordCount),
    ("0.0 ask 129", 1, ScriptKind::BadNumber),
    ("0.0 ask 256", 1, ScriptKind::BadNumber),
    ("0.0 ask 1 1 1 1 1 1 1 1 1", 1, ScriptKind::WordCount),
    ("00.1 join", 1, ScriptKind::BadClient),
    ("0.32 join", 1, ScriptKind::BadClient),
    ("16.0 join", 1, ScriptKind::BadClient),
    ("0.01 join", 1, ScriptKind::BadClient),
    ("0 join", 1, ScriptKind::BadClient),
    ("0. join", 1, ScriptKind::BadClient),
    (".0 join", 1, ScriptKind::BadClient),
    ("0.0.0 join", 1, ScriptKind::BadClient),
    ("0..0 join", 1, ScriptKind::BadClient),
    ("+0.0 join", 1, ScriptKind::BadClient),
    ("Clock join", 1, ScriptKind::BadClient),
    ("clocks join", 1, ScriptKind::BadClient),
    ("clock.0 join", 1, ScriptKind::BadClient),
    ("0.0\u{b}join", 1, ScriptKind::BadClient),
    ("0.0\u{c}join", 1, ScriptKind::BadClient),
    ("0.0\u{a0}join", 1, ScriptKind::BadClient),
    ("0.0 Join", 1, ScriptKind::UnknownOrder),
    ("0.0 joins", 1, ScriptKind::UnknownOrder),
    ("0.0 #", 1, ScriptKind::UnknownOrder),
    ("0.0 join 1", 1, ScriptKind::WordCount),
    ("0.0 block #", 1, ScriptKind::WordCount),
    ("0.0 cap", 1, ScriptKind::WordCount),
    ("0.0 cap 1 2", 1, ScriptKind::WordCount),
    ("0.0 cap 256", 1, ScriptKind::BadNumber),
    ("0.0 cap -1", 1, ScriptKind::BadNumber),
    ("clock tick", 1, ScriptKind::WordCount),
    ("clock tick 18446744073709551616", 1, ScriptKind::BadNumber),
    ("clock tick 01", 1, ScriptKind::BadNumber),
    ("clock tick 1x", 1, ScriptKind::BadNumber),
    // several faults in a line
    ("x", 1, ScriptKind::BadClient),
    ("x bloc", 1, ScriptKind::BadClient),
    ("x bloc 1", 1, ScriptKind::BadClient),
    ("x join 1", 1, ScriptKind::BadClient),
    ("x ask", 1, ScriptKind::BadClient),
    ("x ask 129", 1, ScriptKind::BadClient),
    ("0.0 bloc 1", 1, ScriptKind::UnknownOrder),
    ("0.0 bloc x", 1, ScriptKind::UnknownOrder),
    ("0.0 bloc 1 1 1 1 1 1 1 1 1", 1, ScriptKind::UnknownOrder),
    ("0.0 ask x 1 1 1 1 1 1 1 1", 1, ScriptKind::WordCount),
    ("0.0 ask 1 1 1 1 1 1 1 1 129", 1, ScriptKind::WordCount),
    ("0.0 cap 256 1", 1, ScriptKind::WordCount),
    (
        "clock tick 18446744073709551616 1",
        1,
        ScriptKind::WordCount,
    ),
    // several lines
    ("0.0 join\n0.0 bloc", 2, ScriptKind::UnknownOrder),
    ("\n# two\n\r\n0.0\nx", 4, ScriptKind::WordCount),
    ("x\n0.0", 1, ScriptKind::BadClient),
    ("0.0 cap 256\nx\n0.0 bloc\n0.0\n", 1, ScriptKind::BadNumber),
];

/// A script has this fault, or none.
fn has_fault<R: AllocGlobal + Abort>(rt: &R, text: &str, fault: Option<(usize, ScriptKind)>) {
    assert_eq!(rt; fault_of(rt.alloc(), text), fault, "{text}");
}

/// Of a line's faults the first is answered, and of a script's lines the first faulty one. Skipped lines count.
#[test]
fn faulty_lines(rt: HostRuntime) {
    for (text, line, kind) in FAULTY {
        has_fault(&rt, text, Some((*line, *kind)));
    }
}

/// Lines, with what is wrong with them where they aren't too long.
const LINES: &[(&str, Option<ScriptKind>)] = &[
    ("", None),
    ("#", None),
    ("0.0 join", None),
    ("x", Some(ScriptKind::BadClient)),
    ("0.0", Some(ScriptKind::WordCount)),
    ("0.0 bloc", Some(ScriptKind::UnknownOrder)),
    ("0.0 join 1", Some(ScriptKind::WordCount)),
    ("0.0 ask 129", Some(ScriptKind::BadNumber)),
];

/// How many bytes a line has before its end, and whether it is too long.
const LENGTHS: &[(usize, &str, bool)] = &[
    (200, "", false),
    (200, "\n", false),
    (199, "\r\n", false),
    (201, "", true),
    (201, "\n", true),
    (200, "\r\n", true),
];

/// A line that has so many bytes by spaces behind it, and this end, has this fault, or none.
fn has_fault_with<R: AllocGlobal + Abort>(
    rt: &R,
    line: &str,
    (bytes, end): (usize, &str),
    fault: Option<ScriptKind>,
) -> Result<(), AllocError> {
    let mut text = padded(rt.alloc(), line, bytes)?;
    text.push_str(end)?;
    has_fault(rt, text.as_str(), fault.map(|kind| (1, kind)));
    Ok(())
}

/// A line of 200 bytes is read, one of 201 is too long whatever else is wrong with it: a CR before the LF counts, and
/// so do the bytes of a comment.
#[test]
fn long_lines(rt: HostRuntime) -> Result<(), Fail> {
    for (line, kind) in LINES {
        for (bytes, end, is_long) in LENGTHS {
            let kind = if *is_long {
                Some(ScriptKind::LongLine)
            } else {
                *kind
            };
            has_fault_with(&rt, line, (*bytes, end), kind)?;
        }
    }
    Ok(())
}

/// A line of 201 bytes behind another one, before a faulty one, has the fault of its script at this line.
fn is_long_behind<R: AllocGlobal + Abort>(
    rt: &R,
    before: &str,
    line: usize,
    kind: ScriptKind,
) -> Result<(), AllocError> {
    let mut text = String::from_str(rt.alloc(), before)?;
    text.push_str(padded(rt.alloc(), "#", 201)?.as_str())?;
    text.push_str("\nx\n")?;
    has_fault(rt, text.as_str(), Some((line, kind)));
    Ok(())
}

/// A fault of an earlier line comes first.
#[test]
fn long_lines_behind_others(rt: HostRuntime) -> Result<(), Fail> {
    is_long_behind(&rt, "0.0 join\n", 2, ScriptKind::LongLine)?;
    is_long_behind(&rt, "x\n", 1, ScriptKind::BadClient)?;
    Ok(())
}

/// A letter with an accent is two bytes.
#[test]
fn long_lines_of_letters(rt: HostRuntime) -> Result<(), Fail> {
    let mut text = repeated(rt.alloc(), "#\u{e9}", 66)?;
    text.push_str("##")?;
    assert_eq!(rt; text.len(), 200);
    has_fault(&rt, text.as_str(), None);
    text.push('#')?;
    assert_eq!(rt; text.len(), 201);
    has_fault(&rt, text.as_str(), Some((1, ScriptKind::LongLine)));
    Ok(())
}

/// With ample memory each script has its outcome. Where an allocation fails, the fault is `Memory`, and names the line being
/// read, the first that gives an order. `tests/refuse-allocations` runs this with each allocation refused.
#[test]
fn a_failed_allocation_is_memory(rt: HostRuntime) {
    for (text, fault, line) in [
        ("\n# then\n0.0 join\n", None, 3),
        ("0.0 join\nx", Some((2, ScriptKind::BadClient)), 1),
    ] {
        let found = fault_of(rt.alloc(), text);
        let is_wanted = found == fault || found == Some((line, ScriptKind::Memory));
        assert!(rt; is_wanted, "{found:?} at {text}");
    }
}

/// Each fault of line 12 as the line that a user reads.
const TEXTS: [(ScriptKind, &str); 6] = [
    (ScriptKind::BadClient, "line 12: S1 bad client"),
    (ScriptKind::UnknownOrder, "line 12: S2 unknown order"),
    (ScriptKind::BadNumber, "line 12: S3 bad number"),
    (ScriptKind::WordCount, "line 12: S4 wrong number of words"),
    (ScriptKind::LongLine, "line 12: S5 line too long"),
    (ScriptKind::Memory, "out of memory"),
];

/// A fault has this text.
fn reads<R: Abort + AllocGlobal>(
    rt: &R,
    fault: &impl Display,
    text: &str,
) -> Result<(), AllocError> {
    assert_eq!(rt; format!(in rt.alloc(); "{fault}")?.as_str(), text);
    Ok(())
}

#[test]
fn fault_texts(rt: HostRuntime) -> Result<(), Fail> {
    for (kind, text) in TEXTS {
        reads(&rt, &ScriptFault { line: 12, kind }, text)?;
    }
    reads(&rt, &WriteFault, "write fault")?;
    Ok(())
}
