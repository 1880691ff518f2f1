//! Request rows: what a text states, and its first fault.

use arb_share::{
    APPLICATIONS, LEVELS, MAX_ENTRY, MAX_ENTRY_WORD, MAX_INPUT, Request, RowFault, RowKind, rows_of,
};
use std::test::Fail;

macro_rules! above {
    ($level:expr, $value:expr) => {
        RowKind::Above {
            level: $level,
            value: $value,
        }
    };
}

const PLAIN: [u8; 8] = [1, 2, 0, 0, 0, 0, 0, 0];

/// Texts of one row, with its application and its entries.
const READ: &[(&[u8], usize, [u8; 8])] = &[
    // eight entries, each up to 128
    (b"3 1 2 3 4 5 6 7 8", 3, [1, 2, 3, 4, 5, 6, 7, 8]),
    (b"3 64 64 64 64 64 64 64 64", 3, [64; 8]),
    (b"3 128 128 128 128 128 128 128 128", 3, [128; 8]),
    (b"15 128", 15, [128, 0, 0, 0, 0, 0, 0, 0]),
    // ends of lines, tabs and runs of blanks
    (b"3 1 2\n", 3, PLAIN),
    (b"3 1 2", 3, PLAIN),
    (b"3 1 2\r\n", 3, PLAIN),
    (b"\t 3\t1 \t2 \r\r\n", 3, PLAIN),
    // skipped lines
    (b"\n \t\r\n# 3 9 \xFF\n#x\n  # y\n3 1 2\n\n", 3, PLAIN),
];

#[test]
fn rows_are_read(rt: HostRuntime) {
    for (text, app, entries) in READ {
        let mut rows = [None; 16];
        assert!(rt; *app < 16);
        rows[*app] = Request::new(*entries).ok();
        assert_eq!(rt; rows_of(text), Ok(rows), "{text:?}");
    }
    assert_eq!(rt; rows_of(b""), Ok([None; 16]));
}

/// Texts, with the line of their first fault and what is wrong there.
const FAULTY: &[(&[u8], usize, RowKind)] = &[
    // the application is a number below 16
    (b"16 1", 1, RowKind::BadApp),
    (b"16 128", 1, RowKind::BadApp),
    (b"x 1", 1, RowKind::BadApp),
    (b"-1 1", 1, RowKind::BadApp),
    (b"+1 1", 1, RowKind::BadApp),
    (b"01 1", 1, RowKind::BadApp),
    (b"0x1 1", 1, RowKind::BadApp),
    (b"1.0 1", 1, RowKind::BadApp),
    (b"99999999999999999999 1", 1, RowKind::BadApp),
    // one to eight entries
    (b"3", 1, RowKind::EntryCount),
    (b"3 1 1 1 1 1 1 1 1 1", 1, RowKind::EntryCount),
    (
        b"3 128 128 128 128 128 128 128 128 128",
        1,
        RowKind::EntryCount,
    ),
    // a word writes a number up to 255
    (b"3 256", 1, RowKind::BadNumber),
    (b"3 1 x", 1, RowKind::BadNumber),
    (b"3 00", 1, RowKind::BadNumber),
    (b"3 +1", 1, RowKind::BadNumber),
    (b"3 1 99999999999999999999999999", 1, RowKind::BadNumber),
    // of those, an entry is at most 128
    (b"3 255", 1, above!(0, 255)),
    (b"0 129", 1, above!(0, 129)),
    (b"0 1 128 255", 1, above!(2, 255)),
    (b"3 128 128 128 128 128 128 128 129", 1, above!(7, 129)),
    // the application before the entries, their number before each of them
    (b"16", 1, RowKind::BadApp),
    (b"16 x 1 1 1 1 1 1 1 1", 1, RowKind::BadApp),
    (b"3 x 199 1 1 1 1 1 1 1", 1, RowKind::EntryCount),
    // entries from left to right
    (b"3 129 x", 1, above!(0, 129)),
    (b"3 x 129", 1, RowKind::BadNumber),
    // an earlier line's application last
    (b"3 1\n4 1\n3 2\n", 3, RowKind::AppTwice),
    (b"3 1\n3 x", 2, RowKind::BadNumber),
    (b"3 1\n3", 2, RowKind::EntryCount),
    (b"3 1\n3 129", 2, above!(0, 129)),
    // the first line before a worse one
    (b"3 1\n3 2\nx", 2, RowKind::AppTwice),
    // skipped lines count, and no comment stands behind a row
    (b"\n\n# a\n3 x", 4, RowKind::BadNumber),
    (b"3 # 1", 1, RowKind::BadNumber),
    // no other bytes are text; a vertical tab and a no-break space separate nothing
    (b"3 1\0", 1, RowKind::BadNumber),
    (b"\0", 1, RowKind::BadApp),
    (b"\xFF 1", 1, RowKind::BadApp),
    (b"3 \xFF\xFE", 1, RowKind::BadNumber),
    (b"3\x0B1", 1, RowKind::BadApp),
    (b"3\xC2\xA01", 1, RowKind::BadApp),
];

/// Of several faults the first line counts, and on it the first of the five.
#[test]
fn first_fault_is_told(rt: HostRuntime) {
    for (text, line, kind) in FAULTY {
        let fault = RowFault {
            line: *line,
            kind: *kind,
        };
        assert_eq!(rt; rows_of(text), Err(fault), "{text:?}");
    }
}

/// Lines and what is wrong there, with the text that says so.
const TOLD: &[(usize, RowKind, &str)] = &[
    (7, RowKind::BadApp, "line 7: Q1 bad application"),
    (1, RowKind::EntryCount, "line 1: Q2 one to eight entries"),
    (2, RowKind::BadNumber, "line 2: Q3 bad number"),
    (1, above!(0, 129), "line 1: Q4 entry 0 is 129, above 128"),
    (3, RowKind::AppTwice, "line 3: Q5 application twice"),
];

#[test]
fn fault_lines(rt: HostRuntime) -> Result<(), Fail> {
    for (line, kind, text) in TOLD {
        let fault = RowFault {
            line: *line,
            kind: *kind,
        };
        assert_eq!(rt; fault.to_string(rt.alloc())?.as_str(), *text);
    }
    Ok(())
}

/// The limits by their names.
#[test]
fn limits(rt: HostRuntime) {
    assert_eq!(rt; (APPLICATIONS, LEVELS, MAX_INPUT), (16, 8, 4096));
    assert_eq!(rt; (MAX_ENTRY, MAX_ENTRY_WORD), (128, 255));
}
