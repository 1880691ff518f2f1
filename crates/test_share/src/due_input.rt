//! `due` from the bytes in to the bytes out.

use arb_share::{DueFault, RowFault, RowKind, Watched, due_run};
use std::test::Fail;
use test_parts::{FailingReader, ShortWriter};

const THREE_ROWS: &[u8] = b"0 1 5\n1 0 5\n2 0 0 3\n";

const THREE_DUE: &[u8] = b"3 1 0 0 0 0 0 0 0 0 0 0 0 0 0 0\n";

const ZEROS: &[u8] = b"0 0 0 0 0 0 0 0 0 0 0 0 0 0 0 0\n";

/// How often a stream may have failed before a run, which finds no fault in that.
const EARLIER: [u64; 4] = [0, 1, 7, 0xFFFF_FFFF_FFFF_FFFF];

/// An input of 4,096 bytes is read; one of 4,097 is too long, whatever its rows. Refused rows write nothing.
#[test]
fn whole_runs(rt: HostRuntime) -> Result<(), Fail> {
    let half = b"64 0 0 0 0 0 0 0 0 0 0 0 0 0 0 0\n".as_slice();
    let all = b"128 0 0 0 0 0 0 0 0 0 0 0 0 0 0 0\n".as_slice();
    let letter = RowFault {
        line: 1,
        kind: RowKind::BadApp,
    };
    let above = RowFault {
        line: 2,
        kind: RowKind::Above {
            level: 0,
            value: 129,
        },
    };
    let blanks: Vec<u8> = vec![in rt.alloc(); b' '; 4097]?;
    let ends: Vec<u8> = vec![in rt.alloc(); b'\n'; 4097]?;
    let letters: Vec<u8> = vec![in rt.alloc(); b'x'; 4097]?;
    for (input, cores, answer, written) in [
        (b"".as_slice(), 4, Ok(()), ZEROS),
        (THREE_ROWS, 4, Ok(()), THREE_DUE),
        (b"0 64", 64, Ok(()), half),
        (b"0 128", 64, Ok(()), half),
        (b"0 128", 128, Ok(()), all),
        (b"0 1\n0 129\n", 4, Err(DueFault::Row(above)), b""),
        (&blanks[..4096], 4, Ok(()), ZEROS),
        (&blanks[..], 4, Err(DueFault::TooLong), b""),
        (&ends[..4096], 4, Ok(()), ZEROS),
        (&ends[..], 4, Err(DueFault::TooLong), b""),
        (&letters[..4096], 4, Err(DueFault::Row(letter)), b""),
        (&letters[..], 4, Err(DueFault::TooLong), b""),
    ] {
        for before in EARLIER {
            let mut source = Watched::new(input);
            let mut sink = Watched::new(Vec::new(rt.alloc()));
            source.failures = before;
            sink.failures = before;
            let given = due_run(&mut source, &mut sink, cores);
            let left = (given, sink.inner.as_slice());
            assert_eq!(rt; left, (answer, written), "{input:?} for {cores} cores");
            assert_eq!(rt; (source.failures, sink.failures), (before, before));
        }
    }
    Ok(())
}

/// A reader that fails at its first call, its second, and so on, until a run meets no failure.
#[test]
fn each_read_fails_in_turn(rt: HostRuntime) {
    for before in EARLIER {
        for fails_at in 0..7 {
            let mut source = Watched::new(FailingReader::new(THREE_ROWS, 4, fails_at));
            let mut sink = Watched::new(Vec::new(rt.alloc()));
            source.failures = before;
            sink.failures = before;
            // 20 bytes by 4 are five calls, and a sixth finds the end
            let (answer, written, failed) = if fails_at == 6 {
                (Ok(()), THREE_DUE, 0)
            } else {
                (Err(DueFault::Read), b"".as_slice(), 1)
            };
            let given = due_run(&mut source, &mut sink, 4);
            let left = (given, sink.inner.as_slice());
            assert_eq!(rt; left, (answer, written), "at call {fails_at}");
            let failures = (source.failures, sink.failures);
            assert_eq!(rt; failures, (before.wrapping_add(failed), before));
        }
    }
}

/// A writer that takes a number of bytes in all and then fails, or takes none, for each number up to the
/// line's length.
#[test]
fn each_write_fails_in_turn(rt: HostRuntime) {
    for room in 0..33 {
        for fails in [false, true] {
            let mut source = Watched::new(THREE_ROWS);
            let mut sink = Watched::new(ShortWriter::new(rt.alloc(), 5, room, fails));
            let (answer, failed) = if room == 32 {
                (Ok(()), 0)
            } else {
                (Err(DueFault::Write), 1)
            };
            let given = due_run(&mut source, &mut sink, 4);
            let left = (given, sink.failures, sink.inner.taken.as_slice());
            let wanted = (answer, failed, &THREE_DUE[..room]);
            assert_eq!(rt; left, wanted, "with room {room}");
        }
    }
}

/// A reader that never ends is read until one byte past the limit.
#[test]
fn endless_input_is_too_long(rt: HostRuntime) -> Result<(), Fail> {
    let bytes: Vec<u8> = vec![in rt.alloc(); b' '; 10_000]?;
    let mut source = Watched::new(FailingReader::new(bytes.as_slice(), 100, 1000));
    let mut sink = Watched::new(Vec::new(rt.alloc()));
    let answer = due_run(&mut source, &mut sink, 4);
    let left = (answer, source.inner.bytes.len());
    assert_eq!(rt; left, (Err(DueFault::TooLong), 10_000 - 4097));
    Ok(())
}
