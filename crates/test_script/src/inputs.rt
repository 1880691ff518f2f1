//! Inputs that are read whole, and inputs that are refused.

use arb_model::Order;
use arb_script::{ReadFault, RunFault, ScriptFault, ScriptKind, read_script, read_text};
use arb_share::Watched;
use std::process::Abort;
use std::test::Fail;
use test_parts::{FailingReader, RepeatingReader, thread};

/// An input is read whole up to a limit, or refused for a fault.
fn is_read<R: AllocGlobal + Abort>(rt: &R, input: &[u8], limit: usize, fault: Option<ReadFault>) {
    let mut source = Watched::new(input);
    let answer = read_text(rt.alloc(), &mut source, limit);
    let bytes = input.len();
    if let Ok(text) = &answer {
        assert!(rt;
            text.as_str().as_bytes() == input,
            "{bytes} bytes, limit {limit}"
        );
    }
    assert_eq!(rt; answer.err(), fault, "{bytes} bytes, limit {limit}");
}

/// Inputs, the limits that each is too long for, others, and what comes of it with those: too long comes before not text.
const INPUTS: &[(&[u8], &[usize], &[usize], Option<ReadFault>)] = &[
    (b"", &[], &[0, 5], None),
    (b"hello", &[4, 0], &[5, 6, usize::MAX], None),
    (b"x", &[0], &[], None),
    (b"h\xC3\xA9llo", &[], &[6], None),
    (b"a\0b\r\n", &[], &[5], None),
    (b"\xFF", &[], &[100], NOT_TEXT),
    (b"hello\xFF", &[], &[100], NOT_TEXT),
    (b"h\xC3", &[], &[100], NOT_TEXT),
    (b"\xED\xA0\x80", &[], &[100], NOT_TEXT),
    (b"\xFF\xFF\xFF\xFF\xFF\xFF", &[0, 5], &[6], NOT_TEXT),
];

const NOT_TEXT: Option<ReadFault> = Some(ReadFault::NotText);

#[test]
fn inputs_and_their_limits(rt: HostRuntime) {
    for (input, too_short, others, fault) in INPUTS {
        for limit in *too_short {
            is_read(&rt, input, *limit, Some(ReadFault::TooLong));
        }
        for limit in *others {
            is_read(&rt, input, *limit, *fault);
        }
    }
}

/// Lengths at which a chunk ends, or near one.
const LENGTHS: &[usize] = &[32_767, 32_768, 32_769, 65_535, 65_536, 65_537, 100_000];

/// So many bytes are read with limits that they don't pass, and are too long for one below.
fn has_its_limits<R: AllocGlobal + Abort>(rt: &R, letters: &[u8], length: usize) {
    let input = letters.get(..length).unwrap_or(b"");
    assert_eq!(rt; input.len(), length);
    is_read(rt, input, length, None);
    is_read(rt, input, length.wrapping_add(1), None);
    is_read(rt, input, usize::MAX, None);
    is_read(rt, input, length.wrapping_sub(1), Some(ReadFault::TooLong));
}

/// Inputs that are read in several chunks, inputs that end where a chunk does, and a character that begins in one chunk
/// and ends in the next.
#[test]
fn long_inputs(rt: HostRuntime) -> Result<(), Fail> {
    // without a repetition that a chunk could hide
    let mut letters = Vec::new(rt.alloc());
    for place in 0..100_000usize {
        letters.push(b'a' + (place % 23) as u8)?;
    }
    for length in LENGTHS {
        has_its_limits(&rt, letters.as_slice(), *length);
    }
    letters.truncate(32_767);
    for (byte, fault) in [(b'\xC3', Some(ReadFault::NotText)), (b'\xA9', None)] {
        letters.push(byte)?;
        is_read(&rt, letters.as_slice(), 32_769, fault);
    }
    Ok(())
}

/// A reader that gives spaces for good is read until one byte past the limit.
#[test]
fn endless_input_is_too_long(rt: HostRuntime) {
    for limit in [0, 1, 100, 32_767, 32_768, 100_000] {
        let mut source = Watched::new(RepeatingReader {
            byte: b' ',
            left: usize::MAX,
            given: 0,
        });
        let answer = read_text(rt.alloc(), &mut source, limit);
        let given = (answer.err(), source.inner.given <= limit + 1);
        assert_eq!(rt;
            given,
            (Some(ReadFault::TooLong), true),
            "with limit {limit}"
        );
    }
}

/// What is read of an input by calls of so many bytes, of which one may fail.
fn is_read_by_calls<R: AllocGlobal + Abort>(
    rt: &R,
    (bytes, step, fails_at): (&[u8], usize, usize),
    limit: usize,
    (fault, failures): (Option<ReadFault>, u64),
) {
    let mut source = Watched::new(FailingReader::new(bytes, step, fails_at));
    let answer = read_text(rt.alloc(), &mut source, limit);
    if let Ok(read) = &answer {
        let all = (read.as_str().as_bytes(), source.inner.bytes.len());
        assert_eq!(rt; all, (bytes, 0), "{step} a call");
    }
    let given = (answer.err(), source.failures);
    assert_eq!(rt; given, (fault, failures), "{step} a call, limit {limit}");
}

/// It doesn't matter how many bytes a call of the reader gives. A failure behind the byte that makes an input too long
/// isn't met; one before the end of the input is.
#[test]
fn inputs_in_pieces(rt: HostRuntime) {
    let text = b"two lines\nof text\n".as_slice();
    for step in 1..20 {
        is_read_by_calls(&rt, (text, step, usize::MAX), text.len(), (None, 0));
    }
    let short = (b"hello".as_slice(), 5, 1);
    is_read_by_calls(&rt, short, 4, (Some(ReadFault::TooLong), 0));
    is_read_by_calls(&rt, short, 5, (Some(ReadFault::Read), 1));
}

/// A script that is read is what its text says.
#[test]
fn scripts_are_read(rt: HostRuntime) -> Result<(), Fail> {
    let mut source = Watched::new(b"0.0 join\n# and then\n1.3 status\n".as_slice());
    let script = read_script(rt.alloc(), &mut source)?;
    assert_eq!(rt; script.len(), 2);
    let first = (script.client(0), script.order(0));
    assert_eq!(rt; first, (thread(0, 0), Order::Join));
    let second = (script.client(1), script.order(1));
    assert_eq!(rt; second, (thread(1, 3), Order::Status));
    Ok(())
}

/// Or its first fault is what comes of it.
#[test]
fn faulty_scripts_are_read(rt: HostRuntime) {
    let mut source = Watched::new(b"0.0 join\n0.0 jion\n".as_slice());
    let fault = read_script(rt.alloc(), &mut source).err();
    let unknown = ScriptFault {
        line: 2,
        kind: ScriptKind::UnknownOrder,
    };
    assert_eq!(rt; fault, Some(RunFault::Script(unknown)));
}
