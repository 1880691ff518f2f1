//! A call that fails is not made again: what reads or writes tells of it, though the next call would go.

use arb_live::{Both, TwoWay};
use arb_share::{Sink, Source, Watched};
use std::io;
use std::io::{ErrorKind, Read, Write};

/// Fails at its first call, as one that is interrupted, and at no other.
#[derive(Drop)]
struct FailsOnce {
    failed: bool,
}

impl FailsOnce {
    fn new() -> FailsOnce {
        FailsOnce { failed: false }
    }

    /// Fails where no call has failed yet.
    fn call(&mut self) -> io::Result<()> {
        if self.failed {
            return Ok(());
        }
        self.failed = true;
        Err(io::Error::from(ErrorKind::Interrupted))
    }
}

impl Read for FailsOnce {
    fn read(&mut self, _buf: &mut [u8]) -> io::Result<usize> {
        self.call()?;
        Ok(0)
    }
}

impl Write for FailsOnce {
    fn write(&mut self, buf: &[u8]) -> io::Result<usize> {
        self.call()?;
        Ok(buf.len())
    }

    fn flush(&mut self) -> io::Result<()> {
        self.call()
    }
}

/// Takes nothing at its first call, and all at each other.
#[derive(Drop)]
struct TakesNoneOnce {
    called: bool,
}

impl Write for TakesNoneOnce {
    fn write(&mut self, buf: &[u8]) -> io::Result<usize> {
        let taken = if self.called { buf.len() } else { 0 };
        self.called = true;
        Ok(taken)
    }

    fn flush(&mut self) -> io::Result<()> {
        Ok(())
    }
}

/// What came of two calls, and how many had failed after the first.
type Came = (bool, u64, Option<usize>);

const SECOND_READ: Came = (true, 1, Some(0));

const SECOND_WRITE: Came = (true, 1, Some(2));

/// Writes two bytes to a sink, and once more.
fn written_twice<W: Write + Drop>(writer: W) -> Came {
    let mut sink = Watched::new(writer);
    let fails = Sink::write(&mut sink, b"ab").is_err();
    let failures = sink.failures;
    (fails, failures, Sink::write(&mut sink, b"ab").ok())
}

/// A source and a sink tell of the one call that failed.
#[test]
fn a_watched_call_that_fails_once(rt: HostRuntime) {
    let mut buffer = [0; 4];
    let mut source = Watched::new(FailsOnce::new());
    let fails = Source::read(&mut source, &mut buffer).is_err();
    let failures = source.failures;
    let again = Source::read(&mut source, &mut buffer).ok();
    assert_eq!(rt; (fails, failures, again), SECOND_READ);
    let failing = written_twice(FailsOnce::new());
    let taking_none = written_twice(TakesNoneOnce { called: false });
    assert_eq!(rt; (failing, taking_none), (SECOND_WRITE, SECOND_WRITE));
}

/// So does a stream made of a reader and a writer; of a flush too.
#[test]
fn a_call_of_both_that_fails_once(rt: HostRuntime) {
    let mut buffer = [0; 4];
    let mut both = Both::new(FailsOnce::new(), FailsOnce::new());
    let fails = TwoWay::read(&mut both, &mut buffer).is_err();
    let failures = both.failed_reads;
    let again = TwoWay::read(&mut both, &mut buffer).ok();
    assert_eq!(rt; (fails, failures, again), SECOND_READ);
    let fails = TwoWay::write(&mut both, b"ab").is_err();
    let failures = both.failed_writes;
    let again = TwoWay::write(&mut both, b"ab").ok();
    assert_eq!(rt; (fails, failures, again), SECOND_WRITE);
    let mut both = Both::new(FailsOnce::new(), TakesNoneOnce { called: false });
    let fails = TwoWay::write(&mut both, b"ab").is_err();
    assert_eq!(rt; (fails, both.failed_writes), (true, 1));
    let mut both = Both::new(FailsOnce::new(), FailsOnce::new());
    let fails = TwoWay::flush(&mut both).is_err();
    let failures = both.failed_writes;
    let again = TwoWay::flush(&mut both).is_ok();
    assert_eq!(rt; (fails, failures, again), (true, 1, true));
}
