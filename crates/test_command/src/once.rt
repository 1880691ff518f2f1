//! A reader and a writer that fail once, and go on after that.

use std::alloc::Global;
use std::io;
use std::io::{ErrorKind, Read, Write};

/// Gives at most nine bytes a call. One call fails, counted from 0; the next one goes on where it stopped.
#[derive(Drop)]
pub struct OnceReader<'a> {
    pub bytes: &'a [u8],
    pub calls: usize,
    pub fails_at: usize,
}

impl Read for OnceReader<'_> {
    fn read(&mut self, buf: &mut [u8]) -> io::Result<usize> {
        let call = self.calls;
        self.calls = call.wrapping_add(1);
        if call == self.fails_at {
            return Err(io::Error::from(ErrorKind::Interrupted));
        }
        let given = buf.len().min(self.bytes.len()).min(9);
        let (prefix, rest) = self.bytes.split_at(given);
        buf[..given].copy_from_slice(prefix);
        self.bytes = rest;
        Ok(given)
    }
}

/// Fails once, at the byte behind the first `fails_at`, or takes nothing there; it takes all after that. It keeps how much
/// it had taken at each flush. One flush fails, counted from 0.
#[derive(Drop)]
pub struct OnceWriter {
    pub taken: Vec<u8>,
    pub fails_at: usize,
    pub failed: bool,
    pub takes_none: bool,
    pub flushes: Vec<usize>,
    pub failing_flush: usize,
}

impl OnceWriter {
    /// A writer that fails behind so many bytes, and at no flush.
    pub fn new(alloc: Global, fails_at: usize) -> OnceWriter {
        OnceWriter {
            taken: Vec::new(alloc),
            fails_at,
            failed: false,
            takes_none: false,
            flushes: Vec::new(alloc),
            failing_flush: usize::MAX,
        }
    }

    /// How many bytes of a call with so many it takes now; `None` where it fails.
    fn room(&mut self, length: usize) -> Option<usize> {
        if self.failed {
            return Some(length);
        }
        let room = self.fails_at.saturating_sub(self.taken.len());
        if room > 0 || length == 0 {
            return Some(length.min(room));
        }
        self.failed = true;
        if self.takes_none { Some(0) } else { None }
    }
}

impl Write for OnceWriter {
    fn write(&mut self, buf: &[u8]) -> io::Result<usize> {
        let Some(room) = self.room(buf.len()) else {
            return Err(io::Error::from(ErrorKind::Other));
        };
        let count = room.min(buf.len());
        self.taken.extend_from_slice(&buf[..count])?;
        Ok(count)
    }

    fn flush(&mut self) -> io::Result<()> {
        let flush = self.flushes.len();
        self.flushes.push(self.taken.len())?;
        if flush == self.failing_flush {
            return Err(io::Error::from(ErrorKind::Other));
        }
        Ok(())
    }
}
