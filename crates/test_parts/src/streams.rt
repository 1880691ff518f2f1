//! Readers and writers that fail in the middle, or that count.

use std::alloc::Global;
use std::io;
use std::io::{ErrorKind, Read, Write};

/// Gives at most `step` bytes a call, and fails at one call, counted from 0.
#[derive(Drop)]
pub struct FailingReader<'a> {
    pub bytes: &'a [u8],
    pub step: usize,
    pub calls: usize,
    pub fails_at: usize,
}

impl<'a> FailingReader<'a> {
    /// A reader that was not called yet.
    pub fn new(bytes: &'a [u8], step: usize, fails_at: usize) -> FailingReader<'a> {
        FailingReader {
            bytes,
            step,
            calls: 0,
            fails_at,
        }
    }
}

impl Read for FailingReader<'_> {
    fn read(&mut self, buf: &mut [u8]) -> io::Result<usize> {
        if self.calls == self.fails_at {
            return Err(io::Error::from(ErrorKind::Interrupted));
        }
        self.calls = self.calls.wrapping_add(1);
        let given = self.step.min(buf.len()).min(self.bytes.len());
        let (prefix, rest) = self.bytes.split_at(given);
        buf[..given].copy_from_slice(prefix);
        self.bytes = rest;
        Ok(given)
    }
}

/// Gives one byte again and again, `left` times more, and counts how often it gave it.
#[derive(Drop)]
pub struct RepeatingReader {
    pub byte: u8,
    pub left: usize,
    pub given: usize,
}

impl Read for RepeatingReader {
    fn read(&mut self, buf: &mut [u8]) -> io::Result<usize> {
        let given = self.left.min(buf.len());
        buf[..given].fill(self.byte);
        self.left = self.left.saturating_sub(given);
        self.given = self.given.wrapping_add(given);
        Ok(given)
    }
}

/// Takes at most `step` bytes a call and `room` in all, and then takes none or fails. It counts its calls.
#[derive(Drop)]
pub struct ShortWriter {
    pub taken: Vec<u8>,
    pub step: usize,
    pub room: usize,
    pub fails: bool,
    pub calls: usize,
}

impl ShortWriter {
    /// A writer that has taken nothing yet.
    pub fn new(alloc: Global, step: usize, room: usize, fails: bool) -> ShortWriter {
        ShortWriter {
            taken: Vec::new(alloc),
            step,
            room,
            fails,
            calls: 0,
        }
    }
}

impl Write for ShortWriter {
    fn write(&mut self, buf: &[u8]) -> io::Result<usize> {
        self.calls = self.calls.wrapping_add(1);
        let room = self.room.saturating_sub(self.taken.len());
        if room == 0 && self.fails {
            return Err(io::Error::from(ErrorKind::Other));
        }
        let count = self.step.min(buf.len()).min(room);
        self.taken.extend_from_slice(&buf[..count])?;
        Ok(count)
    }

    fn flush(&mut self) -> io::Result<()> {
        Ok(())
    }
}
