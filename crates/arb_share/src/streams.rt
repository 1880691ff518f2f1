//! Readers and writers whose failed calls a contract can name.
//!
//! A contract over [`std::io::Read`] can name the bytes, but not the cause of an error. A [`Source`] and a
//! [`Sink`] also have a number that changes at each failed call and only there. So a function over them can promise
//! this: it reports a fault of reading or writing exactly where one of its own calls failed. What failed before doesn't
//! count. [`Watched`] makes a source of any reader, and a sink of any writer.

ghost use Rattle.std.specs.Prelude.{◌≡◌, ◌≢◌, ◌<◌, ◌≤◌, ℕ, List, Option, length, take, OnOk, OnErr, IfOk};
ghost use Rattle.std.specs.Io.{ReadsAtMost, WritesAtMost};
ghost use Rattle.std.specs.Io.KnownBytes.{Appends, Consumes, IsAtEnd, ReadConsumes, WriteAppends};
ghost use Rattle.arb_share.specs.Streams.{ConsumesUpTo, Writes};

use std::error::Error;
use std::io;
use std::io::{ErrorKind, Read, Write};

/// Bytes to read.
pub trait Source {
    ghost remaining: { Self → Option (List ℕ) };

    /// A number that changes at each failed call, and only there.
    ghost failures: { Self → ℕ };

    /// Reads some of the bytes that are left into a prefix of `buffer`, and says how many. They are none only at the end,
    /// or where the buffer is empty.
    fn read(&mut self, buffer: &mut [u8]) -> io::Result<usize>
        ensures bound { ReadsAtMost result buffer.new }
        ensures bytes { ReadConsumes (remaining self.old) (remaining self.new) result buffer.new }
        ensures ok { OnOk result (failures self.new ≡ failures self.old) }
        ensures err { OnErr result (failures self.new ≢ failures self.old) };
}

/// What takes bytes.
pub trait Sink {
    ghost contents: { Self → Option (List ℕ) };

    /// A number that changes at each failed call, and only there.
    ghost failures: { Self → ℕ };

    /// Takes a prefix of the bytes, and says how many. Taking none is a failure, unless there are none.
    fn write(&mut self, bytes: &[u8]) -> io::Result<usize>
        ensures bound { WritesAtMost result bytes.now }
        ensures some { IfOk result (λ taken. 0 < length bytes.now → 0 < taken) }
        ensures bytes { WriteAppends (contents self.old) (contents self.new) result bytes.now }
        ensures ok { OnOk result (failures self.new ≡ failures self.old) }
        ensures err { OnErr result (failures self.new ≢ failures self.old) };
}

/// A reader or writer, and how many calls of it have failed.
#[derive(Drop)]
pub struct Watched<T: Drop> {
    /// The reader or writer.
    pub inner: T,
    /// How many calls of it have failed. After 2^64 of them it counts from 0 again, so look only at whether it changed.
    pub failures: u64,
}

impl<T: Drop> Watched<T> {
    /// Watches a reader or writer from now on: no call of it has failed yet.
    pub fn new(inner: T) -> Watched<T>
        ensures { result ≡ record { inner = inner; failures = 0 } }
    {
        Watched { inner, failures: 0 }
    }
}

impl<R: Read + Drop> Source for Watched<R> {
    ghost remaining = { λ s. R.remaining s.inner };

    ghost failures = { λ s. s.failures };

    fn read(&mut self, buffer: &mut [u8]) -> io::Result<usize> {
        let result = self.inner.read(buffer);
        if result.is_err() {
            self.failures = self.failures.wrapping_add(1);
        }
        result
    }
}

impl<W: Write + Drop> Sink for Watched<W> {
    ghost contents = { λ s. W.contents s.inner };

    ghost failures = { λ s. s.failures };

    fn write(&mut self, bytes: &[u8]) -> io::Result<usize> {
        match self.inner.write(bytes) {
            Ok(0) if !bytes.is_empty() => {
                self.failures = self.failures.wrapping_add(1);
                Err(io::Error::from(ErrorKind::WriteZero))
            }
            Ok(taken) => Ok(taken),
            Err(error) => {
                self.failures = self.failures.wrapping_add(1);
                Err(error)
            }
        }
    }
}

/// A call of a reader or writer failed.
#[derive(Clone, Copy, Debug, PartialEq, Eq)]
pub struct Failed;

impl Error for Failed {}

/// Reads until the buffer is full or no byte is left, and says how many bytes were read.
///
/// # Errors
/// The first failed call ends the reading, whatever its error.
pub fn fill<R: Source>(reader: &mut R, buffer: &mut [u8]) -> Result<usize, Failed>
    ensures within { IfOk result (λ filled. filled ≤ length buffer.old) }
    ensures bytes { IfOk result (λ filled.
        Consumes (R.remaining reader.old) (R.remaining reader.new) (take filled buffer.new)) }
    ensures end { IfOk result (λ filled. filled < length buffer.old → IsAtEnd (R.remaining reader.new)) }
    ensures taken { ConsumesUpTo (length buffer.old) (R.remaining reader.old) (R.remaining reader.new) }
    ensures ok { OnOk result (R.failures reader.new ≡ R.failures reader.old) }
    ensures err { OnErr result (R.failures reader.new ≢ R.failures reader.old) }
{
    let mut filled = 0;
    while filled < buffer.len() {
        let Ok(taken) = reader.read(&mut buffer[filled..]) else {
            return Err(Failed);
        };
        if taken == 0 {
            return Ok(filled);
        }
        filled += taken;
    }
    Ok(filled)
}

/// Writes all the bytes.
///
/// # Errors
/// The first failed call ends the writing; a prefix of the bytes may have been written before it.
pub fn write_all<W: Sink>(writer: &mut W, bytes: &[u8]) -> Result<(), Failed>
    ensures { Writes W.contents W.failures writer.old writer.new result bytes.now }
{
    let mut rest = bytes;
    while !rest.is_empty() {
        let Ok(taken) = writer.write(rest) else {
            return Err(Failed);
        };
        rest = &rest[taken..];
    }
    Ok(())
}
