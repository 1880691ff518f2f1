//! A two-way stream made of a reader and a writer.

use crate::two_way::TwoWay;
use std::io;
use std::io::{ErrorKind, Read, Write};

/// A reader and a writer as one stream. It tells the bytes that they tell, and not in which turn they went: of the standard
/// streams it tells nothing.
#[derive(Drop)]
pub struct Both<R: Drop, W: Drop> {
    /// What is read.
    pub reader: R,
    /// What is written.
    pub writer: W,
    /// How many calls of the reader have failed. After 2^64 of them it counts from 0 again.
    pub failed_reads: u64,
    /// How many calls of the writer have failed. After 2^64 of them it counts from 0 again.
    pub failed_writes: u64,
}

impl<R: Drop, W: Drop> Both<R, W> {
    ghost use Rattle.std.specs.Prelude.{◌≡◌};

    /// The two as one stream, on which no call has failed yet.
    pub fn new(reader: R, writer: W) -> Both<R, W>
        ensures { result ≡ record { reader = reader; writer = writer; failed_reads = 0; failed_writes = 0 } }
    {
        Both {
            reader,
            writer,
            failed_reads: 0,
            failed_writes: 0,
        }
    }
}

impl<R: Read + Drop, W: Write + Drop> TwoWay for Both<R, W> {
    ghost use Rattle.std.specs.Prelude.{None};

    ghost told = { λ s. record { remaining = R.remaining s.reader; contents = W.contents s.writer; events = None } };

    ghost failed_reads = { λ s. s.failed_reads };

    ghost failed_writes = { λ s. s.failed_writes };

    fn read(&mut self, buffer: &mut [u8]) -> io::Result<usize> {
        let result = self.reader.read(buffer);
        if result.is_err() {
            self.failed_reads = self.failed_reads.wrapping_add(1);
        }
        result
    }

    fn write(&mut self, bytes: &[u8]) -> io::Result<usize> {
        let taken = match self.writer.write(bytes) {
            Ok(taken) => taken,
            Err(error) => {
                self.failed_writes = self.failed_writes.wrapping_add(1);
                return Err(error);
            }
        };
        if taken == 0 && !bytes.is_empty() {
            self.failed_writes = self.failed_writes.wrapping_add(1);
            return Err(io::Error::from(ErrorKind::WriteZero));
        }
        Ok(taken)
    }

    fn flush(&mut self) -> io::Result<()> {
        let result = self.writer.flush();
        if result.is_err() {
            self.failed_writes = self.failed_writes.wrapping_add(1);
        }
        result
    }
}
