//! Digests: numbers that change with each part of a result.

use arb_core::{Place, Reply};
use std::io;
use std::io::Write;

/// A digest of bytes, whatever pieces they come in: how many they are, their sum, and the sum of the sums so far (Fletcher's
/// checksum, with numbers of 64 bits).
#[derive(Clone, Copy, Default, Drop)]
pub struct Bytes {
    count: u64,
    sum: u64,
    sums: u64,
}

impl Bytes {
    /// The digest as one number.
    pub fn number(&self) -> u64 {
        let mut number = Number::default();
        number.add(self.count);
        number.add(self.sum);
        number.add(self.sums);
        number.value
    }
}

impl Write for Bytes {
    fn write(&mut self, bytes: &[u8]) -> io::Result<usize> {
        let (mut sum, mut sums) = (self.sum, self.sums);
        for byte in bytes {
            sum = sum.wrapping_add(u64::from(*byte));
            sums = sums.wrapping_add(sum);
        }
        self.count = self.count.wrapping_add(bytes.len() as u64);
        self.sum = sum;
        self.sums = sums;
        Ok(bytes.len())
    }

    fn flush(&mut self) -> io::Result<()> {
        Ok(())
    }
}

/// A digest of a journal report that is the same in whatever order clients came, and whatever they were answered: how many
/// lines it has, and the sum of a number for each order.
#[derive(Clone, Copy, Default, Drop)]
pub struct Orders {
    lines: u64,
    sum: u64,
    /// The number of the line so far.
    begun: u64,
    /// Whether the order of the line is complete.
    told: bool,
}

impl Orders {
    /// The digest as one number.
    pub fn number(&self) -> u64 {
        let mut number = Number::default();
        number.add(self.lines);
        number.add(self.sum);
        number.value
    }

    /// One byte more of a line. An order ends at `>`.
    fn take(&mut self, byte: u8) {
        if byte == b'\n' {
            self.lines = self.lines.wrapping_add(1);
            self.begun = 0;
            self.told = false;
        } else if byte == b'>' {
            self.sum = self.sum.wrapping_add(mixed(self.begun));
            self.told = true;
        } else if !self.told {
            self.begun = self.begun.wrapping_mul(257).wrapping_add(u64::from(byte));
        }
    }
}

impl Write for Orders {
    fn write(&mut self, bytes: &[u8]) -> io::Result<usize> {
        for byte in bytes {
            self.take(*byte);
        }
        Ok(bytes.len())
    }

    fn flush(&mut self) -> io::Result<()> {
        Ok(())
    }
}

/// A number whose bits all hang on those of another.
fn mixed(number: u64) -> u64 {
    let number = (number ^ (number >> 32)).wrapping_mul(0x9e37_79b9_7f4a_7c15);
    number ^ (number >> 29)
}

/// A digest of numbers, in their order.
#[derive(Clone, Copy, Default, Drop)]
pub struct Number {
    /// The digest so far.
    pub value: u64,
}

impl Number {
    /// One number more.
    #[inline(always)]
    pub fn add(&mut self, number: u64) {
        let value = (self.value ^ number).wrapping_mul(0x9e37_79b9_7f4a_7c15);
        self.value = value ^ (value >> 32);
    }
}

/// A number for a place.
pub fn place_number(place: Place) -> u64 {
    match place {
        Place::Unmanaged => 0,
        Place::Waiting => 1,
        Place::Moved => 2,
        Place::On { core, asked } => u64::from(core).wrapping_mul(2).wrapping_add(4)
            + u64::from(asked),
    }
}

/// A number for a reply.
pub fn reply_number(reply: &Reply) -> u64 {
    match reply {
        Reply::Joined => 1,
        Reply::Due(due) => 0x100 + u64::from(*due),
        Reply::Now(place) => 0x1_0000u64.wrapping_add(place_number(*place)),
        Reply::Done => 2,
        Reply::Counts {
            due,
            owned,
            asked,
            waiting,
        } => u64::from(u32::from_le_bytes([*due, *owned, *asked, *waiting])),
        Reply::Moved(threads) => 0x200 + u64::from(*threads),
        Reply::Refused(_) => 3,
    }
}
