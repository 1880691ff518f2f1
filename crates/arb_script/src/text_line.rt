//! A line of text, put together without memory before it is written.

ghost use Rattle.std.specs.Prelude.{◌≡◌, ◌+◌, ◌<◌, ◌≤◌, ◌++◌, ◌∷◌, [], length, decimal};

use arrayvec::ArrayString;
use itoa::Buffer;
use std::marker::Model;

/// The most bytes of a printed line.
pub const LINE_BYTES: usize = 128;

/// The most bytes of a number below 256.
pub(crate) const SMALL_BYTES: usize = 3;

/// The most bytes of a number below 2^64.
pub const NUMBER_BYTES: usize = 20;

/// A line of a report. It takes no memory.
#[derive(Drop)]
pub struct TextLine {
    text: ArrayString<LINE_BYTES>,
}

impl Model for TextLine {
    ghost use Rattle.std.specs.Prelude.{List, ℕ};

    ghost Value = { List ℕ };

    ghost view = { λ l. l.text.bytes };
}

impl TextLine {
    /// A line without a byte.
    pub fn new() -> TextLine
        ensures { result ≡ [] }
    {
        TextLine {
            text: ArrayString::new(),
        }
    }

    /// The line as a text of at most [`LINE_BYTES`] bytes.
    pub fn as_str(&self) -> &str
        ensures text { result.now ≡ self.now }
        ensures fits { length result.now ≤ LINE_BYTES }
    {
        self.text.as_str()
    }

    /// The bytes of the line.
    pub fn as_bytes(&self) -> &[u8]
        ensures { result.now ≡ self.now }
    {
        self.as_str().as_bytes()
    }

    /// Drops all bytes.
    pub fn clear(&mut self)
        ensures { self.new ≡ [] }
    {
        self.text.clear();
    }

    /// Appends a text, for which there must be room. It is copied into its callers: a text that is known there is stored by a few
    /// instructions, with no call.
    #[inline(always)]
    pub fn push(&mut self, text: &str)
        requires { length self.old + length text.now ≤ LINE_BYTES }
        ensures text { self.new ≡ self.old ++ text.now }
        ensures length { length self.new ≡ length self.old + length text.now }
    {
        self.text.push_str(text);
    }

    /// Appends a number below 256.
    pub(crate) fn push_small(&mut self, number: u8)
        requires { length self.old + SMALL_BYTES ≤ LINE_BYTES }
        ensures text { self.new ≡ self.old ++ decimal number }
        ensures length { length self.new ≤ length self.old + SMALL_BYTES }
    {
        // most have one digit, and need no division
        if number < 10 {
            self.push_digit(number);
            return;
        }
        // two digits need one division less than three do
        if number < 100 {
            self.push_digit(number / 10);
            self.push_digit(number % 10);
            return;
        }
        self.push_digit(number / 100);
        self.push_digit(number / 10 % 10);
        self.push_digit(number % 10);
    }

    /// Appends a digit: one byte, so that no copy's length is to be found out when the program runs.
    fn push_digit(&mut self, digit: u8)
        requires digit { digit < 10 }
        requires room { length self.old + 1 ≤ LINE_BYTES }
        ensures text { self.new ≡ self.old ++ (48 + digit) ∷ [] }
        ensures length { length self.new ≡ length self.old + 1 }
    {
        self.text.push(char::from(b'0' + digit));
    }

    /// Appends a number, of at most [`NUMBER_BYTES`] bytes, for which there must be room. It is copied into its callers, all but
    /// what large numbers take.
    #[inline(always)]
    pub fn push_number(&mut self, number: u64)
        requires { length self.old + NUMBER_BYTES ≤ LINE_BYTES }
        ensures text { self.new ≡ self.old ++ decimal number }
        ensures length { length self.new ≤ length self.old + NUMBER_BYTES }
    {
        if number < 256 {
            self.push_small(number as u8);
            return;
        }
        self.push_large(number);
    }

    /// Appends a number of any size. It isn't copied into its callers, so that they stay short.
    #[inline(never)]
    fn push_large(&mut self, number: u64)
        requires { length self.old + NUMBER_BYTES ≤ LINE_BYTES }
        ensures text { self.new ≡ self.old ++ decimal number }
        ensures length { length self.new ≤ length self.old + NUMBER_BYTES }
    {
        let mut digits = Buffer::new();
        self.push(digits.format(number));
    }
}
