//! What a line is to a live arbiter.

ghost use Rattle.std.specs.Prelude.{◌≡◌};
ghost use Rattle.arb_share.specs.Text.{words_of};
ghost use Rattle.arb_live.specs.Heard.{asks_owners, heard};

use arb_script::{ClientOrder, MAX_LINE, ScriptKind, read_line};
use arb_share::text::split_word;
use std::str;

/// What a line is.
#[derive(Clone, Copy, Debug, PartialEq, Eq)]
pub enum Heard {
    /// It has no word, or is a comment, and gets no answer.
    Skipped,
    /// It gives an order of a client.
    Order(ClientOrder),
    /// It asks who has each core.
    Owners,
    /// It is no line of a script.
    Wrong(ScriptKind),
    /// It isn't UTF-8.
    NotText,
}

/// Whether the only word of a line is `cores`.
fn asks_owners(line: &[u8]) -> bool
    ensures { result ≡ asks_owners (words_of line.now) }
{
    match split_word(line) {
        Some((word, rest)) => word == b"cores".as_slice() && split_word(rest).is_none(),
        None => false,
    }
}

/// What a line is, given without its LF. A line of more than [`MAX_LINE`] bytes is too long, whatever it holds.
///
/// ```
/// assert_eq!(hear(b"cores"), Heard::Owners);
/// ```
pub fn hear(line: &[u8]) -> Heard
    ensures { result ≡ heard line.now }
{
    if line.len() > MAX_LINE {
        return Heard::Wrong(ScriptKind::LongLine);
    }
    if str::from_utf8(line).is_err() {
        return Heard::NotText;
    }
    if asks_owners(line) {
        return Heard::Owners;
    }
    match read_line(line) {
        Ok(None) => Heard::Skipped,
        Ok(Some(given)) => Heard::Order(given),
        Err(kind) => Heard::Wrong(kind),
    }
}
