//! The usual lines of a script, read in one pass: words with one space between them, and numbers of few digits.
//!
//! Each part but the moment is copied into its caller, and the whole into its two callers. So most lines are read with no call, and
//! what a part gives is not put in memory for the next.

ghost use Rattle.std.specs.Prelude.{◌≡◌, ◌≤◌, ◌<◌, ◌↔◌, ◌≢◌, ◌⊎◌, ◌++◌, ◌+◌, IfSome, IsTrue, drop, length};
ghost use Rattle.arb_share.specs.Limits.{max_entry, max_entry_word};
ghost use Rattle.arb_share.specs.Text.{line_feed};
ghost use Rattle.arb_script.specs.Front.{BeginsWithGiven};
ghost use Rattle.arb_script.specs.Usual.{AreEntries, BeginsWithClient, BeginsWithNumber, BeginsWithOrder};

use crate::given::ClientOrder;
use crate::limits::MAX_LINE;
use arb_core::order_cases;
use arb_model::{ClientId, Order};
use arb_share::{LEVELS, MAX_ENTRY, Request};

/// Whether a digit stands before a byte, or two digits of which the first isn't 0. It has no branch, since either is usual.
#[inline(always)]
fn is_small(first: u8, second: u8, third: u8, behind: u8) -> bool
    ensures { IsTrue result ↔ ((first < 10) × ((second ≡ behind) ⊎ ((first ≢ 0) × ((48 ≤ second) × ((second < 58) × (third ≡ behind)))))) }
{
    let is_long = (first != 0) & (second >= b'0') & (second <= b'9') & (third == behind);
    (first < 10) & ((second == behind) | is_long)
}

/// The number of one digit or two at the front of a text, where a given byte stands behind it, and what follows that.
#[inline(always)]
fn usual_small(text: &[u8], behind: u8) -> Option<(u8, &[u8])>
    ensures { IfSome result (λ r. BeginsWithNumber 99 text.now r.0 behind r.1.now) }
{
    let [first, second, third, ..] = text else {
        return None;
    };
    let (first, second, third) = (first.wrapping_sub(b'0'), *second, *third);
    if !is_small(first, second, third, behind) {
        return None;
    }
    if second == behind {
        Some((first, &text[2..]))
    } else {
        Some((10 * first + (second - b'0'), &text[3..]))
    }
}

/// Behind a number up to this, a digit more makes no number that is too large.
const MOST_BEFORE: u64 = (u64::MAX - 9) / 10;

/// The moment at the front of a text, where LF stands behind it, and what follows that. A moment near the largest is left out.
fn usual_moment(text: &[u8]) -> Option<(u64, &[u8])>
    ensures { IfSome result (λ r. BeginsWithNumber u64.MAX text.now r.0 line_feed r.1.now) }
{
    let mut value = 0;
    for index in 0..text.len() {
        let byte = text[index];
        if byte == b'\n' {
            if index == 0 || (index > 1 && text[0] == b'0') {
                return None;
            }
            return Some((value, &text[index + 1..]));
        }
        if !byte.is_ascii_digit() || value > MOST_BEFORE {
            return None;
        }
        value = 10 * value + u64::from(byte - b'0');
    }
    None
}

/// The entry of one digit to three at the front of a text, the byte behind it, and what follows that.
#[inline(always)]
fn usual_entry(text: &[u8]) -> Option<(u8, u8, &[u8])>
    ensures number { IfSome result (λ r. BeginsWithNumber max_entry_word text.now r.0 r.1 r.2.now) }
    ensures within { IfSome result (λ r. r.0 ≤ max_entry) }
{
    match text {
        [ones, behind, after @ ..] if ones.is_ascii_digit() && !behind.is_ascii_digit() => {
            Some((*ones - b'0', *behind, after))
        }
        [tens, ones, behind, after @ ..]
            if (b'1'..=b'9').contains(tens) && ones.is_ascii_digit() && !behind.is_ascii_digit() =>
            { Some((10 * (*tens - b'0') + (*ones - b'0'), *behind, after)) }
        [b'1', tens, ones, behind, after @ ..]
            if (b'0'..=b'2').contains(tens) && ones.is_ascii_digit() => {
            let value = 100 + 10 * (*tens - b'0') + (*ones - b'0');
            if value > MAX_ENTRY {
                return None;
            }
            Some((value, *behind, after))
        }
        _ => None,
    }
}

/// The request of the entries at the front of a text, one space between them and LF behind, and how many bytes all are.
#[inline(always)]
fn usual_entries(text: &[u8]) -> Option<(Request, usize)>
    ensures entries { IfSome result (λ r. AreEntries text.now r.0 (drop r.1 text.now)) }
    ensures within { IfSome result (λ r. r.1 ≤ length text.now) }
{
    let mut entries = [0; LEVELS];
    let mut rest = text;
    for level in 0..LEVELS {
        let (value, behind, after) = usual_entry(rest)?;
        entries[level] = value;
        if behind == b'\n' {
            return Some((Request::new(entries).ok()?, text.len() - after.len()));
        }
        if behind != b' ' {
            return None;
        }
        rest = after;
    }
    None
}

/// What follows a word at the front of a text. Where the word is known to the compiler it lays the loop out, one comparison for each
/// byte, and the first byte alone tells most words apart.
#[inline(always)]
fn skip<'a>(text: &'a [u8], word: &[u8]) -> Option<&'a [u8]>
    ensures { IfSome result (λ rest. text.now ≡ word.now ++ rest.now) }
{
    if text.len() < word.len() {
        return None;
    }
    for index in 0..word.len() {
        if text[index] != word[index] {
            return None;
        }
    }
    Some(&text[word.len()..])
}

/// The thread of an application at the front of a text, where a space stands behind it, and how many bytes both are.
#[inline(always)]
fn usual_thread(text: &[u8]) -> Option<(ClientId, usize)>
    ensures client { IfSome result (λ r. BeginsWithClient text.now r.0 (drop r.1 text.now)) }
    ensures within { IfSome result (λ r. r.1 ≤ length text.now) }
{
    let (app, behind) = usual_small(text, b'.')?;
    let (thread, after) = usual_small(behind, b' ')?;
    Some((ClientId::app(app, thread)?, text.len() - after.len()))
}

/// The client at the front of a text, where a space stands behind it, and how many bytes both are.
#[inline(always)]
fn usual_client(text: &[u8]) -> Option<(ClientId, usize)>
    ensures client { IfSome result (λ r. BeginsWithClient text.now r.0 (drop r.1 text.now)) }
    ensures within { IfSome result (λ r. r.1 ≤ length text.now) }
{
    if let Some(after) = skip(text, b"clock ") {
        return Some((ClientId::clock(), text.len() - after.len()));
    }
    usual_thread(text)
}

/// The cap at the front of a text, where LF stands behind it, and what follows that.
#[inline(always)]
fn usual_cap(text: &[u8]) -> Option<(u8, &[u8])>
    ensures { IfSome result (λ r. BeginsWithNumber max_entry_word text.now r.0 line_feed r.1.now) }
{
    let (cap, behind, after) = usual_entry(text)?;
    (behind == b'\n').then_some((cap, after))
}

/// Reads what an order takes from behind its word, by what the table of orders says that it carries.
macro_rules! usual_carried {
    ($text:ident $name:ident $rest:ident) => {{
        let after = skip($rest, b"\n")?;
        return Some((Order::$name, $text.len() - after.len()));
    }};
    ($text:ident $name:ident $rest:ident request) => {{
        let entries = skip($rest, b" ")?;
        let (request, used) = usual_entries(entries)?;
        return Some((Order::$name(request), $text.len() - entries.len() + used));
    }};
    ($text:ident $name:ident $rest:ident cap) => {{
        let (cap, after) = usual_cap(skip($rest, b" ")?)?;
        return Some((Order::$name(cap), $text.len() - after.len()));
    }};
    ($text:ident $name:ident $rest:ident moment) => {{
        let (moment, after) = usual_moment(skip($rest, b" ")?)?;
        return Some((Order::$name(moment), $text.len() - after.len()));
    }};
}

/// For each row of the table of orders, the order of its word.
macro_rules! usual_arms {
    (($text:ident) $({ $name:ident, $word:literal, [$($field:ident)?], $who:ident, $joined:ident, $change:ident })*) => {
        $(if let Some(rest) = skip($text, $word.as_bytes()) {
            usual_carried!($text $name rest $($field)?);
        })*
    };
}

/// The longest word of an order, with the byte behind it.
const LONGEST_WORD: usize = 7;

/// The order at the front of a text, where LF stands behind it, and how many bytes the order and LF are.
#[inline(always)]
fn usual_order(text: &[u8]) -> Option<(Order, usize)>
    ensures order { IfSome result (λ r. BeginsWithOrder text.now r.0 (drop r.1 text.now)) }
    ensures within { IfSome result (λ r. r.1 ≤ length text.now) }
{
    // from here on no word is longer than the text
    if text.len() < LONGEST_WORD {
        return None;
    }
    order_cases!(usual_arms!(text));
    None
}

/// The order of a client that a usual line at the front of a text gives, and how many bytes the line is, with its LF.
/// `None` says nothing of the line: [`read_line`](crate::read_line) reads it.
///
/// ```
/// assert!(usual_line(b"0.0 join\n0.1 join\n").is_some_and(|(_, used)| used == 9));
/// ```
#[inline(always)]
pub fn usual_line(text: &[u8]) -> Option<(ClientOrder, usize)>
    ensures line { IfSome result (λ r. BeginsWithGiven text.now r.0 (drop r.1 text.now)) }
    ensures some { IfSome result (λ r. 0 < r.1) }
    ensures within { IfSome result (λ r. r.1 ≤ length text.now) }
{
    let (client, first) = usual_client(text)?;
    let (order, rest) = usual_order(&text[first..])?;
    let used = first + rest;
    if used > MAX_LINE {
        return None;
    }
    Some((ClientOrder { client, order }, used))
}
