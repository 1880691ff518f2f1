//! One line of a script: a client, an order, and what the order takes.

ghost use Rattle.std.specs.Prelude.{◌≡◌, ◌≢◌, ◌≤◌, ◌-◌, ◌∷◌, IfErr, IfOk, MatchResult, MatchOption};
ghost use Rattle.arb_share.specs.Limits.{applications};
ghost use Rattle.arb_share.specs.Text.{words_of, number_of};
ghost use Rattle.arb_model.specs.Limits.{threads};
ghost use Rattle.arb_script.specs.Script.{none_of, entries_in, number_in, thread_of, client_of, order_of, said_by, said_of, nothing, gives, wrong};

use crate::fault::ScriptKind;
use crate::given::ClientOrder;
use crate::limits::{MAX_CAP_WORD, MAX_LINE};
use arb_core::order_cases;
use arb_model::{APPLICATIONS, ClientId, Order, THREADS};
use arb_share::Request;
use arb_share::rows::{RowKind, read_request};
use arb_share::text::{len_before, number, split_word};

/// The thread of an application's number and its number there.
fn read_thread(app: &[u8], thread: &[u8]) -> Option<ClientId>
    ensures { result ≡ thread_of (number_of (applications - 1) app.now) (number_of (threads - 1) thread.now) }
{
    let app = number(app, APPLICATIONS as u64 - 1)?;
    let thread = number(thread, THREADS as u64 - 1)?;
    ClientId::app(app as u8, thread as u8)
}

/// The client that a word names: `clock`, or an application and a thread of it with one dot between them.
fn read_client(word: &[u8]) -> Option<ClientId>
    ensures { result ≡ client_of word.now }
{
    if word == b"clock".as_slice() {
        return Some(ClientId::clock());
    }
    let (app, rest) = word.split_at(len_before(word, b'.'));
    match rest {
        [] => None,
        [_, thread @ ..] => read_thread(app, thread),
    }
}

/// An order that takes no word more.
fn read_alone(order: Order, words: &[u8]) -> Result<Order, ScriptKind>
    ensures order { result ≡ none_of order (words_of words.now) }
    ensures no_memory { IfErr result (λ kind. kind ≢ ScriptKind.Memory) }
{
    match split_word(words) {
        None => Ok(order),
        Some(_) => Err(ScriptKind::WordCount),
    }
}

/// The number that is the one word of a line, at most `most`.
fn read_number(words: &[u8], most: u64) -> Result<u64, ScriptKind>
    ensures number { result ≡ number_in most (words_of words.now) }
    ensures within { IfOk result (λ number. number ≤ most) }
    ensures no_memory { IfErr result (λ kind. kind ≢ ScriptKind.Memory) }
{
    let Some((word, rest)) = split_word(words) else {
        return Err(ScriptKind::WordCount);
    };
    if split_word(rest).is_some() {
        return Err(ScriptKind::WordCount);
    }
    number(word, most).ok_or(ScriptKind::BadNumber)
}

/// The fault of a script's line for that of the entries in a request row.
fn entries_fault_kind(kind: RowKind) -> ScriptKind
    ensures count { kind ≡ RowKind.EntryCount → result ≡ ScriptKind.WordCount }
    ensures number { kind ≢ RowKind.EntryCount → result ≡ ScriptKind.BadNumber }
    ensures no_memory { result ≢ ScriptKind.Memory }
{
    match kind {
        RowKind::EntryCount => ScriptKind::WordCount,
        _ => ScriptKind::BadNumber,
    }
}

/// The request that the words of a line give, one entry each.
fn read_entries(words: &[u8]) -> Result<Request, ScriptKind>
    ensures request { result ≡ entries_in (words_of words.now) }
    ensures no_memory { IfErr result (λ kind. kind ≢ ScriptKind.Memory) }
{
    match read_request(words) {
        Ok(request) => Ok(request),
        Err(kind) => Err(entries_fault_kind(kind)),
    }
}

/// Reads what an order takes from the words after it, by what the table of orders says that it carries.
macro_rules! read_carried {
    ($name:ident $words:ident) => {
        read_alone(Order::$name, $words)
    };
    ($name:ident $words:ident request) => {
        Ok(Order::$name(read_entries($words)?))
    };
    ($name:ident $words:ident cap) => {
        Ok(Order::$name(read_number($words, MAX_CAP_WORD)? as u8))
    };
    ($name:ident $words:ident moment) => {
        Ok(Order::$name(read_number($words, u64::MAX)?))
    };
}

/// For each row of the table of orders, the order of its word.
macro_rules! word_arms {
    (($word:ident $words:ident) $({ $name:ident, $text:literal, [$($field:ident)?], $who:ident, $joined:ident, $change:ident })*) => {
        $(if $word == $text.as_bytes() {
            return read_carried!($name $words $($field)?);
        })*
    };
}

/// The order that a word names, with the words after it.
fn read_order(word: &[u8], words: &[u8]) -> Result<Order, ScriptKind>
    ensures order { result ≡ order_of word.now (words_of words.now) }
    ensures no_memory { IfErr result (λ kind. kind ≢ ScriptKind.Memory) }
{
    order_cases!(word_arms!(word words));
    Err(ScriptKind::UnknownOrder)
}

/// The order of a client that a line's words give, the first of them apart.
fn read_given(first: &[u8], words: &[u8]) -> Result<ClientOrder, ScriptKind>
    ensures said { MatchResult result
        (λ given. said_by (first.now ∷ words_of words.now) ≡ gives given)
        (λ kind. said_by (first.now ∷ words_of words.now) ≡ wrong kind) }
    ensures no_memory { IfErr result (λ kind. kind ≢ ScriptKind.Memory) }
{
    let client = read_client(first).ok_or(ScriptKind::BadClient)?;
    let (word, rest) = split_word(words).ok_or(ScriptKind::WordCount)?;
    let order = read_order(word, rest)?;
    Ok(ClientOrder { client, order })
}

/// What a line of a script says, given without its LF: it is skipped, or it gives an order of a client.
/// [`Script::from_text`](crate::Script::from_text) says which lines there are.
///
/// # Errors
/// The line's first fault, in the order of [`Script::from_text`](crate::Script::from_text). It is never
/// [`ScriptKind::Memory`].
pub fn read_line(line: &[u8]) -> Result<Option<ClientOrder>, ScriptKind>
    ensures said { MatchResult result
        (λ found. MatchOption found (said_of line.now ≡ nothing) (λ given. said_of line.now ≡ gives given))
        (λ kind. said_of line.now ≡ wrong kind) }
    ensures no_memory { IfErr result (λ kind. kind ≢ ScriptKind.Memory) }
{
    if line.len() > MAX_LINE {
        return Err(ScriptKind::LongLine);
    }
    let Some((first, words)) = split_word(line) else {
        return Ok(None);
    };
    if first[0] == b'#' {
        return Ok(None);
    }
    Ok(Some(read_given(first, words)?))
}
