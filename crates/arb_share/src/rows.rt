//! Request rows: an application and what it wants, one to a line.

ghost use Rattle.std.specs.Prelude.{◌≡◌, ℕ, ◌+◌, ◌-◌, ◌<◌, ◌≤◌, Some, None, length, slice_index, MatchResult, MatchOption, IfOk, IfErr};
ghost use Rattle.arb_share.specs.Limits.{applications, levels, max_entry, max_entry_word};
ghost use Rattle.arb_share.specs.Text.{words_of, number_of};
ghost use Rattle.arb_share.specs.Rows.{entry_fault, entries_fault, entries_written, nothing, row, wrong, said_of, said_of_row, said_in, AreRows, IsFirstFault};

use crate::limits::{APPLICATIONS, LEVELS, MAX_ENTRY, MAX_ENTRY_WORD};
use crate::request::Request;
use crate::text::{number, split_line, split_word};
use std::error::Error;

/// What is wrong with a line.
#[derive(Clone, Copy, Debug, PartialEq, Eq)]
pub enum RowKind {
    /// Its first word isn't the number of an application, which is below [`APPLICATIONS`].
    BadApp,
    /// It has no entry, or more than [`LEVELS`] entries.
    EntryCount,
    /// An entry isn't a number from 0 to [`MAX_ENTRY_WORD`].
    BadNumber,
    /// The entry at `level` is `value`, which is above [`MAX_ENTRY`].
    Above { level: u8, value: u8 },
    /// Its application stands in an earlier line.
    AppTwice,
}

/// A faulty line, counted from 1.
#[derive(Clone, Copy, Debug, PartialEq, Eq)]
pub struct RowFault {
    /// The line's number; skipped lines count too.
    pub line: usize,
    /// What is wrong with it.
    pub kind: RowKind,
}

impl Error for RowFault {}

/// The row of an application.
struct Row {
    app: u8,
    request: Request,
}

/// The entry that a word gives at a level.
fn read_entry(level: u8, word: &[u8]) -> Result<u8, RowKind>
    ensures { MatchResult result
        (λ entry. (entry_fault level word.now ≡ None) × (number_of max_entry_word word.now ≡ Some entry) × (entry ≤ max_entry))
        (λ kind. entry_fault level word.now ≡ Some kind) }
{
    match number(word, MAX_ENTRY_WORD) {
        None => Err(RowKind::BadNumber),
        Some(value) if value > MAX_ENTRY as u64 => Err(RowKind::Above {
            level,
            value: value as u8,
        }),
        Some(value) => Ok(value as u8),
    }
}

/// How many words a line has.
fn count_words(line: &[u8]) -> usize
    ensures { result ≡ length (words_of line.now) }
{
    let mut count = 0;
    let mut rest = line;
    while let Some((_, after)) = split_word(rest) {
        count += 1;
        rest = after;
    }
    count
}

/// The entries that the words of a line give, from left to right.
fn read_entries(line: &[u8]) -> Result<[u8; LEVELS], RowKind>
    requires { length (words_of line.now) ≤ levels }
    ensures { MatchResult result
        (λ entries. (entries_fault 0 (words_of line.now) ≡ None) × (entries ≡ entries_written (words_of line.now))
        × ((level : ℕ) → slice_index entries level ≤ max_entry))
        (λ kind. entries_fault 0 (words_of line.now) ≡ Some kind) }
{
    let mut entries = [0; LEVELS];
    let mut level = 0;
    let mut rest = line;
    while let Some((word, after)) = split_word(rest) {
        entries[level] = read_entry(level as u8, word)?;
        level += 1;
        rest = after;
    }
    Ok(entries)
}

/// The request that the words of a line give: one to eight entries, for the levels 0, 1 and so on; missing entries
/// are 0.
///
/// # Errors
/// [`RowKind::EntryCount`], or the first fault of an entry.
pub fn read_request(line: &[u8]) -> Result<Request, RowKind>
    ensures { MatchResult result
        (λ request. (app : ℕ) → said_of_row (Some app) (words_of line.now) ≡ row app request)
        (λ kind. (app : ℕ) → said_of_row (Some app) (words_of line.now) ≡ wrong kind) }
{
    let count = count_words(line);
    if count == 0 || count > LEVELS {
        return Err(RowKind::EntryCount);
    }
    let entries = read_entries(line)?;
    Ok(Request::new(entries).unwrap())
}

/// What a line says: it is skipped, or it is the row of an application.
fn read_line(line: &[u8]) -> Result<Option<Row>, RowKind>
    ensures { MatchResult result
        (λ found. MatchOption found (said_of (words_of line.now) ≡ nothing)
        (λ r. (said_of (words_of line.now) ≡ row r.app r.request) × (r.app < applications)))
        (λ kind. said_of (words_of line.now) ≡ wrong kind) }
{
    let Some((first, rest)) = split_word(line) else {
        return Ok(None);
    };
    if first[0] == b'#' {
        return Ok(None);
    }
    let Some(app) = number(first, APPLICATIONS as u64 - 1) else {
        return Err(RowKind::BadApp);
    };
    let request = read_request(rest)?;
    Ok(Some(Row {
        app: app as u8,
        request,
    }))
}

/// The requests of the sixteen applications, as the rows of a text state them; `None` for one without a row. A line is
/// cut into words at spaces, tabs and CRs. A line without a word, or whose first word begins with `#`, is skipped.
///
/// Every other line is a row: an application, 0 to 15, and one to eight entries, for the levels 0, 1 and so on. Missing
/// entries are 0. Numbers are decimal, without a sign or a leading zero.
///
/// # Errors
/// [`RowFault`] names the first faulty line and its first fault.
pub fn rows_of(input: &[u8]) -> Result<[Option<Request>; APPLICATIONS], RowFault>
    ensures rows { IfOk result (AreRows (said_in input.now)) }
    ensures fault { IfErr result (IsFirstFault (said_in input.now)) }
{
    let mut rows = [None; APPLICATIONS];
    let mut line_number = 0;
    let mut rest = input;
    while !rest.is_empty() {
        let (line, after) = split_line(rest);
        line_number += 1;
        match read_line(line) {
            Ok(None) => {}
            Ok(Some(Row { app, request })) => {
                if rows[app as usize].is_some() {
                    return Err(RowFault {
                        line: line_number,
                        kind: RowKind::AppTwice,
                    });
                }
                rows[app as usize] = Some(request);
            }
            Err(kind) => {
                return Err(RowFault {
                    line: line_number,
                    kind,
                });
            }
        }
        rest = after;
    }
    Ok(rows)
}
