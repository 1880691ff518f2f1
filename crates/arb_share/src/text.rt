//! Lines, words and numbers of a text of bytes.

ghost use Rattle.std.specs.Prelude.{◌≡◌, ◌<◌, ◌≤◌, ◌+◌, ◌==◌, [], ◌∷◌, not, nat_le, if◌then◌else◌, length, None, Some, IfSome, MatchOption};
ghost use Rattle.std.specs.List.{list_all, position_or_len};
ghost use Rattle.std.specs.Char.{is_ascii_digit};
ghost use Rattle.arb_share.specs.Text.{lines_of, words_of, is_separator, has_leading_zero, is_number, number_of};

/// How many bytes stand before the first one that is `end`; all of them where none is.
pub fn len_before(bytes: &[u8], end: u8) -> usize
    ensures index { result ≡ position_or_len (λ byte. byte == end) bytes.now }
    ensures within { result ≤ length bytes.now }
{
    bytes
        .iter()
        .position(|byte| *byte == end)
        .unwrap_or(bytes.len())
}

/// The first line of a text, without its LF, and what follows it. The text isn't empty.
pub fn split_line(text: &[u8]) -> (&[u8], &[u8])
    requires { 0 < length text.now }
    ensures lines { lines_of text.now ≡ result.0.now ∷ lines_of result.1.now }
    ensures shorter { length result.1.now < length text.now }
{
    let (line, rest) = text.split_at(len_before(text, b'\n'));
    match rest {
        [] => (line, rest),
        [_, after @ ..] => (line, after),
    }
}

fn is_separator(byte: u8) -> bool
    ensures { result ≡ is_separator byte }
{
    byte == b' ' || byte == b'\t' || byte == b'\r'
}

/// How many separators stand before the first word.
fn separators_len(line: &[u8]) -> usize
    ensures index { result ≡ position_or_len (λ byte. not (is_separator byte)) line.now }
    ensures within { result ≤ length line.now }
{
    line.iter()
        .position(|byte| !is_separator(*byte))
        .unwrap_or(line.len())
}

/// How many bytes stand before the first separator.
fn word_len(line: &[u8]) -> usize
    ensures index { result ≡ position_or_len is_separator line.now }
    ensures within { result ≤ length line.now }
{
    line.iter()
        .position(|byte| is_separator(*byte))
        .unwrap_or(line.len())
}

/// The first word of a line, and what follows it; `None` where the line has no word.
pub fn split_word(line: &[u8]) -> Option<(&[u8], &[u8])>
    ensures words { MatchOption result (words_of line.now ≡ [])
        (λ split. words_of line.now ≡ split.0.now ∷ words_of split.1.now) }
    ensures within { IfSome result (λ split. length split.0.now + length split.1.now ≤ length line.now) }
    ensures word { IfSome result (λ split. 0 < length split.0.now) }
{
    let (_, rest) = line.split_at(separators_len(line));
    if rest.is_empty() {
        return None;
    }
    Some(rest.split_at(word_len(rest)))
}

fn has_digits_alone(word: &[u8]) -> bool
    ensures { result ≡ list_all is_ascii_digit word.now }
{
    word.iter().all(|byte| byte.is_ascii_digit())
}

fn has_leading_zero(word: &[u8]) -> bool
    ensures { result ≡ has_leading_zero word.now }
{
    word.len() > 1 && word[0] == b'0'
}

fn is_number(word: &[u8]) -> bool
    ensures { result ≡ is_number word.now }
{
    has_digits_alone(word) && !word.is_empty() && !has_leading_zero(word)
}

/// A number, where it is at most `most`.
fn at_most(value: u64, most: u64) -> Option<u64>
    ensures { result ≡ if nat_le value most then Some value else None }
{
    if value <= most { Some(value) } else { None }
}

/// The number that a word of any length writes.
fn parse(word: &[u8], most: u64) -> Option<u64>
    ensures { result ≡ number_of most word.now }
{
    if !is_number(word) {
        return None;
    }
    let Ok(text) = str::from_utf8(word) else {
        return None;
    };
    let Ok(value) = text.parse::<u64>() else {
        return None;
    };
    at_most(value, most)
}

/// The number that a word writes, or `None` where it writes none up to `most`. A number is decimal digits alone, without a
/// leading zero. Most words have one digit or two, which are read at once.
pub fn number(word: &[u8], most: u64) -> Option<u64>
    ensures { result ≡ number_of most word.now }
{
    match word {
        [ones] if ones.is_ascii_digit() => at_most(u64::from(*ones - b'0'), most),
        [tens, ones] if (b'1'..=b'9').contains(tens) && ones.is_ascii_digit() => {
            at_most(10 * u64::from(*tens - b'0') + u64::from(*ones - b'0'), most)
        }
        _ => parse(word, most),
    }
}
