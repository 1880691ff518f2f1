//! The limits, each of which stands once more in `specs/Limits.antt`: the contracts cite that number and the bodies
//! this one, so neither can be changed alone.

/// The most bytes that a line of a script may have before its LF.
pub const MAX_LINE: usize = 200;

/// The largest number that a word of a script may write as a cap: a word beyond it is no number. The arbiter refuses
/// a cap that is too large itself.
pub const MAX_CAP_WORD: u64 = u8::MAX as u64;

/// The most bytes that a script may have.
pub const MAX_SCRIPT: usize = 16_777_216;
