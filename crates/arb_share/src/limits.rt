//! The limits. Each stands once more in `specs/Limits.antt`: contracts cite that number, and bodies this one. So neither
//! can be changed alone.

/// How many applications share a machine; they are numbered from 0.
pub const APPLICATIONS: usize = 16;

/// At how many levels an application asks for cores; they are numbered from 0.
pub const LEVELS: usize = 8;

/// The most cores that a request may name at one level.
pub const MAX_ENTRY: u8 = 128;

/// The largest entry that is read as a number. An entry above [`MAX_ENTRY`] is refused by its value up to this one, and
/// as a bad number beyond it.
pub const MAX_ENTRY_WORD: u64 = 255;

/// The most bytes that an input of `due` may have.
pub const MAX_INPUT: usize = 4096;
