//! An input, read to its end.

ghost use Rattle.std.specs.Prelude.{◌≡◌, ◌≢◌, ◌⊎◌, ℕ, ◌<◌, ◌≤◌, ◌+◌, List, Option, length, IfOk, IfErr, IfSome, IsErrOf};
ghost use Rattle.std.specs.Str.{IsUtf8};
ghost use Rattle.std.specs.String.{string_bytes};
ghost use Rattle.std.specs.Io.KnownBytes.{Consumes, IsAtEnd};
ghost use Rattle.arb_share.specs.Streams.{ConsumesUpTo};
ghost use Rattle.arb_script.specs.Input.{IsUnfit};

use arb_share::Source;
use arb_share::streams::fill;
use std::alloc::Global;
use std::error::Error;
use std::fmt;

/// Why an input was not read.
#[derive(Clone, Copy, Debug, PartialEq, Eq)]
pub enum ReadFault {
    /// A call of the reader failed.
    Read,
    /// The input has more bytes than it may have.
    TooLong,
    /// The input isn't UTF-8.
    NotText,
    /// An allocation failed.
    Memory,
}

impl fmt::Display for ReadFault {
    ghost use Rattle.std.specs.Prelude.{Some};
    ghost use Rattle.arb_script.specs.FaultText.{read_fault_text};

    ghost output = { λ fault. Some (read_fault_text fault) };

    fn fmt<W: fmt::Write>(&self, f: &mut fmt::Formatter<W>) -> fmt::Result {
        match self {
            ReadFault::Read => write!(f, "read fault"),
            ReadFault::TooLong => write!(f, "input too long"),
            ReadFault::NotText => write!(f, "input is not UTF-8"),
            ReadFault::Memory => write!(f, "out of memory"),
        }
    }
}

impl Error for ReadFault {}

/// How many bytes are read at a time.
const CHUNK_BYTES: usize = 32_768;

/// All bytes that are left, where they are at most `limit`.
fn read_bytes<R: Source>(alloc: Global, reader: &mut R, limit: usize) -> Result<Vec<u8>, ReadFault>
    ensures all { IfOk result (λ bytes. IfSome (R.remaining reader.old) (λ input. (bytes.items ≡ input) × (length input ≤ limit))) }
    ensures refused { IfErr result (λ fault. IfSome (R.remaining reader.old) (IsUnfit limit fault)) }
    ensures text { ¬ IsErrOf result ReadFault.NotText }
    ensures taken { ConsumesUpTo (limit + 1) (R.remaining reader.old) (R.remaining reader.new) }
    ensures read { IsErrOf result ReadFault.Read → R.failures reader.new ≢ R.failures reader.old }
    ensures kept { IsErrOf result ReadFault.Read ⊎ (R.failures reader.new ≡ R.failures reader.old) }
{
    let mut bytes = Vec::new(alloc);
    let mut chunk = [0; CHUNK_BYTES];
    while bytes.len() <= limit {
        // one byte more than the limit tells that the input is too long
        let most = (limit - bytes.len()).min(CHUNK_BYTES - 1) + 1;
        let Ok(length) = fill(reader, &mut chunk[..most]) else {
            return Err(ReadFault::Read);
        };
        if bytes.extend_from_slice(&chunk[..length]).is_err() {
            return Err(ReadFault::Memory);
        }
        if length < most {
            return Ok(bytes);
        }
    }
    Err(ReadFault::TooLong)
}

/// All that is left of an input, as text, where it has at most `limit` bytes. The reader is read until one byte past
/// the limit at most.
///
/// # Errors
/// [`ReadFault`] says why: a call of the reader failed, the input has more than `limit` bytes, it isn't UTF-8, or an
/// allocation failed.
///
/// ```
/// let mut source = Watched::new(b"0.0 join\n".as_slice());
/// let text = read_text(alloc, &mut source, 100)?;
/// ```
pub fn read_text<R: Source>(
    alloc: Global,
    reader: &mut R,
    limit: usize,
) -> Result<String, ReadFault>
    // the text is all that was left
    ensures text { IfOk result (λ text. IfSome (R.remaining reader.old) (λ input. (string_bytes text ≡ input) × (length input ≤ limit))) }

    // a fault is in the input, and an input that is too long or isn't text has no other answer than that, a failed
    // call or a failed allocation
    ensures refused { IfErr result (λ fault. IfSome (R.remaining reader.old) (IsUnfit limit fault)) }
    ensures too_long { IfSome (R.remaining reader.old) (λ input. limit < length input
        → IsErrOf result ReadFault.TooLong ⊎ (IsErrOf result ReadFault.Read ⊎ IsErrOf result ReadFault.Memory)) }
    ensures not_text { IfSome (R.remaining reader.old) (λ input. length input ≤ limit → ¬ IsUtf8 input
        → IsErrOf result ReadFault.NotText ⊎ (IsErrOf result ReadFault.Read ⊎ IsErrOf result ReadFault.Memory)) }
    ensures taken { ConsumesUpTo (limit + 1) (R.remaining reader.old) (R.remaining reader.new) }

    // a fault of reading comes where a call of this reading failed, and only there
    ensures read { IsErrOf result ReadFault.Read → R.failures reader.new ≢ R.failures reader.old }
    ensures read_else { IsErrOf result ReadFault.Read ⊎ (R.failures reader.new ≡ R.failures reader.old) }
{
    let bytes = read_bytes(alloc, reader, limit)?;
    match String::from_utf8(bytes) {
        Ok(text) => Ok(text),
        Err(_) => Err(ReadFault::NotText),
    }
}
