//! Reading a file whole, up to the limit of a script.

ghost use Rattle.std.specs.Prelude.{◌≡◌, ◌<◌, ◌≤◌, length, vec_len, Err, IfOk, IfSome};

use std::alloc::Global;
use std::io::{ErrorKind, Read};
use thiserror::Error;

/// The longest script, in bytes: 64 MiB.
pub const LONGEST_SCRIPT: usize = 64 * 1024 * 1024;

/// Why a file was not read.
#[derive(Clone, Copy, Debug, PartialEq, Eq, Error)]
pub enum ReadError {
    /// A read failed.
    #[error("cannot read")]
    CannotRead,
    /// The file has more than `LONGEST_SCRIPT` bytes.
    #[error("file too long")]
    TooLong,
    /// There was no memory for its bytes.
    #[error("no memory")]
    NoMemory,
}

/// Reads all that the reader has left, which may be at most `LONGEST_SCRIPT` bytes.
///
/// At most one byte more is taken from the reader, and no error hands out a part of what was read.
pub fn read_whole<R: Read>(alloc: Global, reader: &mut R) -> Result<Vec<u8>, ReadError>
    ensures short { IfOk result (λ bytes. vec_len bytes ≤ LONGEST_SCRIPT) }
    ensures whole { IfOk result (λ bytes.
        IfSome (R.remaining reader.old) (λ left. bytes.items ≡ left)) }
    ensures too_long { result ≡ Err ReadError.TooLong
        → IfSome (R.remaining reader.old) (λ left. LONGEST_SCRIPT < length left) }
{
    let mut bytes = Vec::new(alloc);
    let mut limited = reader.take(LONGEST_SCRIPT as u64 + 1);
    match limited.read_to_end(&mut bytes) {
        Ok(_) if bytes.len() > LONGEST_SCRIPT => Err(ReadError::TooLong),
        Ok(_) => Ok(bytes),
        Err(error) if error.kind() == ErrorKind::OutOfMemory => Err(ReadError::NoMemory),
        Err(_) => Err(ReadError::CannotRead),
    }
}
