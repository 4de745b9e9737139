//! Bytes as hexadecimal digits.

ghost use Rattle.std.specs.Prelude.{◌≡◌, ◌<◌, ◌++◌, ◌∷◌, [], IsTrue, IfOk, Ok, OnOk, length, slice_index, string_bytes, Some, option_map};
ghost use Rattle.line_script.specs.Names.{digits_bytes, octets_in};
ghost use Rattle.hex.specs.Hex.{decode_of, encode_lower, lower_digits};
ghost use Rattle.line_script.specs.Values.{is_lower_hex as lower_hex_test, is_plain};

use hex::FromHexError;
use std::alloc::{AllocError, Global};

/// The bytes that a word spells: lower-case hexadecimal digits, two for each byte, or `-` for no bytes. `None` for any
/// other word, also for an empty one.
pub fn bytes_of(alloc: Global, word: &[u8]) -> Result<Option<Vec<u8>>, AllocError>
    ensures { IfOk result (λ o. option_map (λ v. v.items) o ≡ octets_in word.now) }
{
    match word {
        [] => Ok(None),
        [b'-'] => Ok(Some(Vec::new(alloc))),
        _ => digits_of(alloc, word),
    }
}

/// The bytes that lower-case hexadecimal digits spell, of which there is an even number, or none. `None`
/// for any other word.
pub fn digits_of(alloc: Global, digits: &[u8]) -> Result<Option<Vec<u8>>, AllocError>
    ensures { IfOk result (λ o. option_map (λ v. v.items) o ≡ digits_bytes digits.now) }
{
    if !is_lower_hex(digits) {
        return Ok(None);
    }
    match hex::decode(alloc, digits) {
        Ok(bytes) => Ok(Some(bytes)),
        Err(FromHexError::OutOfMemory) => Err(AllocError),
        Err(_) => Ok(None),
    }
}

/// Whether there are only lower-case hexadecimal digits.
pub(crate) fn is_lower_hex(word: &[u8]) -> bool
    ensures { result ≡ lower_hex_test word.now }
{
    word.iter()
        .all(|byte| matches!(*byte, b'0'..=b'9' | b'a'..=b'f'))
}

/// Adds the bytes as lower-case hexadecimal digits.
pub(crate) fn push_hex(text: &mut String, bytes: &[u8]) -> Result<(), AllocError>
    ensures { OnOk result (string_bytes text.new ≡ string_bytes text.old ++ encode_lower bytes.now) }
{
    for byte in bytes {
        text.push(digit(*byte / 16))?;
        text.push(digit(*byte % 16))?;
    }
    Ok(())
}

/// A lower-case hexadecimal digit.
fn digit(value: u8) -> char
    requires { value < 16 }
    ensures digit { result ≡ slice_index lower_digits value }
    ensures ascii { result < 128 }
{
    if value < 10 {
        char::from(b'0' + value)
    } else {
        char::from(b'a' + (value - 10))
    }
}

/// Adds letters and digits as they are.
pub(crate) fn push_plain(text: &mut String, bytes: &[u8]) -> Result<(), AllocError>
    requires { IsTrue (is_plain bytes.now) }
    ensures { OnOk result (string_bytes text.new ≡ string_bytes text.old ++ bytes.now) }
{
    for byte in bytes {
        text.push(char::from(*byte))?;
    }
    Ok(())
}
