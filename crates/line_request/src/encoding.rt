//! Envelopes in words, as bytes.

ghost use Rattle.std.specs.Prelude.{◌≡◌, IfOk, IfSome, option_map, string_bytes};
ghost use Rattle.hex.specs.Hex.{IsBytes};
ghost use Rattle.line_request.specs.Lines.{AreSaid, IsRead};
ghost use Rattle.line_request.specs.TranslatedLines.{line_of_bytes};
ghost use Rattle.line_request.specs.Saying.{delivered_by};
ghost use Rattle.line_request.specs.Translations.{DecodesBack, IsEncoded};

use crate::{Request, asked_by};
use scp_types::{Bytes, Event};
use std::alloc::{AllocError, Global};

/// The line of the bytes of the envelope that four words spell, in lower-case hexadecimal. The words are its sender,
/// slot, slices and statement, as in a `say` line of scripts, which delivers these bytes. `None` if they spell no
/// envelope. An error says that it is out of memory.
pub fn encode_words(
    alloc: Global,
    from: &[u8],
    slot: &[u8],
    slices: &[u8],
    statement: &[u8],
) -> Result<Option<String>, AllocError>
    ensures encoded { IfOk result (λ o. IsRead (IsEncoded from.now slot.now slices.now statement.now) (option_map string_bytes o)) }
    ensures back { IfOk result (λ o. IfSome o (λ line. DecodesBack from.now slot.now slices.now statement.now (string_bytes line))) }
{
    match bytes_said(alloc, from, slot, slices, statement)? {
        Some(bytes) => {
            let line = line_of_bytes(alloc, bytes.as_slice());
            drop(bytes);
            Ok(Some(line?))
        }
        None => Ok(None),
    }
}

fn line_of_bytes(alloc: Global, bytes: &[u8]) -> Result<String, AllocError>
    ensures line { IfOk result (λ line. string_bytes line ≡ line_of_bytes bytes.now) }
    ensures bytes { IsBytes bytes.now }
{
    let mut line = hex::encode(alloc, bytes)?;
    line.push('\n')?;
    Ok(line)
}

/// The bytes that a `say` line with these words delivers, whichever network and node it names.
fn bytes_said(
    alloc: Global,
    from: &[u8],
    slot: &[u8],
    slices: &[u8],
    statement: &[u8],
) -> Result<Option<Bytes>, AllocError>
    ensures { IfOk result (IsRead (λ bytes. AreSaid bytes from.now slot.now slices.now statement.now)) }
{
    let fields: [&[u8]; 7] = [b"say", b"0", b"A", from, slot, slices, statement];
    match asked_by(alloc, &fields)? {
        Some((_, request)) => Ok(delivered_by(request)),
        None => Ok(None),
    }
}

fn delivered_by(request: Request) -> Option<Bytes>
    ensures { result ≡ delivered_by request }
{
    match request {
        Request::Apply(Event::Deliver { node: _, bytes }) => Some(bytes),
        _ => None,
    }
}
