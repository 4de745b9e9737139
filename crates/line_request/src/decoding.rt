//! Bytes in hexadecimal, as the words of their envelope.

ghost use Rattle.std.specs.Prelude.{◌≡◌, Bool, IfOk, IfSome, false, option_map, string_bytes};
ghost use Rattle.line_request.specs.Lines.{IsRead};
ghost use Rattle.line_script.specs.Script.{Bytes};
ghost use Rattle.line_request.specs.TranslatedLines.{line_of_words};
ghost use Rattle.line_request.specs.Translations.{EncodesBack, IsDecoded, IsTranslated};

use crate::faults::line_of_fault;
use line_script::{bytes_of, push_name, push_slices, push_statement};
use scp_codec::{CodecError, decode};
use scp_types::Envelope;
use std::alloc::{AllocError, Global};

/// What bytes are, as it is printed.
#[derive(Drop)]
pub struct Decoded {
    /// The line of the envelope in words, or that of the fault.
    pub line: String,
    /// Whether they have a fault.
    pub is_fault: bool,
}

/// The line of the envelope that bytes spell, in the four words of scripts: its sender, its slot, its slices and its
/// statement. If they spell none, it is that of their fault. The bytes are lower-case hexadecimal digits, or `-` for
/// none, and `None` is answered to any other word. An error says that it is out of memory.
pub fn decode_digits(alloc: Global, digits: &[u8]) -> Result<Option<Decoded>, AllocError>
    ensures decoded { IfOk result (λ o. IsRead (λ (d : Bool × Bytes). IsDecoded digits.now d.0 d.1) (option_map (λ d. (d.is_fault, string_bytes d.line)) o)) }
    ensures back { IfOk result (λ o. IfSome o (λ d. d.is_fault ≡ false → EncodesBack digits.now (string_bytes d.line))) }
{
    let Some(bytes) = bytes_of(alloc, digits)? else {
        return Ok(None);
    };
    let decoded = told_of(alloc, bytes.as_slice());
    drop(bytes);
    Ok(Some(decoded?))
}

fn told_of(alloc: Global, bytes: &[u8]) -> Result<Decoded, AllocError>
    ensures { IfOk result (λ d. IsTranslated bytes.now d.is_fault (string_bytes d.line)) }
{
    match decode(alloc, bytes) {
        Ok(envelope) => {
            let line = line_of_words(alloc, &envelope);
            drop(envelope);
            Ok(Decoded {
                line: line?,
                is_fault: false,
            })
        }
        Err(CodecError::Fault(fault)) => Ok(Decoded {
            line: line_of_fault(alloc, fault)?,
            is_fault: true,
        }),
        // Memory: the decoder has none.
        Err(CodecError::NoMemory) => Err(AllocError),
    }
}

fn line_of_words(alloc: Global, envelope: &Envelope) -> Result<String, AllocError>
    ensures { IfOk result (λ line. string_bytes line ≡ line_of_words envelope.now) }
{
    let mut line = String::new(alloc);
    push_name(&mut line, envelope.sender())?;
    let slot = envelope.slot();
    write!(line, " {slot} ")?;
    push_slices(&mut line, envelope.slices())?;
    line.push(' ')?;
    push_statement(&mut line, envelope.body())?;
    line.push('\n')?;
    Ok(line)
}
