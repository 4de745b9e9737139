//! Envelopes in words and as bytes.

ghost use Rattle.std.specs.Prelude.{◌≡◌, Err};
ghost use Rattle.scphost.specs.Printing.{HasAnswered};
ghost use Rattle.scphost.specs.Translating.{IsDecoding, IsEncoding, StopsDecoding, StopsEncoding};

use crate::outputs::Outputs;
use crate::perform::print_stop;
use crate::printing::print_answer;
use line_request::{Decoded, decode_digits, encode_words};
use line_run::Answer;
use line_script::{Stop, name_of, number_of, slices_of};
use scphost_words::{EncodeCall, Word};
use std::alloc::{AllocError, Global};
use std::io::Write;

/// Prints the bytes of the envelope that four words spell. Words that spell none cannot be read: it is said on
/// `outputs.err` which of them is wrong.
pub fn print_encoded<W: Write, E: Write>(
    alloc: Global,
    words: &EncodeCall,
    outputs: &mut Outputs<W, E>,
) -> Result<bool, Stop>
    ensures { HasAnswered (IsEncoding words.now) (StopsEncoding words.now) (W.contents outputs.old.out) (W.contents outputs.new.out) result }
{
    let from = bytes_of(&words.from);
    let slot = bytes_of(&words.slot);
    let slices = bytes_of(&words.slices);
    let statement = bytes_of(&words.statement);
    match encode_words(alloc, from, slot, slices, statement) {
        Ok(Some(text)) => {
            let answer = Answer {
                differs: false,
                text,
            };
            print_answer(&answer, outputs)
        }
        Ok(None) => {
            let (operand, word) = wrong_word(alloc, words);
            print_wrong_word(operand, word, &mut outputs.err)
        }
        Err(_) => print_stop(Stop::NoMemory, "", &mut outputs.err),
    }
}

/// Prints the words of the envelope that bytes in hexadecimal spell, or the fault of the bytes, and says whether they
/// have one. A word that is no such bytes cannot be read, which is said on `outputs.err`.
pub fn print_decoded<W: Write, E: Write>(
    alloc: Global,
    digits: &Word,
    outputs: &mut Outputs<W, E>,
) -> Result<bool, Stop>
    ensures { HasAnswered (IsDecoding digits.now) (StopsDecoding digits.now) (W.contents outputs.old.out) (W.contents outputs.new.out) result }
{
    match decode_digits(alloc, bytes_of(digits)) {
        Ok(Some(decoded)) => {
            let answer = answer_of(decoded);
            print_answer(&answer, outputs)
        }
        Ok(None) => print_wrong_word("<HEX>", digits.as_str(), &mut outputs.err),
        Err(_) => print_stop(Stop::NoMemory, "", &mut outputs.err),
    }
}

/// The answer that says what bytes are; a fault is told as a difference is.
fn answer_of(decoded: Decoded) -> Answer
    ensures { result ≡ record { differs = decoded.is_fault; text = decoded.line } }
{
    Answer {
        differs: decoded.is_fault,
        text: decoded.line,
    }
}

fn bytes_of(word: &Word) -> &[u8]
    ensures { result.now ≡ word.now }
{
    word.as_str().as_bytes()
}

/// Which of four words that spell no envelope is wrong, with the name of its operand. It is the first that does not
/// have its form, else the statement, which breaks a rule.
fn wrong_word<'a>(alloc: Global, words: &'a EncodeCall) -> (&'static str, &'a str) {
    if name_of(bytes_of(&words.from)).is_none() {
        return ("<FROM>", words.from.as_str());
    }
    if number_of(bytes_of(&words.slot)).is_none() {
        return ("<SLOT>", words.slot.as_str());
    }
    match slices_of(alloc, bytes_of(&words.slices)) {
        Ok(None) => ("<SLICES>", words.slices.as_str()),
        _ => ("<STATEMENT>", words.statement.as_str()),
    }
}

/// Says on `err` that a word is no such operand, and answers that it cannot be read.
fn print_wrong_word<E: Write>(operand: &str, word: &str, err: &mut E) -> Result<bool, Stop>
    ensures { result ≡ Err Stop.CannotRead }
{
    let _ = write!(
        err,
        "error: invalid value '{word}' for '{operand}'\n\nFor more information, try '--help'.\n"
    );
    Err(Stop::CannotRead)
}
