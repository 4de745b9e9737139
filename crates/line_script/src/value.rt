//! Values and ballots.

ghost use Rattle.std.specs.Prelude.{◌≡◌, ◌++◌, Ok, None, IfOk, OnOk, option_map, string_bytes};
ghost use Rattle.line_script.specs.Values.{ValuesReadBack, digits_value, text_of_value, value_in as bytes_value, word_value};
ghost use Rattle.line_script.specs.Words.{counter_and_rest, split_once, text_of_ballot, word_ballot};

use crate::hexadecimal::{is_lower_hex, push_hex, push_plain};
use crate::number::counter_of;
use crate::splitting::{is_plain, split_once};
use scp_types::{Ballot, MAX_VALUE_LENGTH, Value};
use std::alloc::{AllocError, Global};

/// The value that a word spells. One to 256 ASCII letters or digits stand for themselves, and `#` with two lower-case
/// hexadecimal digits a byte for any one to 256 bytes. `None` for any other word, for which no memory is asked.
pub fn value_of(alloc: Global, word: &[u8]) -> Result<Option<Value>, AllocError>
    ensures value { IfOk result (λ o. o ≡ word_value word.now) }
    // No memory is asked for what is no value.
    ensures none { word_value word.now ≡ None → result ≡ Ok None }
{
    match word {
        [b'#', digits @ ..] => value_of_digits(alloc, digits),
        _ if is_plain(word) => value_in(alloc, word),
        _ => Ok(None),
    }
}

/// The bytes as a value, if they are one to 256.
fn value_in(alloc: Global, bytes: &[u8]) -> Result<Option<Value>, AllocError>
    ensures value { IfOk result (λ o. o ≡ bytes_value bytes.now) }
    ensures none { bytes_value bytes.now ≡ None → result ≡ Ok None }
{
    if bytes.is_empty() || bytes.len() > MAX_VALUE_LENGTH {
        return Ok(None);
    }
    Ok(Some(Value::of(alloc, bytes)?))
}

/// The value that hexadecimal digits spell.
#[tactic(auto, using(crate::proofs::ValueLemmas::sized, crate::proofs::ValueLemmas::long_digits))]
fn value_of_digits(alloc: Global, digits: &[u8]) -> Result<Option<Value>, AllocError>
    ensures value { IfOk result (λ o. o ≡ digits_value digits.now) }
    ensures none { digits_value digits.now ≡ None → result ≡ Ok None }
{
    let length = digits.len() / 2;
    if length > MAX_VALUE_LENGTH || !is_lower_hex(digits) {
        return Ok(None);
    }
    let mut bytes = [0u8; MAX_VALUE_LENGTH];
    match hex::decode_to_slice(digits, &mut bytes[..length]) {
        Ok(()) => value_in(alloc, &bytes[..length]),
        Err(_) => Ok(None),
    }
}

/// The ballot that a word spells, as `9:m`: a counter, a colon and a value. `None` for any other word,
/// for which no memory is asked.
pub fn ballot_of(alloc: Global, word: &[u8]) -> Result<Option<Ballot>, AllocError>
    ensures ballot { IfOk result (λ o. o ≡ word_ballot word.now) }
    ensures none { word_ballot word.now ≡ None → result ≡ Ok None }
{
    let Some((counter, value)) = ballot_fields(word) else {
        return Ok(None);
    };
    Ok(value_of(alloc, value)?.map(|value| Ballot { counter, value }))
}

/// The counter before the colon of a ballot, and the word behind it.
fn ballot_fields(word: &[u8]) -> Option<(u32, &[u8])>
    ensures { option_map (λ r. (r.0, r.1.now)) result ≡ counter_and_rest (split_once 58 word.now) }
{
    let (counter, value) = split_once(word, b':')?;
    Some((counter_of(counter)?, value))
}

/// Adds the value: as it is if it has only letters and digits, else `#` and hexadecimal digits. If it is out of memory,
/// a part may have been added.
pub fn push_value(text: &mut String, value: &Value) -> Result<(), AllocError>
    ensures { OnOk result (string_bytes text.new ≡ string_bytes text.old ++ text_of_value value.now) }
{
    let bytes = value.as_bytes();
    if is_plain(bytes) {
        return push_plain(text, bytes);
    }
    text.push('#')?;
    push_hex(text, bytes)
}

/// Adds the ballot. If it is out of memory, a part may have been added.
pub fn push_ballot(text: &mut String, ballot: &Ballot) -> Result<(), AllocError>
    ensures { OnOk result (string_bytes text.new ≡ string_bytes text.old ++ text_of_ballot ballot.now) }
{
    let counter = ballot.counter;
    write!(text, "{counter}:")?;
    push_value(text, &ballot.value)
}

/// A law: a value is read back from the word that it is printed as.
#[tactic(auto, using(crate::proofs::ValuesRead::values_read_back))]
pub fn values_read_back()
    ensures { ValuesReadBack }
{}
