//! Faults of lines, and what is said of them.

use std::alloc::{AllocError, Global};

/// What is wrong with a line.
#[derive(Drop)]
pub(crate) struct Fault {
    /// Which of its words is wrong, counted from 0; the count of its words if one is missing.
    pub word: usize,
    /// Why.
    pub text: String,
}

pub(crate) fn fault_at(alloc: Global, word: usize, text: &str) -> Result<Fault, AllocError> {
    Ok(Fault {
        word,
        text: String::from_str(alloc, text)?,
    })
}

/// This is said of a word, with the form of its line behind it. `@` in the text stands for `other`.
pub(crate) fn fault_of(
    alloc: Global,
    word: usize,
    text: &str,
    other: &[u8],
    form: &str,
) -> Result<Fault, AllocError> {
    let mut said = filled(alloc, text, &[], other)?;
    said.push_str(": ")?;
    said.push_str(form)?;
    Ok(Fault { word, text: said })
}

/// A text in which `%` stands for the number of a network and `@` for another word.
pub(crate) fn filled(
    alloc: Global,
    text: &str,
    number: &[u8],
    other: &[u8],
) -> Result<String, AllocError> {
    let mut said = String::new(alloc);
    for byte in text.as_bytes() {
        match *byte {
            b'%' => push_word(&mut said, number)?,
            b'@' => push_word(&mut said, other)?,
            byte => said.push(char::from(byte))?,
        }
    }
    Ok(said)
}

/// Adds the characters of a word, which is ASCII.
fn push_word(text: &mut String, word: &[u8]) -> Result<(), AllocError> {
    for byte in word {
        text.push(char::from(*byte))?;
    }
    Ok(())
}
