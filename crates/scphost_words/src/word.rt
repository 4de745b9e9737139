//! Words of the command line.

use std::alloc::{AllocError, Global};
use std::marker::Model;

/// A word of the command line as it was typed, such as the name of a file.
#[derive(Drop)]
pub struct Word {
    text: String,
}

impl Model for Word {
    ghost use Rattle.std.specs.Prelude.{ℕ, List, string_bytes};

    ghost Value = { List ℕ };

    ghost view = { λ w. string_bytes w.text };
}

impl Word {
    ghost use Rattle.std.specs.Prelude.{◌≡◌, IfOk};

    /// A copy of `text`. An error says that it is out of memory.
    pub fn new(alloc: Global, text: &str) -> Result<Word, AllocError>
        ensures { IfOk result (λ w. w ≡ text.now) }
    {
        let text = String::from_str(alloc, text)?;
        Ok(Word { text })
    }

    /// The word's text.
    pub fn as_str(&self) -> &str
        ensures { result.now ≡ self.now }
    {
        self.text.as_str()
    }
}

/// A word of the command line, or a part of one, where it stands.
#[derive(Drop)]
pub struct LentWord<'a> {
    text: &'a str,
}

impl<'a> Model for LentWord<'a> {
    ghost use Rattle.std.specs.Prelude.{ℕ, List};

    ghost Value = { List ℕ };

    ghost view = { λ w. w.text.now };
}

impl<'a> LentWord<'a> {
    ghost use Rattle.std.specs.Prelude.{◌≡◌, IfOk};

    /// This word.
    pub fn of(text: &'a str) -> LentWord<'a>
        ensures { result ≡ text.now }
    {
        LentWord { text }
    }

    /// A copy, which is lent for as long as this one.
    pub fn reborrow(&self) -> LentWord<'a>
        ensures { result ≡ self.now }
    {
        LentWord { text: self.text }
    }

    /// A copy of its own. An error says that it is out of memory.
    pub fn copied(&self, alloc: Global) -> Result<Word, AllocError>
        ensures { IfOk result (λ w. w ≡ self.now) }
    {
        Word::new(alloc, self.text)
    }
}
