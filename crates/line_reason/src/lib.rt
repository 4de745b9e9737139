//! Why a line is bad, in words for whoever wrote it.
//!
//! What runs lines says of one only that it is bad. [`reason_of`] looks at that line again, and at those above it if
//! they were kept, and says at which byte it is bad and why. The rules are those of the readers in `line_script`. Which
//! words a line has is said by its form, as `open N I`, which is also what the user is shown.
#![tactic(auto)]

ghost use Rattle.std.specs.Prelude.{◌+◌, ◌<◌, ◌≤◌, IfOk, length};

mod above;
mod characters;
mod forms;
mod lines;
mod places;
mod texts;
mod words;

use crate::characters::{character_fault, column_of};
use crate::forms::{form_of, known_words};
use crate::places::{fault_of_kind, fault_of_place};
use crate::texts::{Fault, fault_at};
use crate::words::fault_of_words;
pub use lines::line_at;
use std::alloc::{AllocError, Global};

/// What kind of lines a text has.
#[derive(Clone, Copy)]
pub enum Kind {
    /// Those of a table file.
    Table,
    /// Those of a script that is run in order.
    Script,
    /// Those of a script that is read for what it submits, as two are that `crowd` compares.
    Submission,
    /// Those of a script that is run on workers.
    Jobs,
    /// Those of a live host.
    Live,
}

/// Why a line is bad.
#[derive(Drop)]
pub struct Reason {
    /// At which of its bytes, counted from 1. It is one past the last if something is missing.
    pub column: usize,
    /// Why, in words.
    pub text: String,
}

/// Why a line is bad that stands below these lines, each of them with its line feed and none of them bad. Without them
/// (`None`: they were not kept) it says what may be. Of a line that is not bad it says nothing of use. An error says
/// that it is out of memory.
pub fn reason_of(
    alloc: Global,
    kind: Kind,
    above: Option<&[u8]>,
    line: &[u8],
) -> Result<Reason, AllocError>
    ensures { IfOk result (λ r. (0 < r.column) × (r.column ≤ length line.now + 1)) }
{
    if let Some((place, text)) = character_fault(line) {
        return Ok(Reason {
            column: place + 1,
            text: String::from_str(alloc, text)?,
        });
    }
    let fault = fault_in(alloc, kind, above, line)?;
    Ok(Reason {
        column: column_of(line, fault.word),
        text: fault.text,
    })
}

/// The fault of a line whose characters are right.
fn fault_in(
    alloc: Global,
    kind: Kind,
    above: Option<&[u8]>,
    line: &[u8],
) -> Result<Fault, AllocError> {
    let words: Vec<&[u8]> = line.split(|byte| *byte == b' ').collect(alloc)?;
    match fault_of_form(alloc, kind, words.as_slice())? {
        Some(fault) => Ok(fault),
        None => match fault_of_place(alloc, above, words.as_slice())? {
            Some(fault) => Ok(fault),
            None => fault_at(alloc, 0, "this line is not taken here"),
        },
    }
}

/// The fault of words wherever they stand in a text of this kind.
fn fault_of_form(alloc: Global, kind: Kind, words: &[&[u8]]) -> Result<Option<Fault>, AllocError> {
    let Some(form) = form_of(kind, words) else {
        return Ok(Some(fault_at(alloc, 0, known_words(kind))?));
    };
    match fault_of_words(alloc, form, words)? {
        Some(fault) => Ok(Some(fault)),
        None => match fault_of_kind(kind, words) {
            Some((word, text)) => Ok(Some(fault_at(alloc, word, text)?)),
            None => Ok(None),
        },
    }
}
