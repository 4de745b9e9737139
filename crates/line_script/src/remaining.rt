//! The lines of a text that are still to be run.

ghost use Rattle.std.specs.Prelude.{◌≡◌, ◌<◌, ◌≤◌, ◌∷◌, ℕ, [], IfSome, List, None, drop, length, vec_len};
ghost use Rattle.line_script.specs.Script.{Bytes, numbered_lines};

use crate::input::LONGEST_SCRIPT;
use crate::script::{Line, first_line};
use std::marker::Model;

/// How many bytes of lines that have run are let go together, at least.
const LEAST_LET_GO: usize = 65_536;

/// The lines of a text that are left. Those that were passed are let go, so that a long text shrinks as its lines run.
#[derive(Drop)]
pub(crate) struct RemainingLines {
    text: Vec<u8>,
    at: usize,
    number: usize,
}

impl Model for RemainingLines {
    ghost use Rattle.std.specs.Prelude.{◌+◌, ◌≤◌, ℕ, drop, length};
    ghost use Rattle.line_script.specs.Script.{Bytes};

    ghost Value = { ℕ × Bytes };

    ghost view = { λ left. (left.number, drop left.at left.text.items) };

    ghost invariant = { λ left. (left.at ≤ length left.text.items) × (length left.text.items + left.number ≤ 67108865 + left.at) };
}

impl RemainingLines {
    /// All lines of a text, numbered from 1.
    pub(crate) fn of(text: Vec<u8>) -> RemainingLines
        requires { vec_len text ≤ LONGEST_SCRIPT }
        ensures { result ≡ (1, text.items) }
    {
        RemainingLines {
            text,
            at: 0,
            number: 1,
        }
    }

    /// The first of them.
    pub(crate) fn first(&self) -> Option<Line<'_>>
        ensures none { result ≡ None → numbered_lines self.now ≡ [] }
        ensures some { IfSome result (λ line. (0 < length self.now.1) × (more : List (ℕ × Bytes)) × (numbered_lines self.now ≡ (line.number, line.bytes.now) ∷ more)) }
    {
        let left = &self.text[self.at..];
        if left.is_empty() {
            return None;
        }
        let (bytes, _) = first_line(left);
        Some(Line {
            number: self.number,
            bytes,
        })
    }

    /// Passes the first of them, which has so many bytes.
    pub(crate) fn pass(&mut self, bytes: usize)
        ensures passed { (n : ℕ) (line : Bytes) (more : List (ℕ × Bytes)) → numbered_lines self.old ≡ (n, line) ∷ more → length line ≡ bytes → numbered_lines self.new ≡ more }
        ensures fewer { 0 < length self.old.1 → length self.new.1 < length self.old.1 }
    {
        if bytes < self.text.len() - self.at {
            self.at += bytes + 1;
            self.number += 1;
        } else {
            self.at = self.text.len();
        }
        self.let_go();
    }

    /// Lets go of what was passed, once that is a ninth of the text. So each byte is moved eight times at most.
    fn let_go(&mut self)
        ensures { self.new ≡ self.old }
    {
        let left = self.text.len() - self.at;
        if self.at >= LEAST_LET_GO && self.at >= left / 8 {
            self.text.copy_within(self.at.., 0);
            self.text.truncate(left);
            self.text.shrink_to_fit();
            self.at = 0;
        }
    }
}
