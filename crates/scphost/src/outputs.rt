//! Where a program writes.

use crate::explaining::explain_line;
use live_feed::{Desk, write_and_flush};
use live_journal::append_line;
use std::alloc::Global;
use std::fs::File;
use std::io::Write;

/// Both output streams of a program, and what a live host has besides.
#[derive(Drop)]
pub struct Outputs<W, E> {
    /// The standard output: what a call prints.
    pub out: W,
    /// The standard error: why words are no call, what ended a call early, and why lines are bad.
    pub err: E,
    /// The journal of a live host, if it has one.
    pub journal: Option<File>,
    /// Whether it is said why lines of a live host are bad.
    pub explain: bool,
    /// Whether the call has come to its second file.
    pub second: bool,
    /// Where the texts of reasons are allocated.
    pub alloc: Global,
}

impl<W: Write, E: Write> Desk for Outputs<W, E> {
    ghost use Rattle.std.specs.Prelude.{None};

    ghost acts = { λ outputs. None };

    ghost told = { λ outputs. W.contents outputs.out };

    /// Writes a line to the journal; without one there is nothing to be done.
    fn append(&mut self, line: &[u8]) -> bool {
        match &mut self.journal {
            Some(file) => append_line(file, line),
            None => true,
        }
    }

    /// Brings the journal to the disk; without one there is nothing to be done.
    fn sync(&mut self) -> bool {
        match &self.journal {
            Some(file) => file.sync_data().is_ok(),
            None => true,
        }
    }

    fn tell(&mut self, text: &[u8]) -> bool {
        write_and_flush(&mut self.out, text)
    }

    /// Why a line is bad goes to `err`, as `L:COLUMN: REASON`. A write there that fails changes nothing.
    fn explain(&mut self, number: u64, line: Option<&[u8]>, waiting: &[u8]) {
        if self.explain && waiting.ends_with(b" bad\n") {
            explain_line(self.alloc, &mut self.err, number, line);
        }
    }
}
