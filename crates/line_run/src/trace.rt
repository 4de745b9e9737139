//! From which line of a script each entry of a journal comes.

ghost use Rattle.std.specs.Prelude.{◌≡◌, ◌++◌, ◌∷◌, [], Some, OnOk};
ghost use Rattle.line_run.specs.Unprinted.{origin_in, origin_with};

use std::alloc::{AllocError, Global};
use std::marker::Model;

/// For each line that was run, in order, the network that it names, and how many entries that one has after
/// it.
#[derive(Drop)]
pub(crate) struct Trace {
    lines: Vec<(u32, usize)>,
}

impl Model for Trace {
    ghost use Rattle.line_run.specs.Unprinted.{Trace};

    ghost Value = { Trace };

    ghost view = { λ trace. trace.lines.items };
}

impl Trace {
    /// No line has been run. It takes no memory.
    pub fn new(alloc: Global) -> Trace
        ensures { result ≡ [] }
    {
        Trace {
            lines: Vec::new(alloc),
        }
    }

    /// A line has been run that names this network, which has this many entries after it.
    pub fn note(&mut self, net: u32, entries: usize) -> Result<(), AllocError>
        ensures { OnOk result (self.new ≡ self.old ++ (net, entries) ∷ []) }
    {
        match self.lines.push((net, entries)) {
            Ok(()) => Ok(()),
            // Memory: the list has no room.
            Err(_) => Err(AllocError),
        }
    }

    /// The line from which an entry of a network comes.
    pub fn origin(&self, net: u32, entry: usize) -> Option<usize>
        ensures { result ≡ origin_in (Some self.now) net entry }
    {
        let mut found = None;
        for number in 0..self.lines.len() {
            found = origin_with(found, number, self.lines[number], net, entry);
        }
        found
    }
}

/// The line from which an entry of a network comes, with one line more than those among which `found` was looked for.
fn origin_with(
    found: Option<usize>,
    number: usize,
    line: (u32, usize),
    net: u32,
    entry: usize,
) -> Option<usize>
    ensures { result ≡ origin_with found number line net entry }
{
    if line.0 != net {
        found
    } else if entry < line.1 {
        match found {
            None => Some(number),
            Some(_) => found,
        }
    } else {
        None
    }
}
