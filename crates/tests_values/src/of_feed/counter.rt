//! A server of lines that counts.

ghost use Rattle.std.specs.Prelude.{◌≡◌, option_map};
ghost use Rattle.live_feed.specs.WholeLines.{has_no_hole};
ghost use Rattle.tests_values.specs.Counting.{Adds};

use live_feed::{Answer, BatchServer, Deed, Done, KeptLine, LineServer, MOST_LINES, serve_in_turn};
use std::alloc::{AllocError, Global};
use std::collections::VecDeque;
use std::marker::Model;
use std::thread::Threads;

/// Counts plus signs. A line of them, and of nothing else, is kept; it is answered by its number and how many there
/// have been. An empty line and one that begins with `#` is not answered, and another is bad.
#[derive(Drop)]
pub struct Counter {
    sum: u64,
}

impl Model for Counter {
    ghost use Rattle.std.specs.Prelude.{ℕ};

    ghost Value = { ℕ };

    ghost view = { λ counter. counter.sum };
}

impl Counter {
    /// No plus sign has come.
    pub fn new() -> Counter {
        Counter { sum: 0 }
    }

    /// Adds a line of plus signs, and answers whether it is one.
    fn add(&mut self, line: Option<&[u8]>) -> bool
        ensures { Adds self.old (option_map (λ bytes. bytes.now) line.entry) result self.new }
    {
        let Some(bytes) = line else {
            return false;
        };
        if !has_no_hole(bytes) || !bytes.iter().all(|byte| *byte == b'+') {
            return false;
        }
        let Some(sum) = self.sum.checked_add(bytes.len() as u64) else {
            return false;
        };
        self.sum = sum;
        true
    }
}

/// What each line that is kept did.
const DECLARED: Done = Done {
    network: 0,
    deed: Deed::Declared,
};

/// Whether none of these bytes is 0.
fn has_no_hole(bytes: &[u8]) -> bool
    ensures { result ≡ has_no_hole bytes.now }
{
    bytes.iter().all(|byte| *byte != 0)
}

impl LineServer for Counter {
    ghost use Rattle.tests_values.specs.Counting.{Counting, empty_lines_are_skipped, kept_lines_are_whole, only_kept_lines_count};

    ghost serves = { Counting };

    ghost only_kept = { only_kept_lines_count };

    ghost skipped = { empty_lines_are_skipped };

    ghost whole = { kept_lines_are_whole };

    fn serve(
        &mut self,
        alloc: Global,
        number: u64,
        line: Option<&[u8]>,
    ) -> Result<Option<Answer>, AllocError> {
        if let Some([] | [b'#', ..]) = line {
            return Ok(None);
        }
        let kept = self.add(line);
        let block = if kept {
            format!(in alloc; "{number} {}\n", self.sum)?
        } else {
            format!(in alloc; "{number} bad\n")?
        };
        let done = if kept { Some(DECLARED) } else { None };
        Ok(Some(Answer { block, done }))
    }
}

impl BatchServer for Counter {
    fn lines_at_once(&self) -> usize {
        MOST_LINES
    }

    fn serve_batch<X: Threads + Sync>(
        &mut self,
        _rt: &X,
        alloc: Global,
        count: u64,
        lines: &[KeptLine],
    ) -> VecDeque<Option<Answer>> {
        serve_in_turn(self, alloc, count, lines)
    }
}
