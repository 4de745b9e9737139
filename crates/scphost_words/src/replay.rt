//! From which line on a journal is replayed.

ghost use Rattle.std.specs.Prelude.{◌≡◌};
ghost use Rattle.scphost_words.specs.Replays.{replay_in, replay_of_line};

use crate::subject::number_in;

/// From which line on the blocks of a journal are printed when it is replayed.
#[derive(Clone, Copy)]
pub enum ReplayFrom {
    /// From this line on; lines are numbered from 1.
    Line(u64),
    /// From the least line on that opened a slot which is still open.
    Open,
}

/// From which line on a word asks for the blocks: the number of a line, or `open`.
pub fn replay_of(word: &str) -> Option<ReplayFrom>
    ensures { result ≡ replay_in word.now }
{
    match word {
        "open" => Some(ReplayFrom::Open),
        _ => replay_of_line(number_in(word)?),
    }
}

/// From this line on; `None` for 0, which no line has.
fn replay_of_line(line: u64) -> Option<ReplayFrom>
    ensures { result ≡ replay_of_line line }
{
    if line == 0 {
        None
    } else {
        Some(ReplayFrom::Line(line))
    }
}
