//! Scripts of networks that are run to their end without printing.

ghost use Rattle.std.specs.Prelude.{◌≡◌, ◌≤◌, IfErr, IfOk, Some, length, option_map};
ghost use Rattle.line_run.specs.Histories.{HaveHistory};
ghost use Rattle.line_run.specs.Unprinted.{origin_in};
ghost use Rattle.line_run.specs.DeterminedAnswers.{ScriptsHaveOneEnd};
ghost use Rattle.line_run.specs.Scripts.{IsEndOfFile, IsLineAt, IsLineOf, IsStoryOf, StopsStory, start_of};
ghost use Rattle.line_script.specs.Script.{is_no_record as no_record};

use crate::UnprintedRun;
use line_script::{LONGEST_SCRIPT, Line, Lines, Stop, read_whole, run_script};
use std::alloc::Global;
use std::io;
use std::io::Read;
use std::marker::Model;

/// A script of networks that has been run to its end, and its text if it is traced.
///
/// A text that is kept is no longer than a script may be: for example, it may have 64 MiB, and not one byte more. The
/// journals are those of a history of a host.
#[derive(Drop)]
pub struct FinishedScript {
    run: UnprintedRun,
    text: Vec<u8>,
}

impl Model for FinishedScript {
    ghost use Rattle.std.specs.Coded.{codes};
    ghost use Rattle.std.specs.Prelude.{◌≤◌, length};
    ghost use Rattle.scp_types.specs.Trees.{members_code};
    ghost use Rattle.line_run.specs.Histories.{HaveHistory};
    ghost use Rattle.line_run.specs.Scripts.{Story, longest_script};

    ghost Value = { Story };

    ghost coded = { Prim.hlevel (codes, members_code) };

    ghost view = { λ script. record { run = script.run; text = script.text.items } };

    ghost invariant = { λ script. (length script.text.items ≤ longest_script) × HaveHistory script.run.hosting.logs };
}

impl FinishedScript {
    /// Reads a script whole and runs its lines in order, without printing. After the last one the networks that are
    /// declared with nodes and that no event has named are there too. A bad line ends it, and so does an event that is
    /// out of memory, so that no event of the script is missing for that. If it is traced, it keeps from which line
    /// each entry comes.
    #[tactic(auto, using(crate::proofs::Histories::ends_have_histories))]
    pub fn read_and_run<R: Read>(
        alloc: Global,
        script: &mut R,
        traced: bool,
    ) -> Result<FinishedScript, Stop>
        ensures story { IfOk result (IsStoryOf traced (R.remaining script.old)) }
        ensures stopped { IfErr result (StopsStory traced (R.remaining script.old)) }
    {
        if !traced {
            let run = run_to_end(alloc, script, false)?;
            let text = Vec::new(alloc);
            return Ok(FinishedScript { run, text });
        }
        let text = read_whole(alloc, script)?;
        let run = run_to_end(alloc, &mut text.as_slice(), true)?;
        Ok(FinishedScript { run, text })
    }

    /// The run.
    pub fn run(&self) -> &UnprintedRun
        ensures run { result.now ≡ self.now.run }
        ensures history { HaveHistory self.now.run.hosting.logs }
    {
        &self.run
    }

    /// The line of the script from which an entry of a network comes; `None` if there is no such entry, or if the
    /// script is not traced.
    pub fn line(&self, net: u32, entry: usize) -> Option<Line<'_>>
        ensures { IsLineAt self.now.text (origin_in self.now.run.trace net entry) (option_map (λ line. (line.number, line.bytes.now)) result) }
    {
        match self.run.origin(net, entry) {
            Some(number) => nth_record(&self.text, number),
            None => None,
        }
    }
}

/// Runs the lines of a script in order without printing, and ends the run.
fn run_to_end<R: Read>(alloc: Global, script: &mut R, traced: bool) -> Result<UnprintedRun, Stop>
    ensures ended { IfOk result (IsEndOfFile traced (R.remaining script.old)) }
    ensures stopped { IfErr result (StopsStory traced (R.remaining script.old)) }
{
    let mut run = new_run(alloc, traced);
    run_script(alloc, &mut run, script, &mut io::sink())?;
    match run.finish() {
        Ok(()) => Ok(run),
        // Memory: finishing has none.
        Err(_) => Err(Stop::NoMemory),
    }
}

fn new_run(alloc: Global, traced: bool) -> UnprintedRun
    ensures { result ≡ start_of traced }
{
    if traced {
        UnprintedRun::with_origins(alloc)
    } else {
        UnprintedRun::new(alloc)
    }
}

/// A line of a script, by its number among those that are run, counted from 0.
fn nth_record(text: &[u8], number: usize) -> Option<Line<'_>>
    requires { length text.now ≤ LONGEST_SCRIPT }
    ensures { IsLineOf text.now number (option_map (λ line. (line.number, line.bytes.now)) result) }
{
    let mut left = number;
    for line in Lines::new(text) {
        if !is_no_record(line.bytes) {
            if left == 0 {
                return Some(line);
            }
            left -= 1;
        }
    }
    None
}

/// The line is empty or a comment.
fn is_no_record(line: &[u8]) -> bool
    ensures { result ≡ no_record line.now }
{
    matches!(line, [] | [b'#', ..])
}

/// A law: what becomes of a script is determined. Let one text be run to its end twice, from the same networks. Then
/// the journals of both ends are the same, and so are the traces of the lines.
pub fn scripts_have_one_end()
    ensures { ScriptsHaveOneEnd }
{}
