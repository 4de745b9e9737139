//! What runs the lines of a script of networks for what becomes of the networks.

ghost use Rattle.std.specs.Prelude.{◌≡◌, [], None, OnOk, Some};
ghost use Rattle.line_run.specs.Determined.{EndsDoOneThing, LinesDoOneThing, RunsDoOneThing};
ghost use Rattle.line_run.specs.Histories.{ScriptsHaveHistories};
ghost use Rattle.line_run.specs.Hosting.{new_hosting};
ghost use Rattle.line_run.specs.Unprinted.{IsFinishedUnprinted, origin_in, trace_after};

use crate::host_run::HostRun;
use crate::trace::Trace;
use host_journal::Kept;
use host_world::World;
use line_script::{LineError, LineRunner};
use node_store::BoxShelf;
use std::alloc::{AllocError, Global};
use std::marker::Model;

/// The networks of one script, whose lines are run as a [`HostRun`] runs them and print nothing. If one of their events
/// is refused because it is out of memory, that is no answer of a line: the run ends, out of memory.
#[derive(Drop)]
pub struct UnprintedRun {
    run: HostRun<Kept>,
    trace: Option<Trace>,
}

impl Model for UnprintedRun {
    ghost use Rattle.std.specs.Coded.{codes};
    ghost use Rattle.scp_types.specs.Trees.{members_code};
    ghost use Rattle.line_run.specs.Unprinted.{Unprinted};

    ghost Value = { Unprinted };

    ghost coded = { Prim.hlevel (codes, members_code) };

    ghost view = { λ unprinted. record { hosting = unprinted.run; trace = unprinted.trace } };
}

impl UnprintedRun {
    /// The state before the first line. It takes no memory.
    pub fn new(alloc: Global) -> UnprintedRun
        ensures { result ≡ record { hosting = new_hosting; trace = None } }
    {
        UnprintedRun {
            run: HostRun::new(alloc),
            trace: None,
        }
    }

    /// The state before the first line, which keeps from which line each entry comes. It takes no memory.
    pub fn with_origins(alloc: Global) -> UnprintedRun
        ensures { result ≡ record { hosting = new_hosting; trace = Some [] } }
    {
        UnprintedRun {
            run: HostRun::new(alloc),
            trace: Some(Trace::new(alloc)),
        }
    }

    /// No line follows: the networks that are declared with nodes, and that no event has named, join the
    /// world, and nothing has happened to them. A network without nodes does not, and is no fault. An error
    /// says that it is out of memory.
    pub fn finish(&mut self) -> Result<(), AllocError>
        ensures { OnOk result (IsFinishedUnprinted self.old self.new) }
    {
        self.run.finish()
    }

    /// The journals of the networks that an event has named after they were declared and no `drop` has taken back, and
    /// after [`UnprintedRun::finish`] of all that are declared with nodes. They ascend by number.
    pub fn world(&self) -> &World<BoxShelf>
        ensures { result.now ≡ self.now.hosting.logs }
    {
        self.run.world()
    }

    /// From which line an entry of a network comes, counted from 0 over the lines that were run. Empty lines and
    /// comments are not run. `None` if there is no such entry, or if origins are not kept.
    pub fn origin(&self, net: u32, entry: usize) -> Option<usize>
        ensures { result ≡ origin_in self.now.trace net entry }
    {
        match &self.trace {
            Some(trace) => trace.origin(net, entry),
            None => None,
        }
    }

    /// Keeps that a line has been run that names a network.
    fn note(&mut self, net: u32) -> Result<(), AllocError>
        ensures hosting { self.new.hosting ≡ self.old.hosting }
        ensures trace { OnOk result (self.new.trace ≡ trace_after net self.old.hosting.logs self.old.trace) }
    {
        let entries = match self.run.world().journal(net) {
            Some(journal) => journal.len(),
            None => 0,
        };
        match &mut self.trace {
            Some(trace) => trace.note(net, entries),
            None => Ok(()),
        }
    }
}

impl LineRunner for UnprintedRun {
    ghost use Rattle.line_run.specs.BadLines.{bad_lines_tell_nothing_unprinted};
    ghost use Rattle.line_run.specs.Unprinted.{RefusesUnprinted, TellsUnprinted};

    ghost tells = { TellsUnprinted };

    ghost refuses = { RefusesUnprinted };

    ghost untold = { bad_lines_tell_nothing_unprinted };

    fn line(&mut self, alloc: Global, fields: &[&[u8]]) -> Result<Option<String>, LineError> {
        let (number, outcome) = self.run.carry_out(alloc, fields)?;
        let had_memory = outcome.had_memory();
        drop(outcome);
        had_memory?;
        self.note(number)?;
        Ok(None)
    }
}

/// A law: the journals of the networks of a script are those of a history of a host. So it is before the first line.
/// Each line that is run keeps it, and so does what comes after the last one.
#[tactic(auto, using(crate::proofs::HistoryLaws::scripts_have_histories))]
pub fn scripts_have_histories()
    ensures { ScriptsHaveHistories }
{}

/// A law: what lines do that print nothing is determined. The same line leads from networks that are alike to networks
/// that are alike, and so do the same lines that are all run. What joins after the last line is the same, and so is the
/// trace of the lines.
pub fn lines_do_one_thing()
    ensures lines { LinesDoOneThing }
    ensures runs { RunsDoOneThing }
    ensures ends { EndsDoOneThing }
{}
