//! What runs the lines of a script of networks for what they submit.

ghost use Rattle.std.specs.Prelude.{◌≡◌, Err, OnOk, true};
ghost use Rattle.line_run.specs.Submitting.{IsComplete, IsSubmitted, may_submit, new_submitting};
ghost use Rattle.line_request.specs.Telling.{IsBadToAsk};

use crate::nets::Nets;
use host_compare::Submission;
use line_request::{Request, request_of};
use line_script::{LineError, LineRunner};
use scp_types::Event;
use std::alloc::{AllocError, Global};
use std::marker::Model;

/// What the lines of one script submit to its networks. Networks, nodes and rosters are declared as in a
/// [`HostRun`](crate::HostRun), with the same faults. Nothing is printed. A line that settles is bad, and so are a line
/// with `served` or `*`, and `drop`. If lines may not close slots, one that does is bad too.
#[derive(Drop)]
pub struct SubmissionRun {
    closing: bool,
    nets: Nets,
    submission: Submission,
}

impl Model for SubmissionRun {
    ghost use Rattle.std.specs.Coded.{codes};
    ghost use Rattle.scp_types.specs.Trees.{members_code};
    ghost use Rattle.line_run.specs.Submitting.{Submitting};

    ghost Value = { Submitting };

    ghost coded = { Prim.hlevel (codes, members_code) };

    ghost view = { λ run. record { closing = run.closing; waiting = run.nets.waiting; named = run.nets.named; history = run.submission } };
}

impl SubmissionRun {
    /// The state before the first line; `closing` says whether lines may close slots. It takes no memory.
    pub fn new(alloc: Global, closing: bool) -> SubmissionRun
        ensures { result ≡ new_submitting closing }
    {
        SubmissionRun {
            closing,
            nets: Nets::none(alloc),
            submission: Submission::new(alloc),
        }
    }

    /// What has been submitted: the events in the order of their lines, and the networks that an event has
    /// named; after [`SubmissionRun::finish`] all networks that are declared with nodes.
    pub fn submission(&self) -> &Submission
        ensures { result.now ≡ self.now.history }
    {
        &self.submission
    }

    /// No line follows: the networks that are declared with nodes, and that no event has named, are declared
    /// in the submission. A network without nodes is not, and is no fault. An error says that it is out of memory.
    pub fn finish(&mut self) -> Result<(), AllocError>
        ensures { OnOk result (IsComplete self.old self.new) }
    {
        self.nets.finish(&mut self.submission)
    }

    /// What has been submitted, as [`SubmissionRun::submission`] lends it.
    pub fn into_submission(self) -> Submission
        ensures { result ≡ self.history }
    {
        self.submission
    }

    /// An event is submitted to the network of a number, which is declared in the submission if it waits. It is a bad
    /// line if lines may not ask for the event, or if the network has no node.
    fn submit(&mut self, number: u32, event: Event) -> Result<(), LineError>
        ensures told { OnOk result (IsSubmitted number event self.old self.new) }
        ensures allowed { OnOk result (may_submit self.old event ≡ true) }
        ensures bad { result ≡ Err LineError.Bad → IsBadToAsk (may_submit self.old event) self.old.waiting number }
    {
        if let Event::CloseSlot { .. } = event
            && !self.closing
        {
            return Err(LineError::Bad);
        }
        self.nets.begin(&mut self.submission, number)?;
        self.submission.submit(number, event)?;
        Ok(())
    }
}

impl LineRunner for SubmissionRun {
    ghost use Rattle.line_run.specs.BadLines.{bad_lines_submit_nothing};
    ghost use Rattle.line_run.specs.Submitting.{RefusesToSubmit, Submits};

    ghost tells = { Submits };

    ghost refuses = { RefusesToSubmit };

    ghost untold = { bad_lines_submit_nothing };

    fn line(&mut self, alloc: Global, fields: &[&[u8]]) -> Result<Option<String>, LineError> {
        let (number, request) = request_of(alloc, fields)?;
        match request {
            Request::Apply(event) => {
                self.submit(number, event)?;
                Ok(None)
            }
            Request::Settle(_) => Err(LineError::Bad),
            Request::Declare(declaration) => {
                self.nets.prepare(number, declaration)?;
                Ok(None)
            }
        }
    }
}
