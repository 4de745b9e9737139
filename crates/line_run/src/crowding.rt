//! What two scripts submit, side by side.

ghost use Rattle.std.specs.Prelude.{◌≡◌, ◌++◌, IfErr, IfOk, OnOk, codes, string_bytes};
ghost use Rattle.std.specs.List.{flat_map};
ghost use Rattle.line_script.specs.Names.{text_of_name};
ghost use Rattle.line_run.specs.Crowding.{TellsCrowd, TellsVerdict, line, line_of_replied, line_of_reply as line_of};
ghost use Rattle.line_run.specs.Scripts.{IsSubmittedBy, StopsSubmission};

use crate::answer::Answer;
use crate::{SubmissionRun, line_of_reply};
use host_compare::{Crowd, Replies, Reply, Submission, crowd};
use line_script::{Stop, push_name, run_script};
use scp_types::{NodeId, Subject};
use std::alloc::{AllocError, Global};
use std::io;
use std::io::Read;

/// Reads a script whole and runs its lines in order for what they submit, without printing. After the last
/// one the networks that are declared with nodes and that no event has named are declared too. A line that is
/// bad ends it; one that closes a slot is unless `closing` is set.
pub fn read_submission<R: Read>(
    alloc: Global,
    script: &mut R,
    closing: bool,
) -> Result<SubmissionRun, Stop>
    ensures submitted { IfOk result (IsSubmittedBy closing (R.remaining script.old)) }
    ensures stopped { IfErr result (StopsSubmission closing (R.remaining script.old)) }
{
    let mut run = SubmissionRun::new(alloc, closing);
    run_script(alloc, &mut run, script, &mut io::sink())?;
    match run.finish() {
        Ok(()) => Ok(run),
        // Memory: finishing has none.
        Err(_) => Err(Stop::NoMemory),
    }
}

/// Compares what two submissions submit for the subject, and what is answered: the verdict on them, as it is printed.
/// An error says that it is out of memory.
pub fn answer_crowd(
    alloc: Global,
    one: &Submission,
    other: &Submission,
    subject: &Subject,
) -> Result<Answer, AllocError>
    ensures { IfOk result (TellsCrowd one.now other.now subject.now) }
{
    let verdict = crowd(alloc, one, other, subject)?;
    let answer = answer_verdict(alloc, &verdict)?;
    Ok(answer)
}

fn answer_verdict(alloc: Global, verdict: &Crowd) -> Result<Answer, AllocError>
    ensures { IfOk result (TellsVerdict verdict.now) }
{
    match verdict {
        Crowd::CastDiffers(node) => {
            let text = line_at_node(alloc, "cast differs at ", node)?;
            Ok(Answer {
                differs: true,
                text,
            })
        }
        Crowd::RosterDiffers => {
            let text = String::from_str(alloc, "roster differs\n")?;
            Ok(Answer {
                differs: true,
                text,
            })
        }
        Crowd::OutsideRoster(node) => {
            let text = line_at_node(alloc, "outside roster at ", node)?;
            Ok(Answer {
                differs: true,
                text,
            })
        }
        Crowd::InputsDiffer(place) => {
            let text = format!(in alloc; "inputs differ at {place}\n")?;
            Ok(Answer {
                differs: true,
                text,
            })
        }
        Crowd::Same(replies) => {
            let text = text_of_same_replies(alloc, replies)?;
            Ok(Answer {
                differs: false,
                text,
            })
        }
    }
}

/// A line that ends in the name of a node.
fn line_at_node(alloc: Global, words: &str, node: &NodeId) -> Result<String, AllocError>
    ensures { IfOk result (λ text. string_bytes text ≡ line (words.now ++ text_of_name node.now)) }
{
    let mut text = String::from_str(alloc, words)?;
    push_name(&mut text, node)?;
    text.push('\n')?;
    Ok(text)
}

/// Nothing differs: the replies.
#[tactic(auto, using(crate::proofs::CrowdLines::lines_of_model))]
fn text_of_same_replies(alloc: Global, replies: &Replies) -> Result<String, AllocError>
    ensures { IfOk result (λ text. string_bytes text ≡ line (codes "same") ++ flat_map line_of replies.now) }
{
    let mut text = String::from_str(alloc, "same\n")?;
    push_replies(alloc, &mut text, replies.as_slice())?;
    Ok(text)
}

fn push_replies(alloc: Global, text: &mut String, replies: &[Reply]) -> Result<(), AllocError>
    ensures { OnOk result (string_bytes text.new ≡ string_bytes text.old ++ flat_map line_of_replied replies.now) }
{
    for reply in replies {
        push_reply(alloc, text, reply)?;
    }
    Ok(())
}

#[tactic(auto, using(crate::proofs::CrowdLines::line_of_one))]
fn push_reply(alloc: Global, text: &mut String, reply: &Reply) -> Result<(), AllocError>
    ensures { OnOk result (string_bytes text.new ≡ string_bytes text.old ++ line_of_replied reply.now) }
{
    let answer = line_of_reply(alloc, reply)?;
    text.push_str(answer.as_str())?;
    text.push('\n')?;
    Ok(())
}
