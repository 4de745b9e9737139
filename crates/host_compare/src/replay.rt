//! The run of one network to which all that was submitted happens.

ghost use Rattle.std.specs.Prelude.{◌≡◌, ◌≢◌, ◌↔◌, ◌++◌, ◌∷◌, [], IfOk, OnOk, Some, IsTrue, if◌then◌else◌, map};
ghost use Rattle.scp_spec.specs.Hosts.{entries};
ghost use Rattle.scp_spec.specs.Networks.Reply.{Refused};
ghost use Rattle.scp_spec.specs.Sets.{among};
ghost use Rattle.scp_types.specs.declared.event.Refusal.TheVariants.{NoMemory};
ghost use Rattle.scp_spec.specs.Submissions.{answers, config_of, replied_to};
ghost use Rattle.host_closure.specs.Announcing.{member_names};
ghost use Rattle.host_network.specs.Decoding.{reading, step_of};
ghost use Rattle.host_compare.specs.Replies.{IsReplied, reply_of_answer};

use crate::concerning::concerns;
use crate::reply::Reply;
use crate::submission::Submission;
use host_closure::ClosureList;
use host_config::NetConfig;
use host_journal::Journal;
use node_store::BoxShelf;
use scp_types::{Event, Refusal};
use std::alloc::{AllocError, Global};

/// The journal of a network after all that was submitted to it. Networks know nothing of one another, so no other is
/// run. An error says that it is out of memory, for an event or for anything else.
pub(crate) fn replay(
    alloc: Global,
    submission: &Submission,
    config: &NetConfig,
    net: u32,
) -> Result<Journal<BoxShelf>, AllocError>
    requires { config_of submission.now.configs net ≡ Some config.now }
    ensures { IfOk result (λ j. j ≡ record { config = config.now; entries = entries reading submission.now net }) }
{
    let mut journal = Journal::new(alloc, config.try_copy(alloc)?, BoxShelf::new(alloc));
    for call in submission.calls() {
        let (number, event) = call;
        if *number == net {
            answer(alloc, &mut journal, event)?;
        }
    }
    Ok(journal)
}

/// The replies to the events of a network that concern the members at the slot, after all that was submitted to it.
/// Each delivery to a member is decoded once more. An error is as of [`replay`].
pub(crate) fn replies_to(
    alloc: Global,
    submission: &Submission,
    config: &NetConfig,
    net: u32,
    members: &ClosureList,
    slot: u64,
) -> Result<Vec<Reply>, AllocError>
    requires { config_of submission.now.configs net ≡ Some config.now }
    ensures { IfOk result (λ v. map reply_of_answer v.items ≡ replied_to (among (member_names members.now)) slot (answers reading submission.now net)) }
{
    let mut journal = Journal::new(alloc, config.try_copy(alloc)?, BoxShelf::new(alloc));
    let mut replies = Vec::new(alloc);
    for call in submission.calls() {
        let (number, event) = call;
        if *number == net {
            let is_concerning = concerns(alloc, event, members, slot)?;
            let reply = answer(alloc, &mut journal, event)?;
            keep(&mut replies, reply, is_concerning)?;
        }
    }
    Ok(replies)
}

/// What a network answers to an event. An error says that it is out of memory.
fn answer(
    alloc: Global,
    journal: &mut Journal<BoxShelf>,
    event: &Event,
) -> Result<Reply, AllocError>
    ensures { IfOk result (λ r. IsReplied journal.old (step_of event.now) (reply_of_answer r) journal.new) }
{
    match journal.apply(event.try_copy(alloc)?) {
        Ok(given) => Ok(Reply::Done(given.outs)),
        Err(refusal) => reply_of_refusal(refusal),
    }
}

/// A refusal as a reply; an error if it says that it is out of memory.
fn reply_of_refusal(refusal: Refusal) -> Result<Reply, AllocError>
    ensures reply { IfOk result (λ r. reply_of_answer r ≡ Refused refusal) }
    ensures other { IfOk result (λ _. refusal ≢ NoMemory) }
{
    if is_want_of_memory(&refusal) {
        // Memory: the event wanted it.
        return Err(AllocError);
    }
    Ok(Reply::Refused(refusal))
}

fn is_want_of_memory(refusal: &Refusal) -> bool
    ensures { IsTrue result ↔ refusal.now ≡ NoMemory }
{
    // Memory: it is told from other refusals here, and not answered.
    matches!(refusal, Refusal::NoMemory)
}

/// Keeps a reply, if it is asked for.
fn keep(replies: &mut Vec<Reply>, reply: Reply, is_concerning: bool) -> Result<(), AllocError>
    ensures { OnOk result (map reply_of_answer replies.new.items ≡ map reply_of_answer replies.old.items ++ (if is_concerning then reply_of_answer reply ∷ [] else [])) }
{
    if is_concerning {
        return match replies.push(reply) {
            Ok(()) => Ok(()),
            // Memory: the list has no room.
            Err(_) => Err(AllocError),
        };
    }
    drop(reply);
    Ok(())
}
