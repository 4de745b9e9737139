//! The lines of answers and of replies.

ghost use Rattle.std.specs.Prelude.{◌≡◌, ◌++◌, IfOk, OnOk, string_bytes};
ghost use Rattle.std.specs.List.{flat_map};
ghost use Rattle.host_world.specs.Worlds.{items_of};
ghost use Rattle.line_request.specs.Replies.{IsReply};
ghost use Rattle.line_run.specs.ReplyLines.{answer_of, line_behind, reply_lines};

use host_compare::Reply;
use host_network::Given;
use line_request::{line_of_outs, line_of_refusal};
use scp_types::Refusal;
use std::alloc::{AllocError, Global};

/// The line of an answer: `ok` followed by what the event gives out, or `refused` with the number and the
/// name of the refusal. Behind these stands the number of the fault if bytes are no envelope.
pub(crate) fn reply(alloc: Global, answer: &Result<Given, Refusal>) -> Result<String, AllocError>
    ensures { IfOk result (λ text. IsReply (items_of answer.now) (string_bytes text)) }
{
    match answer {
        Ok(given) => line_of_outs(alloc, &given.outs),
        Err(refusal) => line_of_refusal(alloc, *refusal),
    }
}

/// The lines of answers, with a line feed between each and the next.
pub(crate) fn replies(
    alloc: Global,
    answers: &[Result<Given, Refusal>],
) -> Result<String, AllocError>
    ensures { IfOk result (λ text. string_bytes text ≡ reply_lines answers.now) }
{
    let [first, others @ ..] = answers else {
        return Ok(String::new(alloc));
    };
    let mut text = reply(alloc, first)?;
    push_replies(alloc, &mut text, others)?;
    Ok(text)
}

/// Adds the line of each answer behind a line feed.
fn push_replies(
    alloc: Global,
    text: &mut String,
    answers: &[Result<Given, Refusal>],
) -> Result<(), AllocError>
    ensures { OnOk result (string_bytes text.new ≡ string_bytes text.old ++ flat_map line_behind answers.now) }
{
    for answer in answers {
        push_reply(alloc, text, answer)?;
    }
    Ok(())
}

/// Adds the line of an answer behind a line feed.
fn push_reply(
    alloc: Global,
    text: &mut String,
    answer: &Result<Given, Refusal>,
) -> Result<(), AllocError>
    ensures { OnOk result (string_bytes text.new ≡ string_bytes text.old ++ line_behind answer.now) }
{
    let line = reply(alloc, answer)?;
    text.push('\n')?;
    text.push_str(&line)
}

/// The line of a reply to what was submitted: that of the same answer to an event line.
pub fn line_of_reply(alloc: Global, reply: &Reply) -> Result<String, AllocError>
    ensures { IfOk result (λ text. IsReply (answer_of reply.now) (string_bytes text)) }
{
    match reply {
        Reply::Done(outs) => line_of_outs(alloc, outs),
        Reply::Refused(refusal) => line_of_refusal(alloc, *refusal),
    }
}
