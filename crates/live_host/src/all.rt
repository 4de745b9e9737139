//! Bytes that come to each hosted node of a network.

ghost use Rattle.std.specs.Prelude.{◌≡◌, ◌++◌, ◌∷◌, [], IfOk, List, OnOk, string_bytes};
ghost use Rattle.std.specs.List.{flat_map};
ghost use Rattle.scp_types.specs.declared.event.Event.TheVariants.{Deliver};
ghost use Rattle.host_network.specs.Decoding.{reading, said_by, step_of};
ghost use Rattle.live_network.specs.Telling.{IsServedBy};
ghost use Rattle.live_host.specs.Hosts.{AreServed, better_closing, closing_of_answers, deed_of_all, lines_of_answer, lines_of_answers, slot_of_answers};
ghost use Rattle.live_host.specs.declared.all.NodeAnswer.{NodeAnswer};

use crate::block::{Closing, Place, ending, push_refused, push_told};
use host_network::{Reading, read};
use live_feed::{Deed, Drawn};
use live_network::{Served, ServedNetwork};
use node_store::Shelf;
use scp_types::{Bytes, NodeId, Refusal};
use std::alloc::{AllocError, Global};

/// What came of bytes that reached a node.
#[derive(Drop)]
pub(crate) struct NodeAnswer {
    pub node: NodeId,
    pub served: Served,
}

/// The bytes come to each of these nodes, one after the other, and what came of it is added, in order. They are read once
/// for all. An error says that it is out of memory, or that a value or slices have too many owners; then some may have
/// been served.
pub(crate) fn serve_each<S: Shelf + Drop>(
    alloc: Global,
    network: &mut ServedNetwork<S>,
    names: &[NodeId],
    bytes: &Bytes,
    answers: &mut Vec<NodeAnswer>,
) -> Result<(), AllocError>
    ensures { OnOk result ((more : List NodeAnswer) × (answers.new.items ≡ answers.old.items ++ more) × AreServed bytes.now names.now network.old more network.new) }
{
    let said = read(alloc, bytes.as_slice())?;
    let served = serve_said(network, names, bytes, &said, answers);
    drop(said);
    served
}

/// Bytes that say this come to each of these nodes. An error is as that of [`serve_each`].
fn serve_said<S: Shelf + Drop>(
    network: &mut ServedNetwork<S>,
    names: &[NodeId],
    bytes: &Bytes,
    said: &Reading,
    answers: &mut Vec<NodeAnswer>,
) -> Result<(), AllocError>
    requires { said_by said.now ≡ reading bytes.now }
    ensures { OnOk result ((more : List NodeAnswer) × (answers.new.items ≡ answers.old.items ++ more) × AreServed bytes.now names.now network.old more network.new) }
{
    let [node, rest @ ..] = names else {
        return Ok(());
    };
    let answer = serve_one(network, *node, bytes, said)?;
    push(answers, answer)?;
    serve_said(network, rest, bytes, said, answers)
}

fn serve_one<S: Shelf + Drop>(
    network: &mut ServedNetwork<S>,
    node: NodeId,
    bytes: &Bytes,
    said: &Reading,
) -> Result<NodeAnswer, AllocError>
    requires { said_by said.now ≡ reading bytes.now }
    ensures { IfOk result (λ a. (a.node ≡ node) × IsServedBy network.old (step_of (Deliver node bytes.now)) network.new a.served) }
{
    let size = bytes.as_slice().len() as u64;
    let served = network.serve_read(&node, said, size)?;
    Ok(NodeAnswer { node, served })
}

fn push(answers: &mut Vec<NodeAnswer>, answer: NodeAnswer) -> Result<(), AllocError>
    ensures { OnOk result (answers.new.items ≡ answers.old.items ++ answer ∷ []) }
{
    match answers.push(answer) {
        Ok(()) => Ok(()),
        // Memory: the list has no room.
        Err(_) => Err(AllocError),
    }
}

/// Adds the lines of all nodes, if one of them was not refused.
pub(crate) fn push_answers(
    text: &mut String,
    place: Place,
    answers: &[NodeAnswer],
) -> Result<(), AllocError>
    ensures { OnOk result (string_bytes text.new ≡ string_bytes text.old ++ lines_of_answers (slot_of_answers answers.now) place.bytes place.line place.network answers.now) }
{
    match slot_of_answers(answers) {
        Some(slot) => push_all(text, place, slot, answers),
        None => Ok(()),
    }
}

/// What the bytes did that came to all nodes and drew `drawn`: if a node did not refuse them, they were applied at its
/// slot.
pub(crate) fn deed_of_all(answers: &[NodeAnswer], drawn: Drawn) -> Deed
    ensures { result ≡ deed_of_all (slot_of_answers answers.now) drawn }
{
    match slot_of_answers(answers) {
        Some(slot) => Deed::Applied(slot, drawn),
        None => Deed::Refused,
    }
}

/// The slot of the first of them that was not refused.
fn slot_of_answers(answers: &[NodeAnswer]) -> Option<u64>
    ensures { result ≡ slot_of_answers answers.now }
{
    match answers {
        [] => None,
        [first, rest @ ..] => match first.served.refused {
            None => Some(first.served.slot),
            Some(_) => slot_of_answers(rest),
        },
    }
}

/// Adds the lines of each node at a slot.
fn push_all(
    text: &mut String,
    place: Place,
    slot: u64,
    answers: &[NodeAnswer],
) -> Result<(), AllocError>
    ensures { OnOk result (string_bytes text.new ≡ string_bytes text.old ++ flat_map (lines_of_answer place.bytes place.line place.network slot) answers.now) }
{
    for answer in answers {
        push_answer(text, place, slot, answer)?;
    }
    Ok(())
}

/// Adds the lines of a node: what was told, or why it was refused.
fn push_answer(
    text: &mut String,
    place: Place,
    slot: u64,
    answer: &NodeAnswer,
) -> Result<(), AllocError>
    ensures { OnOk result (string_bytes text.new ≡ string_bytes text.old ++ lines_of_answer place.bytes place.line place.network slot answer.now) }
{
    match answer.served.refused {
        None => push_told(text, place, slot, &answer.served.told),
        Some(refusal) => push_refused(text, place, slot, &answer.node, refusal),
    }
}

/// How the answer ends: `ok` if one node took them, else `stale` if one was not refused, else the first refusal.
pub(crate) fn closing_of_answers(answers: &[NodeAnswer]) -> Closing
    ensures { result ≡ closing_of_answers answers.now }
{
    match answers {
        [] => Closing::Refused(Refusal::NoSuchNode),
        [first, rest @ ..] => better(ending(&first.served), closing_of_answers(rest)),
    }
}

/// Of two closings `ok`, else `stale`, else the first.
fn better(one: Closing, other: Closing) -> Closing
    ensures { result ≡ better_closing one other }
{
    match (one, other) {
        (Closing::Taken, _) => one,
        (_, Closing::Taken) => other,
        (Closing::Stale, _) => one,
        (_, Closing::Stale) => other,
        (Closing::Refused(_), _) => one,
        (Closing::Bad, _) => other,
    }
}
