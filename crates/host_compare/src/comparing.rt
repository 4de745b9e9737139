//! Comparing two worlds.

ghost use Rattle.std.specs.Prelude.{IfOk, Some, option_map};
ghost use Rattle.scp_spec.specs.Hosts.{History};
ghost use Rattle.host_world.specs.Worlds.{AreJournalsOf, log_at};
ghost use Rattle.host_compare.specs.Meanings.{AreIsolated, IsVerdictBetween, IsVerdictOn};

use crate::cast::least_unlike;
use crate::inputs::first_difference;
use crate::outs::{hosted_members, outs_of_each};
use crate::verdict::Verdict;
use host_closure::{Announcements, closure};
use host_journal::Journal;
use host_world::World;
use node_store::Shelf;
use scp_types::{NodeId, Subject};
use std::alloc::{AllocError, Global};

/// Compares what concerned a subject in two worlds, by the closure of its node in the first of them. The subject is a
/// node of a network at a slot. A world without the network hosts nobody there. The worlds may keep their envelopes on
/// shelves of different kinds (this host's profile).
///
/// The following holds whatever is answered, even out of memory. Let both worlds host the same members of the closure
/// with the same slices, and let the steps that concern the members be the same in order. Then each hosted member gave
/// out the same in both. There is no answer for a leak. If the journals of the worlds are those of two histories of
/// hosts, the verdict is that on the histories.
///
/// Besides what the closure takes, each journal is gone through once for the steps that concern the members. The first
/// one is gone through once more for what they gave out. An error says that it is out of memory.
pub fn compare<S: Shelf, T: Shelf>(
    alloc: Global,
    one: &World<S>,
    other: &World<T>,
    subject: &Subject,
) -> Result<Verdict, AllocError>
    ensures verdict { IfOk result (λ r. IsVerdictOn (log_at one.now subject.now.net) (log_at other.now subject.now.net) subject.now.slot subject.now.node r) }
    ensures isolated { AreIsolated (log_at one.now subject.now.net) (log_at other.now subject.now.net) subject.now.slot subject.now.node }
    ensures histories { (h k : History) → AreJournalsOf h one.now → AreJournalsOf k other.now → IfOk result (IsVerdictBetween h k subject.now.net subject.now.slot subject.now.node) }
{
    let Some(journal) = one.journal(subject.net) else {
        return Ok(Verdict::CastDiffers(subject.node));
    };
    let counterpart = other.journal(subject.net);
    let verdict = compare_journal(alloc, journal, counterpart, subject.slot, &subject.node)?;
    Ok(verdict)
}

/// Compares the journal of the network in the first world with that in the second one, if it has it.
fn compare_journal<S: Shelf, T: Shelf>(
    alloc: Global,
    one: &Journal<S>,
    other: Option<&Journal<T>>,
    slot: u64,
    node: &NodeId,
) -> Result<Verdict, AllocError>
    ensures verdict { IfOk result (λ r. IsVerdictOn (Some one.now) (option_map (λ j. j.now) other.entry) slot node.now r) }
    ensures isolated { AreIsolated (Some one.now) (option_map (λ j. j.now) other.entry) slot node.now }
{
    are_isolated(one, other, slot, node);
    if one.slices(node).is_none() {
        return Ok(Verdict::CastDiffers(*node));
    }
    let members = closure(alloc, one, slot, node)?;
    if let Some(name) = least_unlike(one, other, &members) {
        return Ok(Verdict::CastDiffers(name));
    }
    let Some(other) = other else {
        // The node itself is a hosted member, and would be one that they host unlike.
        unreachable!()
    };
    let difference = first_difference(alloc, one, other, &members, slot)?;
    if let Some(place) = difference {
        return Ok(Verdict::InputsDiffer(place));
    }
    let names = hosted_members(alloc, one.config().nodes(), &members)?;
    Ok(Verdict::Same(outs_of_each(alloc, one, slot, &names)?))
}

/// A law: what two worlds have of a network is isolated.
pub(crate) fn are_isolated_at<S: Shelf, T: Shelf>(
    one: &World<S>,
    other: &World<T>,
    subject: &Subject,
)
    ensures { AreIsolated (log_at one.now subject.now.net) (log_at other.now subject.now.net) subject.now.slot subject.now.node }
{
    if let Some(journal) = one.journal(subject.net) {
        are_isolated(
            journal,
            other.journal(subject.net),
            subject.slot,
            &subject.node,
        );
    }
}

/// A law: two journals are runs, so what concerns the members decides what they give out. A world that lacks
/// the network does not host the node.
fn are_isolated<S: Shelf, T: Shelf>(
    one: &Journal<S>,
    other: Option<&Journal<T>>,
    slot: u64,
    node: &NodeId,
)
    ensures { AreIsolated (Some one.now) (option_map (λ j. j.now) other.entry) slot node.now }
{
    one.replays();
    if let Some(journal) = other {
        journal.replays();
    }
}
