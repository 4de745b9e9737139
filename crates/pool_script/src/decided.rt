//! What the hosted nodes of a network have externalized at its open slots.
//!
//! An error of a function here says that it is out of memory.

ghost use Rattle.std.specs.Prelude.{◌≡◌, ◌++◌, IfOk, OnOk, filter, not, ◌==◌, option_map, slice_get};
ghost use Rattle.host_journal.specs.Deciding.{decisions_at};
ghost use Rattle.pool_script.specs.Decisions.{IsDecided, closed_at, decided_past, standing_in};

use host_journal::{Journal, LentEvent};
use node_store::Shelf;
use scp_types::{NodeId, Value};
use std::alloc::{AllocError, Global};
use std::marker::Model;

/// What a hosted node has externalized at a slot.
#[derive(Drop)]
pub struct ExternalizedValue {
    pub slot: u64,
    pub node: NodeId,
    pub value: Value,
}

impl Model for ExternalizedValue {
    ghost use Rattle.host_journal.specs.Deciding.{ExternalizedValue};

    ghost Value = { ExternalizedValue };

    ghost view = { λ d. record { slot = d.slot; node = d.node; value = d.value } };
}

/// What the nodes of a journal have externalized at slots that no later entry closes, ascending by slot and
/// then by name.
pub fn decided_in<S: Shelf>(
    alloc: Global,
    journal: &Journal<S>,
) -> Result<Vec<ExternalizedValue>, AllocError>
    ensures { IfOk result (λ v. IsDecided journal.now.entries v.items) }
{
    let mut found = decided_in_order(alloc, journal)?;
    found.sort_unstable_by_key(
        |decided| -> (u64, NodeId)
            ensures { result ≡ (decided.now.slot, decided.now.node) }
        { (decided.slot, decided.node) },
    );
    Ok(found)
}

/// What [`decided_in`] answers, in the order of the entries.
fn decided_in_order<S: Shelf>(
    alloc: Global,
    journal: &Journal<S>,
) -> Result<Vec<ExternalizedValue>, AllocError>
    ensures { IfOk result (λ v. v.items ≡ standing_in journal.now.entries) }
{
    let mut found = Vec::new(alloc);
    for number in 0..journal.len() {
        note(journal, number, &mut found)?;
    }
    Ok(found)
}

/// Takes away what was externalized at the slot that the entry of this number closes, and adds what it
/// decides.
fn note<S: Shelf>(
    journal: &Journal<S>,
    number: usize,
    found: &mut Vec<ExternalizedValue>,
) -> Result<(), AllocError>
    ensures { OnOk result (found.new.items ≡ decided_past found.old.items (slice_get journal.now.entries number)) }
{
    if let Some(slot) = closed_at(journal, number) {
        forget(slot, found);
    }
    push_decision(journal, number, found)
}

fn closed_at<S: Shelf>(journal: &Journal<S>, number: usize) -> Option<u64>
    ensures { result ≡ closed_at (slice_get journal.now.entries number) }
{
    match &journal.event(number) {
        Some(LentEvent::CloseSlot { slot }) => Some(*slot),
        Some(_) => None,
        None => None,
    }
}

fn forget(slot: u64, found: &mut Vec<ExternalizedValue>)
    ensures { found.new.items ≡ filter (λ d. not (d.slot == slot)) found.old.items }
{
    found.retain(
        |decided| -> bool
            ensures { result ≡ not (decided.now.slot == slot) }
        { decided.slot != slot },
    );
}

fn push_decision<S: Shelf>(
    journal: &Journal<S>,
    number: usize,
    found: &mut Vec<ExternalizedValue>,
) -> Result<(), AllocError>
    ensures { OnOk result (found.new.items ≡ found.old.items ++ decisions_at journal.now.entries number) }
{
    let Some(decision) = journal.decision(number) else {
        return Ok(());
    };
    let value = decision.value.try_copy()?;
    found.push(ExternalizedValue {
        slot: decision.slot,
        node: decision.node,
        value,
    })?;
    Ok(())
}
