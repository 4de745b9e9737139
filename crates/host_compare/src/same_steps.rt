//! Which kept steps of two worlds are the same.

ghost use Rattle.std.specs.Prelude.{◌≡◌, ◌↔◌, IsTrue, option_map};
ghost use Rattle.host_journal.specs.Lending.{lent_step};
ghost use Rattle.host_compare.specs.Steps.{core, event_at};

use host_journal::{Journal, LentEvent};
use node_store::Shelf;
use scp_types::Envelope;

/// Whether two entries, one of each journal, are the same step: the same happened to the same node. Not compared are
/// slots, and what a Hear hands over. Numbers past the last entry count as the same.
pub fn is_same_at<S: Shelf, T: Shelf>(
    one: &Journal<S>,
    number: usize,
    other: &Journal<T>,
    counterpart: usize,
) -> bool
    ensures { IsTrue result ↔ option_map core (event_at one.now.entries number) ≡ option_map core (event_at other.now.entries counterpart) }
{
    match (one.event(number), other.event(counterpart)) {
        (None, None) => true,
        (Some(one), Some(other)) => is_same(&one, &other),
        _ => false,
    }
}

fn is_same(one: &LentEvent<'_>, other: &LentEvent<'_>) -> bool
    ensures { IsTrue result ↔ core (lent_step one.now) ≡ core (lent_step other.now) }
{
    match one {
        LentEvent::OpenSlot { .. } => matches!(other, LentEvent::OpenSlot { .. }),
        LentEvent::CloseSlot { .. } => matches!(other, LentEvent::CloseSlot { .. }),
        LentEvent::Propose { node, value, .. } => matches!(
            other,
            LentEvent::Propose { node: by, value: it, .. }
                if node.is_same(by) && value.as_slice() == it.as_slice()
        ),
        LentEvent::Deliver { node, envelope, .. } => matches!(
            other,
            LentEvent::Deliver { node: by, envelope: it, .. }
                if node.is_same(by) && is_same_envelope(envelope, it)
        ),
        LentEvent::Hear {
            node,
            from,
            kind,
            number,
            ..
        } => matches!(
            other,
            LentEvent::Hear { node: by, from: of, kind: it, number: nth, .. }
                if node.is_same(by) && from.is_same(of) && *kind == *it && *number == *nth
        ),
        LentEvent::NominationTimer { node, round, .. } => matches!(
            other,
            LentEvent::NominationTimer { node: by, round: it, .. }
                if node.is_same(by) && *round == *it
        ),
        LentEvent::BallotTimer { node, counter, .. } => matches!(
            other,
            LentEvent::BallotTimer { node: by, counter: it, .. }
                if node.is_same(by) && *counter == *it
        ),
        LentEvent::Reslice { node, slices, .. } => matches!(
            other,
            LentEvent::Reslice { node: by, slices: it, .. }
                if node.is_same(by) && slices.is_same(it)
        ),
    }
}

fn is_same_envelope(one: &Envelope, other: &Envelope) -> bool
    ensures { IsTrue result ↔ one.now ≡ other.now }
{
    one.sender().is_same(other.sender())
        && one.slot() == other.slot()
        && one.slices().is_same(other.slices())
        && one.body().is_same(other.body())
}
