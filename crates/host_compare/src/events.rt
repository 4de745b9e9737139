//! Which submitted events are the same steps.

ghost use Rattle.std.specs.Prelude.{◌≡◌, ◌↔◌, IsTrue};
ghost use Rattle.scp_codec.specs.Steps.{IsBytes};
ghost use Rattle.host_network.specs.Decoding.{step_of};
ghost use Rattle.host_compare.specs.Submitted.{DeliversBytes};
ghost use Rattle.host_journal.specs.Keeping.{IsReadable};

use scp_types::Event;

/// Whether two events are the same step of a network. If the first delivers bytes that are no envelope, the answer may
/// also be no for the same step. Deliveries are compared by their bytes, since an envelope has only one spelling.
pub(crate) fn is_same_step(one: &Event, other: &Event) -> bool
    ensures same { IsTrue result → step_of one.now ≡ step_of other.now }
    ensures alike { IsReadable (step_of one.now) → step_of one.now ≡ step_of other.now → IsTrue result }
{
    has_bytes(one);
    has_bytes(other);
    is_same_event(one, other)
}

/// A law: what is delivered are bytes.
fn has_bytes(event: &Event)
    ensures { DeliversBytes event.now }
{
    match event {
        Event::Deliver { bytes, .. } => are_bytes(bytes.as_slice()),
        _ => (),
    }
}

/// A law: bytes are numbers below 256.
fn are_bytes(bytes: &[u8])
    ensures { IsBytes bytes.now }
{
    let _count = bytes.len();
}

fn is_same_event(one: &Event, other: &Event) -> bool
    ensures { IsTrue result ↔ one.now ≡ other.now }
{
    match one {
        Event::OpenSlot { slot } => matches!(other, Event::OpenSlot { slot: at } if *slot == *at),
        Event::CloseSlot { slot } => matches!(other, Event::CloseSlot { slot: at } if *slot == *at),
        Event::Propose { slot, node, value } => matches!(
            other,
            Event::Propose { slot: at, node: by, value: it }
                if *slot == *at && node.is_same(by) && value.as_slice() == it.as_slice()
        ),
        Event::Deliver { node, bytes } => matches!(
            other,
            Event::Deliver { node: by, bytes: it }
                if node.is_same(by) && bytes.as_slice() == it.as_slice()
        ),
        Event::Hear {
            slot,
            node,
            from,
            kind,
            number,
        } => matches!(
            other,
            Event::Hear { slot: at, node: by, from: of, kind: it, number: nth }
                if *slot == *at && node.is_same(by) && from.is_same(of)
                    && *kind == *it && *number == *nth
        ),
        Event::NominationTimer { slot, node, round } => matches!(
            other,
            Event::NominationTimer { slot: at, node: by, round: it }
                if *slot == *at && node.is_same(by) && *round == *it
        ),
        Event::BallotTimer {
            slot,
            node,
            counter,
        } => matches!(
            other,
            Event::BallotTimer { slot: at, node: by, counter: it }
                if *slot == *at && node.is_same(by) && *counter == *it
        ),
        Event::Reslice { slot, node, slices } => matches!(
            other,
            Event::Reslice { slot: at, node: by, slices: it }
                if *slot == *at && node.is_same(by) && slices.is_same(it)
        ),
    }
}
