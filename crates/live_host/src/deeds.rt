//! What a line did to its network.

ghost use Rattle.std.specs.Prelude.{◌≡◌, true};
ghost use Rattle.live_host.specs.Hosts.{deed_at, deed_of, done_if, drawn_between};

use host_network::Used;
use live_feed::{Deed, Done, Drawn};
use live_network::Served;
use scp_types::Event;

/// This was done to the network of a number.
pub(crate) fn done_to(network: u32, deed: Deed) -> Option<Done>
    ensures { result ≡ done_if true network deed }
{
    Some(Done { network, deed })
}

/// What was drawn on the budgets of a network, by what it had used up before and afterwards.
pub(crate) fn drawn_between(before: Used, after: Used) -> Drawn
    ensures { result ≡ drawn_between before after }
{
    Drawn {
        events: after.events.saturating_sub(before.events),
        bytes: after.bytes.saturating_sub(before.bytes),
        opens: after.opens.saturating_sub(before.opens),
    }
}

/// What an event did that was served, and drew `drawn`.
pub(crate) fn deed_of(event: &Event, served: &Served, drawn: Drawn) -> Deed
    ensures { result ≡ deed_of event.now served.now drawn }
{
    match served.refused {
        Some(_) => Deed::Refused,
        None => deed_at(event, served.slot, drawn),
    }
}

/// What an event did that was applied, and drew `drawn`: at the slot that it opened or closed, or else at `slot`.
fn deed_at(event: &Event, slot: u64, drawn: Drawn) -> Deed
    ensures { result ≡ deed_at event.now slot drawn }
{
    match event {
        Event::OpenSlot { slot: opened } => Deed::Applied(*opened, drawn),
        Event::CloseSlot { slot: closed } => Deed::Closed(*closed, drawn),
        _ => Deed::Applied(slot, drawn),
    }
}
