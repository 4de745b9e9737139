//! Room for a large event, made before it is applied.

ghost use Rattle.std.specs.Prelude.{◌≡◌, OnOk, box_value, is_some, true};
ghost use Rattle.host_journal.specs.Boxing.{HasBoxFor, is_large, is_wide};

use scp_types::Event;
use std::alloc::{AllocError, Global};

/// A box for an event that brings a value, slices of its own or wide numbers, so that the entries of all others are
/// small. If such an event is refused, the box stays for the next one; what lies in it until then means nothing.
#[derive(Drop)]
pub(crate) struct EventRoom {
    boxed: Option<Box<Event>>,
}

impl EventRoom {
    /// No room. It takes no memory.
    pub(crate) fn nothing() -> EventRoom {
        EventRoom { boxed: None }
    }

    /// Makes room for this event, if it is large and there is none yet. An error says that it is out of memory.
    pub(crate) fn make(&mut self, alloc: Global, event: &Event) -> Result<(), AllocError>
        ensures { OnOk result (HasBoxFor event.now self.new) }
    {
        if is_large(event) && self.boxed.is_none() {
            match Box::new(alloc, Event::CloseSlot { slot: 0 }) {
                Ok(boxed) => self.boxed = Some(boxed),
                // Memory: the event has no room.
                Err(_) => return Err(AllocError),
            }
        }
        Ok(())
    }

    /// The event, in the box that was made for it. It takes no memory.
    pub(crate) fn fill(&mut self, event: Event) -> Box<Event>
        requires { is_some self.old.boxed ≡ true }
        ensures { box_value result ≡ event }
    {
        let Some(mut boxed) = self.boxed.take() else {
            unreachable!()
        };
        *boxed = event;
        boxed
    }
}

/// Whether an event brings a value or slices of its own, or is a hearing at a slot or with a number of more than 32
/// bits.
pub(crate) fn is_large(event: &Event) -> bool
    ensures { result ≡ is_large event.now }
{
    match event {
        Event::Propose { .. } | Event::Reslice { .. } => true,
        Event::Hear { slot, number, .. } => is_wide(*slot) || is_wide(*number),
        _ => false,
    }
}

fn is_wide(number: u64) -> bool
    ensures { result ≡ is_wide number }
{
    number > u32::MAX as u64
}
