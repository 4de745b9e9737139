//! Emissions by the names under which other nodes hear them.

ghost use Rattle.std.specs.Prelude.{◌≡◌, ◌++◌, OnOk};
ghost use Rattle.scp_types.specs.declared.event.Event.TheVariants.{Hear};
ghost use Rattle.scp_spec.specs.Networks.{emissions};
ghost use Rattle.host_network.specs.Marks.{named};

use scp_types::{Event, Kind, NodeId, Out};
use std::alloc::AllocError;

/// The name by which another node hears an emission: by whom, of which kind, and its number among those of that kind
/// since the slot was opened, from 1 on.
#[derive(Clone, Copy)]
pub struct Emission {
    pub from: NodeId,
    pub kind: Kind,
    pub number: u64,
}

/// The event by which a node hears an emission.
pub fn hearing(slot: u64, node: NodeId, emission: &Emission) -> Event
    ensures { result ≡ Hear slot node emission.now.from emission.now.kind emission.now.number }
{
    Event::Hear {
        slot,
        node,
        from: emission.from,
        kind: emission.kind,
        number: emission.number,
    }
}

/// Has the emissions among these outs wait behind the others, each by its number. If it is out of memory, a part may
/// have been added.
#[inline(always)]
pub fn push_named(
    outs: &[Out],
    marks: &[u64],
    waiting: &mut Vec<Emission>,
) -> Result<(), AllocError>
    ensures { OnOk result (waiting.new.items ≡ waiting.old.items ++ named (emissions outs.now) marks.now) }
{
    match outs {
        [] => Ok(()),
        [Out::Emit(envelope), more @ ..] => match marks {
            [] => Ok(()),
            [number, rest @ ..] => {
                let emission = Emission {
                    from: *envelope.sender(),
                    kind: envelope.body().kind(),
                    number: *number,
                };
                match waiting.push(emission) {
                    Ok(()) => push_named(more, rest, waiting),
                    // Memory: the list has no room.
                    Err(_) => Err(AllocError),
                }
            }
        },
        [_, more @ ..] => push_named(more, marks, waiting),
    }
}
