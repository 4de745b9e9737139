//! Where the steps that were submitted to two networks part.

ghost use Rattle.std.specs.Prelude.{◌≡◌, IfOk, MatchOption};
ghost use Rattle.scp_spec.specs.Sets.{among};
ghost use Rattle.scp_spec.specs.Verdicts.{IsFirstDifference};
ghost use Rattle.host_closure.specs.Announcing.{member_names};
ghost use Rattle.host_compare.specs.Submitted.{concerning_steps_in};

use crate::concerning::concerning_events;
use crate::events::is_same_step;
use host_closure::ClosureList;
use scp_types::Event;
use std::alloc::{AllocError, Global};

/// The number of steps that concern the members and agree before the first difference, if there is one. An error says
/// that it is out of memory.
pub(crate) fn first_difference(
    alloc: Global,
    one: &[(u32, Event)],
    other: &[(u32, Event)],
    net: u32,
    members: &ClosureList,
    slot: u64,
) -> Result<Option<usize>, AllocError>
    ensures { IfOk result (λ o. MatchOption o (concerning_steps_in (among (member_names members.now)) slot net one.now ≡ concerning_steps_in (among (member_names members.now)) slot net other.now) (IsFirstDifference (concerning_steps_in (among (member_names members.now)) slot net one.now) (concerning_steps_in (among (member_names members.now)) slot net other.now))) }
{
    let ones = concerning_events(alloc, one, net, members, slot)?;
    let others = concerning_events(alloc, other, net, members, slot)?;
    Ok(host_closure::first_difference(&ones, &others, |event, counterpart| {
        is_same_step(event, counterpart)
    }))
}
