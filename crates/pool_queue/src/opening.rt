//! All passes made out of the first.

ghost use Rattle.std.specs.Prelude.{vec_capacity, vec_len, ◌≡◌, ◌<◌, ◌≤◌, length, []};
ghost use Rattle.crossbeam_queue.specs.Passes.{view, IsPassOf};
ghost use Rattle.pool_queue.specs.Hands.{all_parts, hand};
ghost use Rattle.pool_queue.specs.Queues.{AllPasses, IsFreshOn, parts_by};

use crate::rule::{CutsOff, Pass, RuledQueue};

/// `passes` passes, in the room that is there for them: each has one part, and the last one all others.
pub(crate) fn share_out(
    line: &RuledQueue,
    mut first: Pass,
    passes: usize,
    mut room: Vec<Pass>,
) -> Vec<Pass>
    requires first { IsPassOf line.now first × (view first ≡ hand all_parts [] []) }
    requires passes { (0 < passes) × (passes ≤ all_parts) }
    requires room { (passes ≤ vec_capacity room) × (vec_len room ≡ 0) × (room.items ≡ []) }
    ensures passes { length result.items ≡ passes }
    ensures parts { parts_by result.items ≡ all_parts }
    ensures fresh { AllPasses (IsFreshOn line.now) result.items }
{
    for _made in 1..passes {
        room.push_reserved(line.another::<CutsOff>(&mut first));
    }
    room.push_reserved(first);
    room
}
