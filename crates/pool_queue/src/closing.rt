//! All passes made one, and all jobs taken by it.

ghost use Rattle.std.specs.Prelude.{vec_capacity, vec_len, ◌≡◌, ◌≤◌, ◌+◌, ℕ, []};
ghost use Rattle.crossbeam_queue.specs.Passes.{view, IsPassOf, ruled_capacity};
ghost use Rattle.pool_queue.specs.Hands.{all_parts, weigh};
ghost use Rattle.pool_queue.specs.Queues.{AllPasses, IsOn, parts, parts_by, put_by, taken_by};
ghost use Rattle.pool_queue.specs.declared.rule.Job.{Job};

use crate::rule::{CutsOff, Job, Pass, RuledQueue, Takes};
use std::sync::Wait;

/// One pass that has put and taken what all of them have.
pub(crate) fn gather(line: &RuledQueue, mut passes: Vec<Pass>) -> Pass
    requires all { parts_by passes.items ≡ all_parts }
    requires passes { AllPasses (IsOn line.now) passes.items }
    ensures pass { IsPassOf line.now result × (parts result ≡ all_parts) }
    ensures sums { (h : Job → ℕ) → (weigh h (view result).put ≡ put_by h passes.items) × (weigh h (view result).taken ≡ taken_by h passes.items) }
{
    let Some(mut whole) = passes.pop() else {
        unreachable!()
    };
    while let Some(pass) = passes.pop() {
        line.absorb::<CutsOff>(&mut whole, pass);
    }
    whole
}

/// All jobs that the queue holds, in the room that is there for them.
pub(crate) fn drain<R: Wait>(
    rt: &R,
    line: &RuledQueue,
    whole: &mut Pass,
    mut room: Vec<Job>,
) -> Vec<Job>
    requires pass { IsPassOf line.now whole.old × (parts whole.old ≡ all_parts) }
    requires room { (ruled_capacity line.now ≤ vec_capacity room) × (vec_len room ≡ 0) × (room.items ≡ []) }
    ensures { (h : Job → ℕ) → weigh h (view whole.old).put ≡ weigh h (view whole.old).taken + weigh h result.items }
{
    let many = line.len_as::<Takes, R>(rt, whole);
    for _taken in 0..many {
        let Some(job) = line.pop_as::<Takes, R>(rt, whole) else {
            // No other pass can have taken it.
            unreachable!()
        };
        room.push_reserved(job);
    }
    line.learn_as::<Takes>(whole);
    room
}
