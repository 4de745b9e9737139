//! The queue's parts.

ghost use Rattle.std.specs.Prelude.{◌≡◌, ◌≤◌, vec_capacity, [], vec_len};
ghost use Rattle.crossbeam_queue.specs.Passes.{ruled_capacity};

use crate::rule::{Job, RuledQueue};

/// A queue of at most `capacity` jobs, 1 to 65,536, which threads share by reference. It keeps the room for
/// the jobs that are left when it is closed.
#[derive(Drop)]
pub struct Queue {
    pub(crate) line: RuledQueue,
    pub(crate) capacity: usize,
    pub(crate) room: Vec<Job>,
    pub ghost sized: { ruled_capacity line ≡ capacity },
    pub ghost roomy: { capacity ≤ vec_capacity room },
    pub ghost empty: { (vec_len room ≡ 0) × (room.items ≡ []) },
}
