//! A task, and the place from which a thread takes it.

ghost use Rattle.pool_queue.specs.Doing.{IsInPlace};

use counted_slot::Fits;
use std::snapshot::Snapshot;

/// What any thread can do. `does` says what the task may be behind it.
pub trait Task {
    ghost does: { Self → Self → Type 0 };

    fn run(&mut self)
        ensures { does self.old self.new };
}

/// A task, and whether it is done.
#[derive(Drop)]
pub(crate) struct Held<T: Task> {
    pub task: T,
    pub is_done: bool,
}

impl<T: Task> Fits for Held<T> {
    type Tag = Snapshot<T>;

    ghost fits = { λ was held. IsInPlace T.does was.value held.task held.is_done };
}
