//! A network that a worker takes.

ghost use Rattle.pool_script.specs.Errands.{HasWorkedOff};

use crate::dealing::Share;
use crate::running::{Told, run_network};
use pool_queue::Task;
use std::alloc::Global;
use std::sync::Wait;

/// What is submitted to a network, until a worker takes it, and what is told of it then, unless there is no memory.
#[derive(Drop)]
pub struct Errand<R> {
    pub rt: R,
    pub alloc: Global,
    pub share: Option<Share>,
    pub told: Option<Told>,
}

impl<R: Wait + Copy + Drop> Task for Errand<R> {
    ghost does = { HasWorkedOff };

    fn run(&mut self) {
        if let Some(share) = self.share.take() {
            self.told = run_network(&self.rt, self.alloc, share).ok();
        }
    }
}
