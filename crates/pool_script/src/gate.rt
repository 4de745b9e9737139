//! A gate that nobody watches.

use pool_queue::Job;
use pool_workers::Gate;
use std::sync::Wait;

/// A gate that lets each job through and keeps nothing.
pub struct Open;

impl Gate for Open {
    fn before<R: Wait>(&self, _rt: &R, _job: &Job) {}

    fn after<R: Wait>(&self, _rt: &R, _network: u32) {}
}
