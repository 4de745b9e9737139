//! What sees each application of a job begin and end.

use pool_queue::Job;
use std::sync::Wait;

/// Each worker calls it before and after each application of a job, while it has no lock. So who waits in it holds up
/// only that worker, and no network. A job of a network that is not there is no application.
///
/// Each job that `before` sees is seen again by the same thread: by `after`, or by `put_off`.
///
/// No contract says what it does: an implementation may count, wait, or let other threads go first.
pub trait Gate {
    /// The job is about to be applied by this thread.
    fn before<R: Wait>(&self, rt: &R, job: &Job);

    /// This thread has applied a job of the network with this number, or its cell has refused it.
    fn after<R: Wait>(&self, rt: &R, network: u32);

    /// This thread has found the network with this number taken, and puts the job off: `before` sees it once more, by
    /// this thread or by another. An implementation that has nothing to do here leaves it out.
    fn put_off<R: Wait>(&self, _rt: &R, _network: u32) {}
}
