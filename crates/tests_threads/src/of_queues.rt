//! A queue of one place, and two passes of it. What each call says is said by contracts, but for a queue of several
//! passes they allow that no job finds a place and none is taken.

ghost use Rattle.std.specs.Prelude.{◌≡◌, ◌≤◌, length};
ghost use Rattle.std.specs.List.{All};
ghost use Rattle.pool_queue.specs.Queues.{IsOf};

use pool_queue::{Job, Pass, Queue};
use scp_types::Event;
use std::alloc::Global;
use std::sync::Wait;
use std::test::Fail;

fn job(network: u32) -> Job {
    Job {
        network,
        event: Event::OpenSlot { slot: 1 },
    }
}

/// Puts a job of this network, and says which was handed back.
fn put<R: Wait>(rt: &R, queue: &Queue, pass: &mut Pass, network: u32) -> Option<u32>
    requires { IsOf queue.now pass.old }
    ensures { IsOf queue.now pass.new }
{
    match queue.put(rt, pass, job(network)) {
        Ok(()) => None,
        Err(job) => Some(job.network),
    }
}

/// Takes a job, and says of which network.
fn take<R: Wait>(rt: &R, queue: &Queue, pass: &mut Pass) -> Option<u32>
    requires { IsOf queue.now pass.old }
    ensures { IsOf queue.now pass.new }
{
    match queue.take(rt, pass) {
        Some(job) => Some(job.network),
        None => None,
    }
}

/// By the first pass a job is put, and one more; by the second, a job is taken, and one more.
fn put_and_take<R: Wait>(rt: &R, queue: &Queue, passes: &mut Vec<Pass>) -> [Option<u32>; 4]
    requires two { 2 ≤ length passes.old.items }
    requires theirs { All (IsOf queue.now) passes.old.items }
{
    let first = put(rt, queue, &mut passes[0], 1);
    let second = put(rt, queue, &mut passes[0], 2);
    let third = take(rt, queue, &mut passes[1]);
    let fourth = take(rt, queue, &mut passes[1]);
    [first, second, third, fourth]
}

/// What a new queue of one place answers to these four calls.
fn use_queue<R: Wait>(rt: &R, alloc: Global) -> Option<[Option<u32>; 4]> {
    let (queue, mut passes) = Queue::new(alloc, 1, 2).ok()?;
    Some(put_and_take(rt, &queue, &mut passes))
}

/// The network of the copy of a job.
fn network_of_copy(alloc: Global, network: u32) -> Option<u32> {
    let copy = job(network).try_copy(alloc).ok()?;
    Some(copy.network)
}

#[test]
fn a_job_is_put_by_one_pass_and_taken_by_another(rt: HostRuntime) -> Result<(), Fail> {
    let said = use_queue(&rt, rt.alloc());
    assert_eq!(rt; said, Some([None, Some(2), Some(1), None]));
    assert_eq!(rt; network_of_copy(rt.alloc(), 3), Some(3));
    Ok(())
}
