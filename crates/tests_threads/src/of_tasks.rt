//! Tasks that threads share out. That each of them comes back, and that several threads do them, no contract says.

use pool_queue::{Task, do_all};
use std::alloc::Global;
use std::test::Fail;
use std::thread::Threads;

/// A task with its number, and how often it was done.
#[derive(Drop)]
struct Numbered {
    number: usize,
    times: u64,
}

impl Task for Numbered {
    ghost use Rattle.std.specs.Prelude.{◌≡◌};

    ghost does = { λ old new. new.number ≡ old.number };

    fn run(&mut self) {
        self.times = self.times.saturating_add(1);
    }
}

/// `count` tasks with their numbers, in their order; `None` if it is out of memory.
fn all_numbered(alloc: Global, count: usize) -> Option<Vec<Numbered>> {
    let mut tasks = Vec::new(alloc);
    for number in 0..count {
        tasks.push(Numbered { number, times: 0 }).ok()?;
    }
    Some(tasks)
}

/// Has `threads` threads do `count` tasks. Says how many came back that were done once and stand in their order, or
/// `None` if it is out of memory or a task did not come back.
fn well_done<R: Threads + Sync>(
    rt: &R,
    alloc: Global,
    count: usize,
    threads: usize,
) -> Option<usize> {
    let done = do_all(rt, alloc, all_numbered(alloc, count)?, threads)?;
    let mut well = 0usize;
    for (place, task) in done.iter().enumerate() {
        if task.number == place && task.times == 1 {
            well = well.saturating_add(1);
        }
    }
    drop(done);
    Some(well)
}

#[test]
fn each_task_is_done_once_and_stands_in_its_place(rt: HostRuntime) -> Result<(), Fail> {
    let alloc = rt.alloc();
    for threads in [0, 1, 2, 3, 16] {
        for count in [0, 1, 2, 7, 1000] {
            assert_eq!(rt; well_done(&rt, alloc, count, threads), Some(count));
        }
    }
    Ok(())
}
