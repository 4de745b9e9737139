//! Doing all tasks, by several threads.

ghost use Rattle.std.specs.Prelude.{◌≡◌, ◌≤◌, [], IfSome, length, vec_capacity};
ghost use Rattle.std.specs.List.{AllZip};
ghost use Rattle.std.specs.Thread.{IsSend, IsSync};
ghost use Rattle.pool_queue.specs.Doing.{AreTasksDone};

use crate::task::{Held, Task};
use counted_slot::{Counted, FREE, MARKED, PRESENT, TAKEN};
use std::alloc::Global;
use std::snapshot::Snapshot;
use std::thread;
use std::thread::Threads;

/// Does all tasks, and gives them back in their order. This thread does them with at most `threads` - 1 others, as many
/// as can be started. If it is out of memory, this thread does all. `None` would say that a thread took a task and did
/// not bring it back; each of them does.
pub fn do_all<R: Threads + Sync, T: Task + Send + Sync + Drop>(
    rt: &R,
    alloc: Global,
    tasks: Vec<T>,
    threads: usize,
) -> Option<Vec<T>>
    ensures { IfSome result (λ done. AreTasksDone T.does tasks.items done.items) }
{
    let count = tasks.len();
    let Ok(mut places) = Vec::with_capacity(alloc, count) else {
        // Memory: there is none for the places.
        return Some(do_in_turn(tasks));
    };
    let Ok(done) = Vec::with_capacity(alloc, count) else {
        // Memory: there is none for what is done.
        drop(places);
        return Some(do_in_turn(tasks));
    };
    for task in tasks {
        let was = Snapshot::of(&task);
        let held = Held {
            task,
            is_done: false,
        };
        places.push_reserved(Counted::new(Some(held), &was));
    }
    let share = count.checked_div(threads).unwrap_or(0);
    do_by(rt, places.as_slice(), share, threads.saturating_sub(1));
    take_back(places, done)
}

fn do_in_turn<T: Task>(mut tasks: Vec<T>) -> Vec<T>
    ensures { AreTasksDone T.does tasks.items result.items }
{
    for place in 0..tasks.len() {
        tasks[place].run();
    }
    tasks
}

/// Does those of the tasks that no thread has taken, by this thread and at most `others` others. They are started one
/// after the other: two that start at once may be put on one processor, where each waits for the other.
#[cycle(starting)]
fn do_by<R: Threads + Sync, T: Task + Send + Sync + Drop>(
    rt: &R,
    places: &[Counted<Option<Held<T>>>],
    share: usize,
    others: usize,
) {
    if others == 0 {
        do_free_from(places, 0);
        return;
    }
    let fewer = others - 1;
    let other = move || -> () { do_free_from(places, others.saturating_mul(share)) };
    let rest = move || -> ()
        requires { IsSync R.row × IsSend T.row × IsSync T.row }
    { do_by(rt, places, share, fewer) };
    let (_, _) = thread::join(rt, other, rest);
}

/// Does those of the tasks that no thread has taken, from a place on and then those before it. So each thread begins
/// with a share of its own, which is likely the same of many calls, and what it needs may still be near.
fn do_free_from<T: Task + Drop>(places: &[Counted<Option<Held<T>>>], from: usize) {
    let from = from.min(places.len());
    do_free(&places[from..]);
    do_free(&places[..from]);
}

/// Does those of the tasks that no thread has taken.
fn do_free<T: Task + Drop>(places: &[Counted<Option<Held<T>>>]) {
    for place in places {
        do_if_free(place);
    }
}

/// Does a task unless a thread has taken it.
fn do_if_free<T: Task + Drop>(place: &Counted<Option<Held<T>>>) {
    let (found, claim) = place.turn(FREE, TAKEN);
    if found != FREE {
        claim.done();
        return;
    }
    let Some(Held { mut task, is_done }) = claim.put(None, PRESENT) else {
        return;
    };
    if !is_done {
        task.run();
    }
    let (found, claim) = place.turn(PRESENT, TAKEN);
    if found == PRESENT {
        let held = Held {
            task,
            is_done: true,
        };
        drop(claim.put(Some(held), MARKED));
    } else {
        claim.done();
        drop(task);
    }
}

/// The tasks, out of their places. What no thread has done is done now.
fn take_back<T: Task + Drop>(
    places: Vec<Counted<Option<Held<T>>>>,
    mut done: Vec<T>,
) -> Option<Vec<T>>
    requires none { done.items ≡ [] }
    requires room { length places.items ≤ vec_capacity done }
    ensures { IfSome result (λ all. AllZip (λ was task. T.does was.value task) places.items all.items) }
{
    for place in places {
        let Some(Held { mut task, is_done }) = place.into_inner() else {
            drop(done);
            return None;
        };
        if !is_done {
            task.run();
        }
        done.push_reserved(task);
    }
    Some(done)
}
