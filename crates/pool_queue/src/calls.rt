//! Making a queue, putting and taking, and closing it.

ghost use Rattle.std.specs.Prelude.{◌≡◌, ◌<◌, ◌≤◌, ◌+◌, ℕ, length, [], ◌∷◌, ◌++◌, IfOk, MatchResult, MatchOption};
ghost use Rattle.crossbeam_queue.specs.Passes.{view};
ghost use Rattle.pool_queue.specs.Hands.{hand, MayHaveMany, weigh, all_parts};
ghost use Rattle.pool_queue.specs.Queues.{IsPassOfQueue, AllPasses, IsOf, IsFresh, parts_by, put_by, taken_by};
ghost use Rattle.pool_queue.specs.declared.rule.Job.{Job};

use crate::closing::{drain, gather};
use crate::line::Queue;
use crate::opening::share_out;
use crate::rule::{Job, Pass, Puts, RuledQueue, Takes};
use std::alloc::{AllocError, Global};
use std::sync::Wait;

impl Queue {
    /// An empty queue that holds at most `capacity` jobs, 1 to 65,536, and `passes` passes, 1 to 64, by which nothing
    /// was put or taken. An error says that it is out of memory; nothing after it takes memory.
    pub fn new(
        alloc: Global,
        capacity: usize,
        passes: usize,
    ) -> Result<(Queue, Vec<Pass>), AllocError>
        requires capacity { (0 < capacity) × (capacity ≤ 65536) }
        requires passes { (0 < passes) × (passes ≤ all_parts) }
        ensures { IfOk result (λ r. (r.0.capacity ≡ capacity) × (length r.1.items ≡ passes) × (parts_by r.1.items ≡ all_parts) × AllPasses (IsFresh r.0) r.1.items) }
    {
        let all = Vec::with_capacity(alloc, passes)?;
        let room = Vec::with_capacity(alloc, capacity)?;
        let (line, first) = RuledQueue::ruled(alloc, capacity)?;
        let all = share_out(&line, first, passes, all);
        Ok((
            Queue {
                line,
                capacity,
                room,
            },
            all,
        ))
    }

    /// Puts a job. If the queue is full, the job is handed back, and the pass is as it was. It does not wait for room,
    /// but it may wait while a call of another thread is under way.
    ///
    /// A job is handed back only if the queue may be full: there are calls of the other passes with which it holds as
    /// many jobs as its capacity. On a queue of one pass, which has made all calls, its own puts less its takes are
    /// then exactly the capacity.
    pub fn put<R: Wait>(&self, rt: &R, pass: &mut Pass, job: Job) -> Result<(), Job>
        requires pass { IsPassOfQueue self.now pass.old }
        requires part { 0 < (view pass.old).parts }
        ensures pass { IsPassOfQueue self.now pass.new }
        ensures put { MatchResult result (λ _. view pass.new ≡ hand (view pass.old).parts ((view pass.old).put ++ job ∷ []) (view pass.old).taken) (λ x. (x ≡ job) × (view pass.new ≡ view pass.old) × MayHaveMany self.now.capacity (view pass.old)) }
        ensures alone { (view pass.old).parts ≡ all_parts → MatchResult result (λ _. Unit {0}) (λ _. length (view pass.old).put ≡ length (view pass.old).taken + self.now.capacity) }
    {
        self.line.push_as::<Puts, R>(rt, pass, job)
    }

    /// Takes a job, which no other pass then has. `None` says that there is none, and the pass is as it was.
    /// It does not wait for a job, but it may wait while a call of another thread is under way.
    ///
    /// It answers `None` only if the queue may be empty: there are calls of the other passes with which it holds no
    /// job. On a queue of one pass as many jobs were then taken as were put.
    pub fn take<R: Wait>(&self, rt: &R, pass: &mut Pass) -> Option<Job>
        requires pass { IsPassOfQueue self.now pass.old }
        requires part { 0 < (view pass.old).parts }
        ensures pass { IsPassOfQueue self.now pass.new }
        ensures take { MatchOption result ((view pass.new ≡ view pass.old) × MayHaveMany 0 (view pass.old)) (λ x. view pass.new ≡ hand (view pass.old).parts (view pass.old).put ((view pass.old).taken ++ x ∷ [])) }
        ensures alone { (view pass.old).parts ≡ all_parts → MatchOption result (length (view pass.old).put ≡ length (view pass.old).taken) (λ _. Unit {0}) }
    {
        self.line.pop_as::<Takes, R>(rt, pass)
    }

    /// Ends the queue, with all its passes, and hands over the jobs that are left. It takes no memory, and may
    /// wait as `take` may.
    ///
    /// Whatever each job weighs, what was put by all passes weighs what was taken by them and what is left: so
    /// no job is lost, and none comes twice.
    pub fn close<R: Wait>(self, rt: &R, passes: Vec<Pass>) -> Vec<Job>
        requires all { parts_by passes.items ≡ all_parts }
        requires passes { AllPasses (IsOf self) passes.items }
        ensures { (h : Job → ℕ) → put_by h passes.items ≡ taken_by h passes.items + weigh h result.items }
    {
        let Queue {
            line,
            capacity: _,
            room,
        } = self;
        let mut whole = gather(&line, passes);
        drain(rt, &line, &mut whole, room)
    }
}
