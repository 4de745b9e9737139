//! A whole script on workers.

ghost use Rattle.std.specs.Prelude.{◌≡◌, ◌<◌, ◌≤◌, ◌+◌, IfOk, string_bytes};
ghost use Rattle.std.specs.List.{AllZip};
ghost use Rattle.pool_script.specs.Errands.{HaveErrands, IsTextOfErrands};
ghost use Rattle.pool_script.specs.Pooling.{IsPoolText};

use crate::dealing::{Share, deal};
use crate::errand::Errand;
use crate::lines::push_report;
use crate::running::share_out;
use host_compare::Submission;
use pool_queue::do_all;
use pool_workers::Report;
use std::alloc::{AllocError, Global};
use std::sync::Wait;
use std::thread::Threads;

/// Runs what is submitted to networks by `workers` workers, 1 to 64. Each takes one network after the other: it opens it
/// with its slots, runs all its other events as jobs, in their order, and closes it.
///
/// It answers what is printed. First comes what each node has externalized at open slots, ascending by network, slot and
/// name. Then come the length of each network's journal, and how many jobs were applied, refused and not run. A job of a
/// network that is not declared counts as refused. An error says that it is out of memory.
pub fn run_pool<R: Threads + Wait + Sync + Send + Copy + Drop>(
    rt: &R,
    alloc: Global,
    submission: Submission,
    workers: u64,
) -> Result<String, AllocError>
    requires some { 0 < workers }
    requires few { workers ≤ 64 }
    ensures { IfOk result (λ text. IsPoolText submission.configs submission.calls (string_bytes text)) }
{
    let (configs, calls) = submission.into_parts();
    let (shares, elsewhere) = deal(alloc, configs, calls)?;
    let (_slots, lacking) = share_out(alloc, elsewhere)?;
    let errands = errands(rt, alloc, shares)?;
    let Some(done) = do_all(rt, alloc, errands, workers as usize) else {
        // Memory: a thread would have kept what it took; none does.
        return Err(AllocError);
    };
    let text = text_of(rt, alloc, done, lacking.len())?;
    Ok(text)
}

fn errands<R: Copy + Drop>(
    rt: &R,
    alloc: Global,
    shares: Vec<Share>,
) -> Result<Vec<Errand<R>>, AllocError>
    ensures { IfOk result (λ errands. HaveErrands shares.items errands.items) }
{
    let mut errands = Vec::with_capacity(alloc, shares.len())?;
    for share in shares {
        errands.push(Errand {
            rt: *rt,
            alloc,
            share: Some(share),
            told: None,
        })?;
    }
    Ok(errands)
}

/// What is told of all networks, one after the other. `lacking` jobs are of none of them.
fn text_of<R: Wait + Drop>(
    rt: &R,
    alloc: Global,
    errands: Vec<Errand<R>>,
    lacking: usize,
) -> Result<String, AllocError>
    ensures { IfOk result (λ text. IsTextOfErrands errands.items lacking (string_bytes text)) }
{
    let mut decided = String::new(alloc);
    let mut lengths = String::new(alloc);
    let mut report = Report {
        applied: 0,
        refused: lacking as u64,
        unrun: 0,
    };
    for errand in errands {
        let Errand {
            rt: _,
            alloc: _,
            share: _,
            told,
        } = errand;
        let Some(told) = told else {
            // Memory: a worker had none.
            return Err(AllocError);
        };
        decided.push_str(told.decided.as_str())?;
        lengths.push_str(told.length.as_str())?;
        report = report.plus(rt, told.report);
    }
    decided.push_str(lengths.as_str())?;
    push_report(&mut decided, report)?;
    Ok(decided)
}
