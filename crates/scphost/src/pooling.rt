//! A script whose events are jobs of workers.

ghost use Rattle.std.specs.Prelude.{IfErr, IfOk, false};
ghost use Rattle.scphost.specs.Printing.{IsPooled};
ghost use Rattle.line_run.specs.Scripts.{StopsSubmission};

use line_run::{Answer, read_submission};
use line_script::Stop;
use pool_script::run_pool;
use scphost_words::PoolSize;
use std::io::Read;
use std::sync::Wait;
use std::thread::Threads;

/// Reads a script whole for its jobs, without running any, and has workers run them: what became of the networks, as it
/// is printed. A bad line ends it before anything is run.
pub fn answer_pool<A: AllocGlobal + Threads + Wait + Sync + Send + Copy + Drop, R: Read>(
    rt: &A,
    script: &mut R,
    workers: PoolSize,
) -> Result<Answer, Stop>
    ensures pooled { IfOk result (IsPooled (R.remaining script.old)) }
    ensures stopped { IfErr result (StopsSubmission false (R.remaining script.old)) }
{
    let alloc = rt.alloc();
    let run = read_submission(alloc, script, false)?;
    match run_pool(rt, alloc, run.into_submission(), workers.workers()) {
        Ok(text) => Ok(Answer {
            differs: false,
            text,
        }),
        // Memory: the pool has none.
        Err(_) => Err(Stop::NoMemory),
    }
}
