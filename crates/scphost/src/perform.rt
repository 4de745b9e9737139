//! Carrying out a call: its files are run, and how it ended is answered.

ghost use Rattle.std.specs.Prelude.{◌≡◌, Err, IsTrue, false};
ghost use Rattle.scphost.specs.Printing.{HasAnswered, HasAnsweredUsage, IsCompared, IsCrowdAnswer, IsPerformed, IsPerformedAsItComes, IsPooled, IsReported, IsRunAsItComes, IsRunOn, names_files};
ghost use Rattle.line_run.specs.Scripts.{StopsStories, StopsStory, StopsSubmission, StopsSubmissions};
ghost use Rattle.scphost.specs.Stops.{IsEndOf, status_of_end};

use crate::hosting::{make_file_shorter, make_shorter, serve};
use crate::outputs::Outputs;
use crate::pooling::answer_pool;
use crate::printing::{print_answer, write_text};
use crate::reporting::answer_closure;
use crate::translating::{print_decoded, print_encoded};
use line_run::{
    FinishedScript, HostRun, Side, Sides, answer_compare, answer_crowd, read_submission,
};
use line_script::{Stop, run_script, run_stream};
use line_table::TableRun;
use scphost_words::{Call, ClosureCall, PairCall, PoolSize, RunCall, Usage, Word};
use std::alloc::Global;
use std::fs::{File, Files};
use std::io;
use std::io::{BufRead, Read, Write};
use std::mem::forget;
use std::sync::Wait;
use std::thread::Threads;

/// The status of a call that was carried out.
pub const DONE: u8 = 0;

/// The status of a comparison that finds a difference, and of bytes that are no envelope.
pub const DIFFERS: u8 = 1;

/// The status of bad usage, and of a file that cannot be read, is too long or has a bad line.
pub const FAULT: u8 = 2;

/// The status if it was out of memory.
pub const NO_MEMORY: u8 = 3;

/// The status if a write failed.
pub const NO_WRITE: u8 = 4;

/// Carries out a call on the files that it names, in their order; the second is empty if it names one. It answers how
/// that ended: whether what it compared differs, or what stopped it. A call that names none is for [`perform_stream`].
///
/// What the call prints goes to `outputs.out`, and one line on what ended it early to `outputs.err`. Of `table` and
/// `run` what lines before a bad one printed is written by then. `closure`, `compare`, `crowd` and `compact` print
/// nothing before all files have been run to their ends, the first one before the second is read. `run` with workers
/// runs no event before all lines have been read. A write to `err` that fails changes nothing.
///
/// Worlds that were run are not given back piece by piece: this is for a process that ends with the answer.
pub fn perform<
    A: AllocGlobal + Threads + Wait + Sync + Send + Copy + Drop,
    R: Read,
    T: Read,
    W: Write,
    E: Write,
>(
    rt: &A,
    call: &Call,
    first: &mut R,
    second: &mut T,
    outputs: &mut Outputs<W, E>,
) -> Result<bool, Stop>
    requires { IsTrue (names_files call.now) }
    ensures { IsPerformed call.now (R.remaining first.old) (T.remaining second.old) (W.contents outputs.old.out) (W.contents outputs.new.out) result }
{
    match call {
        Call::Table(asked) => {
            let mut run = TableRun::new();
            let ran = run_script(rt.alloc(), &mut run, first, &mut outputs.out);
            forget(run);
            print_end(ran, asked.file.as_str(), &mut outputs.err)
        }
        Call::Run(asked) => perform_run(rt, asked, first, outputs),
        Call::Closure(asked) => perform_closure(rt.alloc(), asked, first, outputs),
        Call::Compare(asked) => perform_compare(rt.alloc(), asked, first, second, outputs),
        Call::Crowd(asked) => perform_crowd(rt.alloc(), asked, first, second, outputs),
        Call::Compact(file) => make_file_shorter(rt, file.as_str(), first, outputs),
        Call::Serve(_) | Call::Encode(_) | Call::Decode(_) => unreachable!(),
    }
}

/// Runs the lines of a script in order, or as jobs of workers.
fn perform_run<
    A: AllocGlobal + Threads + Wait + Sync + Send + Copy + Drop,
    R: Read,
    W: Write,
    E: Write,
>(rt: &A, asked: &RunCall, script: &mut R, outputs: &mut Outputs<W, E>) -> Result<bool, Stop>
    ensures { IsRunOn asked.now.workers (R.remaining script.old) (W.contents outputs.old.out) (W.contents outputs.new.out) result }
{
    match asked.workers {
        None => {
            let alloc = rt.alloc();
            let mut run: HostRun = HostRun::new(alloc);
            let ran = run_script(alloc, &mut run, script, &mut outputs.out);
            forget(run);
            print_end(ran, asked.script.as_str(), &mut outputs.err)
        }
        Some(workers) => perform_pool(rt, workers, &asked.script, script, outputs),
    }
}

/// Reads a script whole for the jobs that it gives to a pool of workers, has them run these, and prints what became
/// of the networks.
fn perform_pool<
    A: AllocGlobal + Threads + Wait + Sync + Send + Copy + Drop,
    R: Read,
    W: Write,
    E: Write,
>(
    rt: &A,
    workers: PoolSize,
    file: &Word,
    script: &mut R,
    outputs: &mut Outputs<W, E>,
) -> Result<bool, Stop>
    ensures { HasAnswered (IsPooled (R.remaining script.old)) (StopsSubmission false (R.remaining script.old))
        (W.contents outputs.old.out) (W.contents outputs.new.out) result }
{
    match answer_pool(rt, script, workers) {
        Ok(answer) => print_answer(&answer, outputs),
        Err(stop) => print_stop(stop, file.as_str(), &mut outputs.err),
    }
}

/// Runs a script without printing, and prints the report of the subject.
fn perform_closure<R: Read, W: Write, E: Write>(
    alloc: Global,
    asked: &ClosureCall,
    script: &mut R,
    outputs: &mut Outputs<W, E>,
) -> Result<bool, Stop>
    ensures { HasAnswered (IsReported asked.now.format asked.now.subject (R.remaining script.old))
        (StopsStory false (R.remaining script.old)) (W.contents outputs.old.out) (W.contents outputs.new.out) result }
{
    let finished = match FinishedScript::read_and_run(alloc, script, false) {
        Ok(finished) => finished,
        Err(stop) => return print_stop(stop, asked.script.as_str(), &mut outputs.err),
    };
    let answered = answer_closure(alloc, &finished, &asked.subject, asked.format);
    forget(finished);
    match answered {
        Ok(answer) => print_answer(&answer, outputs),
        Err(_) => print_stop(Stop::NoMemory, "", &mut outputs.err),
    }
}

/// Runs a script without printing, then another one, and prints how they compare for the subject.
fn perform_compare<R: Read, T: Read, W: Write, E: Write>(
    alloc: Global,
    asked: &PairCall,
    first: &mut R,
    second: &mut T,
    outputs: &mut Outputs<W, E>,
) -> Result<bool, Stop>
    ensures { HasAnswered (IsCompared asked.now.explain asked.now.subject (R.remaining first.old) (T.remaining second.old))
        (StopsStories asked.now.explain (R.remaining first.old) (T.remaining second.old))
        (W.contents outputs.old.out) (W.contents outputs.new.out) result }
{
    let first = match FinishedScript::read_and_run(alloc, first, asked.explain) {
        Ok(finished) => finished,
        Err(stop) => return print_stop(stop, asked.first.as_str(), &mut outputs.err),
    };
    outputs.second = true;
    let second = match FinishedScript::read_and_run(alloc, second, asked.explain) {
        Ok(finished) => finished,
        Err(stop) => {
            drop(first);
            return print_stop(stop, asked.second.as_str(), &mut outputs.err);
        }
    };
    let sides = Sides {
        one: Side {
            file: asked.first.as_str(),
            script: &first,
        },
        other: Side {
            file: asked.second.as_str(),
            script: &second,
        },
    };
    let answered = answer_compare(alloc, &sides, &asked.subject, asked.explain);
    forget(second);
    forget(first);
    match answered {
        Ok(answer) => print_answer(&answer, outputs),
        Err(_) => print_stop(Stop::NoMemory, "", &mut outputs.err),
    }
}

/// Runs a script for what it submits, then another one, and prints how the answers compare for the subject.
fn perform_crowd<R: Read, T: Read, W: Write, E: Write>(
    alloc: Global,
    asked: &PairCall,
    first: &mut R,
    second: &mut T,
    outputs: &mut Outputs<W, E>,
) -> Result<bool, Stop>
    ensures { HasAnswered (IsCrowdAnswer asked.now.subject (R.remaining first.old) (T.remaining second.old))
        (StopsSubmissions (R.remaining first.old) (T.remaining second.old))
        (W.contents outputs.old.out) (W.contents outputs.new.out) result }
{
    let first = match read_submission(alloc, first, true) {
        Ok(run) => run,
        Err(stop) => return print_stop(stop, asked.first.as_str(), &mut outputs.err),
    };
    outputs.second = true;
    let second = match read_submission(alloc, second, true) {
        Ok(run) => run,
        Err(stop) => {
            drop(first);
            return print_stop(stop, asked.second.as_str(), &mut outputs.err);
        }
    };
    let answered = answer_crowd(
        alloc,
        first.submission(),
        second.submission(),
        &asked.subject,
    );
    forget(second);
    forget(first);
    match answered {
        Ok(answer) => print_answer(&answer, outputs),
        Err(_) => print_stop(Stop::NoMemory, "", &mut outputs.err),
    }
}

/// Carries out a call on the standard input, which is its file or, of `serve`, what is sent: each line is answered
/// before the next one is waited for. How it ends, and messages, are those of [`perform`], but for a read that fails
/// and for input that is too long. Then the lines before have been run, and what they printed is written. `closure`,
/// `compare`, `crowd` and `run` with workers read it whole, and `compact` up to the journal's end, before they print.
/// `serve` goes on after a bad line.
pub fn perform_stream<
    A: Files<File = File> + AllocGlobal + Threads + Wait + Sync + Send + Copy + Drop,
    R: BufRead,
    W: Write,
    E: Write,
>(rt: &A, call: &Call, input: &mut R, outputs: &mut Outputs<W, E>) -> Result<bool, Stop>
    ensures { IsPerformedAsItComes call.now (R.remaining input.old) (W.contents outputs.old.out) (W.contents outputs.new.out) result }
{
    match call {
        Call::Table(asked) => {
            let mut run = TableRun::new();
            let ran = run_stream(rt.alloc(), &mut run, input, &mut outputs.out);
            forget(run);
            print_end(ran, asked.file.as_str(), &mut outputs.err)
        }
        Call::Run(asked) => perform_run_as_it_comes(rt, asked, input, outputs),
        Call::Serve(asked) => serve(rt, asked, input, outputs),
        Call::Compact(file) => make_shorter(rt, file.as_str(), input, outputs),
        Call::Closure(_) | Call::Compare(_) | Call::Crowd(_) => {
            perform(rt, call, input, &mut io::empty(), outputs)
        }
        Call::Encode(words) => print_encoded(rt.alloc(), words, outputs),
        Call::Decode(digits) => print_decoded(rt.alloc(), digits, outputs),
    }
}

/// Runs the lines of a script as they come, or all of them as jobs of workers.
fn perform_run_as_it_comes<
    A: AllocGlobal + Threads + Wait + Sync + Send + Copy + Drop,
    R: BufRead,
    W: Write,
    E: Write,
>(rt: &A, asked: &RunCall, input: &mut R, outputs: &mut Outputs<W, E>) -> Result<bool, Stop>
    ensures { IsRunAsItComes asked.now.workers (R.remaining input.old) (W.contents outputs.old.out) (W.contents outputs.new.out) result }
{
    if asked.workers.is_some() {
        return perform_run(rt, asked, input, outputs);
    }
    let mut run: HostRun = HostRun::new(rt.alloc());
    let ran = run_stream(rt.alloc(), &mut run, input, &mut outputs.out);
    forget(run);
    print_end(ran, asked.script.as_str(), &mut outputs.err)
}

/// Answers words that are no call: prints the text where it belongs, and gives the exit status.
pub fn print_usage<W: Write, E: Write>(usage: &Usage, outputs: &mut Outputs<W, E>) -> u8
    ensures { HasAnsweredUsage usage.now (W.contents outputs.old.out) (W.contents outputs.new.out) result }
{
    let out = &mut outputs.out;
    let err = &mut outputs.err;
    match usage {
        Usage::Help(text) => match write_text(text, out) {
            Ok(()) => DONE,
            Err(_) => exit_status(print_stop(Stop::CannotWrite, "", err)),
        },
        Usage::Bad(text) => {
            let _ = write!(err, "{text}");
            FAULT
        }
        Usage::NoMemory => exit_status(print_stop(Stop::NoMemory, "", err)),
    }
}

/// Says on `err` why a run of the named file ended early, if it did. Nothing was compared.
pub fn print_end<E: Write>(ran: Result<(), Stop>, file: &str, err: &mut E) -> Result<bool, Stop>
    ensures { IsEndOf ran result }
{
    match ran {
        Ok(()) => Ok(false),
        Err(stop) => print_stop(stop, file, err),
    }
}

/// Says on `err` why the run of the named file stopped, and answers that.
pub fn print_stop<E: Write>(stop: Stop, file: &str, err: &mut E) -> Result<bool, Stop>
    ensures { result ≡ Err stop }
{
    let _ = match stop {
        Stop::CannotRead => writeln!(err, "cannot read {file}"),
        Stop::TooLong => writeln!(err, "file too long"),
        Stop::BadLine(number) => writeln!(err, "bad script line {number}"),
        Stop::NoMemory => writeln!(err, "no memory"),
        Stop::CannotWrite => writeln!(err, "cannot write"),
    };
    Err(stop)
}

/// The exit status of a call that ended so. It is 2 for words or a file that cannot be read, and for a file that is too
/// long or has a bad line. It is 3 if it was out of memory, and 4 if a write failed. It is 1 for a comparison that
/// finds a difference, and for bytes that are no envelope; else 0.
pub fn exit_status(end: Result<bool, Stop>) -> u8
    ensures { result ≡ status_of_end end }
{
    match end {
        Ok(false) => DONE,
        Ok(true) => DIFFERS,
        Err(Stop::CannotRead | Stop::TooLong | Stop::BadLine(_)) => FAULT,
        Err(Stop::NoMemory) => NO_MEMORY,
        Err(Stop::CannotWrite) => NO_WRITE,
    }
}
