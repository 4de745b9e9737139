//! A live host, which is sent its lines and answers each of them.

ghost use Rattle.std.specs.Prelude.{◌≡◌, ◌<◌, None, Some, Err, false};
ghost use Rattle.live_host.specs.Hosts.{new_live};
ghost use Rattle.scphost.specs.Hosting.{HasMadeShorter, HasServed, HasStarted, IsFrom};
ghost use Rattle.scphost.specs.Stops.{IsEndOfHost, IsEndOfJournal};

use crate::outputs::Outputs;
use crate::perform::print_stop;
use crate::remembering::RememberedHost;
use line_script::Stop;
use live_feed::{Fault, Feed, READ_SIZE, compact};
use live_journal::{JournalFault, first_open_line, open_journal, resume};
use live_shards::ShardedHost;
use scphost_words::{PoolSize, ReplayFrom, ServeCall};
use std::fs::{File, Files};
use std::io::{BufRead, BufReader, Read, Write};
use std::sync::Wait;
use std::thread::Threads;

/// How a live host answers: whether envelopes are printed as bytes, whether it is said why a line is bad, and how many
/// workers its networks are shared out among.
#[derive(Clone, Copy)]
struct AnswerForm {
    pub bytes: bool,
    pub explain: bool,
    pub workers: usize,
}

/// The journal of a live host: the name of its file, and from which line on its blocks are printed at the start.
#[derive(Clone, Copy)]
struct JournalUse<'a> {
    pub name: &'a str,
    pub from: Option<ReplayFrom>,
}

/// Hosts the networks that the lines of an input declare, until it ends, and answers how it ended. What is answered to
/// a line is written to `outputs.out` before a further one is waited for. Envelopes are printed as bytes if that is
/// asked for. Why lines are bad goes to `outputs.err`, if that is asked for, and so does one line on what ended it
/// early.
///
/// The networks are shared out among the workers. With a journal each line is on the disk before its answer is told.
/// The lines that are there are run first.
pub fn serve<
    A: AllocGlobal + Threads + Wait + Sync + Files<File = File>,
    R: BufRead,
    W: Write,
    E: Write,
>(rt: &A, asked: &ServeCall, input: &mut R, outputs: &mut Outputs<W, E>) -> Result<bool, Stop>
    ensures { HasServed asked.now.bytes asked.now.journal asked.now.from (R.remaining input.old) (W.contents outputs.old.out) (W.contents outputs.new.out) result }
{
    let form = AnswerForm {
        bytes: asked.bytes,
        explain: asked.explain,
        workers: worker_count(asked.workers),
    };
    match &asked.journal {
        None => serve_without_journal(rt, form, input, outputs),
        Some(name) => {
            let journal = JournalUse {
                name: name.as_str(),
                from: asked.from,
            };
            serve_with_journal(rt, form, journal, input, outputs)
        }
    }
}

/// How many workers a live host has: one, if no number is asked for.
fn worker_count(workers: Option<PoolSize>) -> usize
    ensures { 0 < result }
{
    match workers {
        Some(workers) => workers.workers() as usize,
        None => 1,
    }
}

fn serve_without_journal<A: AllocGlobal + Threads + Wait + Sync, R: BufRead, W: Write, E: Write>(
    rt: &A,
    form: AnswerForm,
    input: &mut R,
    outputs: &mut Outputs<W, E>,
) -> Result<bool, Stop>
    requires { 0 < form.workers }
    ensures { HasServed form.bytes None None (R.remaining input.old) (W.contents outputs.old.out) (W.contents outputs.new.out) result }
{
    let Ok(host) = ShardedHost::new(rt.alloc(), form.bytes, form.workers) else {
        return print_end_of_host(Err(Fault::NoMemory), "", &mut outputs.err);
    };
    serve_by(rt, form, host, input, outputs)
}

fn serve_by<A: AllocGlobal + Threads + Wait + Sync, R: BufRead, W: Write, E: Write>(
    rt: &A,
    form: AnswerForm,
    host: ShardedHost,
    input: &mut R,
    outputs: &mut Outputs<W, E>,
) -> Result<bool, Stop>
    requires { host ≡ new_live form.bytes }
    ensures { HasServed form.bytes None None (R.remaining input.old) (W.contents outputs.old.out) (W.contents outputs.new.out) result }
{
    outputs.explain = form.explain;
    let mut feed = Feed::new(rt.alloc(), host, 0);
    let ran = feed.serve(rt, input, outputs);
    drop(feed);
    print_end_of_host(ran, "", &mut outputs.err)
}

/// Serves with a journal, which has each line, on the disk, before its answer is told. Its lines are run first, up to
/// its end. What some of them were answered is written again if that is asked for. Then comes `resumed L`, with L for
/// how many there are.
fn serve_with_journal<
    A: AllocGlobal + Threads + Wait + Sync + Files<File = File>,
    R: BufRead,
    W: Write,
    E: Write,
>(
    rt: &A,
    form: AnswerForm,
    journal: JournalUse<'_>,
    input: &mut R,
    outputs: &mut Outputs<W, E>,
) -> Result<bool, Stop>
    requires { 0 < form.workers }
    ensures { HasServed form.bytes (Some journal.entry.name.now) journal.entry.from (R.remaining input.old) (W.contents outputs.old.out) (W.contents outputs.new.out) result }
{
    let Ok(host) = RememberedHost::new(rt.alloc(), form.bytes, form.workers) else {
        return print_end_of_journal(JournalFault::NoMemory, journal.name, &mut outputs.err);
    };
    go_on(rt, form, journal, host, input, outputs)
}

/// Goes on from the journal with this host, which has served no line, and serves the lines that come.
fn go_on<
    A: AllocGlobal + Threads + Wait + Sync + Files<File = File>,
    R: BufRead,
    W: Write,
    E: Write,
>(
    rt: &A,
    form: AnswerForm,
    journal: JournalUse<'_>,
    mut host: RememberedHost,
    input: &mut R,
    outputs: &mut Outputs<W, E>,
) -> Result<bool, Stop>
    requires { host ≡ new_live form.bytes }
    ensures { HasServed form.bytes (Some journal.entry.name.now) journal.entry.from (R.remaining input.old) (W.contents outputs.old.out) (W.contents outputs.new.out) result }
{
    let (file, count) = match start(rt, journal, form.bytes, &mut host, &mut outputs.out) {
        Ok(started) => started,
        Err(fault) => {
            drop(host);
            return print_end_of_journal(fault, journal.name, &mut outputs.err);
        }
    };
    outputs.journal = Some(file);
    outputs.explain = form.explain;
    let mut feed = Feed::new(rt.alloc(), host, count);
    let ran = feed.serve(rt, input, outputs);
    drop(feed);
    print_end_of_host(ran, journal.name, &mut outputs.err)
}

/// Opens the journal of a host and goes on from it. It answers the file, and how many lines it has.
fn start<A: AllocGlobal + Threads + Wait + Sync + Files<File = File>, W: Write>(
    rt: &A,
    journal: JournalUse<'_>,
    bytes: bool,
    host: &mut RememberedHost,
    out: &mut W,
) -> Result<(File, u64), JournalFault>
    requires { host.old ≡ new_live bytes }
    ensures { HasStarted bytes journal.entry.from (W.contents out.old) (W.contents out.new) result host.new }
{
    let file = open_journal(rt, journal.name)?;
    let from = first_told(rt, &file, bytes, journal.from)?;
    let count = resume(rt, &file, host, from, out)?;
    Ok((file, count))
}

/// From which line of a journal on answers are told.
fn first_told<A: AllocGlobal + Threads + Wait + Sync>(
    rt: &A,
    file: &File,
    bytes: bool,
    from: Option<ReplayFrom>,
) -> Result<Option<u64>, JournalFault>
    ensures { IsFrom bytes from result }
{
    match from {
        None => Ok(None),
        Some(ReplayFrom::Line(line)) => Ok(Some(line)),
        Some(ReplayFrom::Open) => {
            let Ok(host) = RememberedHost::new(rt.alloc(), bytes, 1) else {
                return Err(JournalFault::NoMemory);
            };
            first_open_line(rt, file, host)
        }
    }
}

/// Writes a shorter journal with the same future to `outputs.out`, and answers how that ended. What is wrong with the
/// journal, which has this name, is said on `outputs.err`.
pub fn make_shorter<A: AllocGlobal + Threads + Wait + Sync, R: BufRead, W: Write, E: Write>(
    rt: &A,
    name: &str,
    journal: &mut R,
    outputs: &mut Outputs<W, E>,
) -> Result<bool, Stop>
    ensures { HasMadeShorter (R.remaining journal.old) (W.contents outputs.old.out) (W.contents outputs.new.out) result }
{
    let Ok(host) = RememberedHost::new(rt.alloc(), false, 1) else {
        return print_stop(Stop::NoMemory, "", &mut outputs.err);
    };
    make_shorter_by(rt, name, host, journal, outputs)
}

fn make_shorter_by<A: AllocGlobal + Threads + Wait + Sync, R: BufRead, W: Write, E: Write>(
    rt: &A,
    name: &str,
    host: RememberedHost,
    journal: &mut R,
    outputs: &mut Outputs<W, E>,
) -> Result<bool, Stop>
    requires { host ≡ new_live false }
    ensures { HasMadeShorter (R.remaining journal.old) (W.contents outputs.old.out) (W.contents outputs.new.out) result }
{
    match compact(rt, host, journal, &mut outputs.out) {
        Ok(()) => Ok(false),
        Err(stop) => print_end_of_journal(JournalFault::from(stop), name, &mut outputs.err),
    }
}

/// As [`make_shorter`], for a reader without a buffer.
pub fn make_file_shorter<A: AllocGlobal + Threads + Wait + Sync, R: Read, W: Write, E: Write>(
    rt: &A,
    name: &str,
    journal: &mut R,
    outputs: &mut Outputs<W, E>,
) -> Result<bool, Stop>
    ensures { HasMadeShorter (R.remaining journal.old) (W.contents outputs.old.out) (W.contents outputs.new.out) result }
{
    let Ok(mut reader) = BufReader::with_capacity(rt.alloc(), READ_SIZE, journal) else {
        return print_stop(Stop::NoMemory, "", &mut outputs.err);
    };
    let ended = make_shorter(rt, name, &mut reader, outputs);
    drop(reader);
    ended
}

/// Says on `err` what ended a host early, and answers that. If the host has a journal, it has this name.
fn print_end_of_host<E: Write>(
    ran: Result<(), Fault>,
    journal: &str,
    err: &mut E,
) -> Result<bool, Stop>
    ensures { IsEndOfHost ran result }
{
    match ran {
        Ok(()) => Ok(false),
        Err(Fault::CannotRead) => print_stop(Stop::CannotRead, "-", err),
        Err(Fault::TooLong) => print_stop(Stop::TooLong, "-", err),
        Err(Fault::NoMemory) => print_stop(Stop::NoMemory, "", err),
        Err(Fault::NotAppended | Fault::NotSynced) => print_not_written(journal, err),
        Err(Fault::CannotWrite) => print_stop(Stop::CannotWrite, "", err),
    }
}

/// Says on `err` why a host does not start from the journal of this name, and answers that.
fn print_end_of_journal<E: Write>(
    fault: JournalFault,
    journal: &str,
    err: &mut E,
) -> Result<bool, Stop>
    ensures { IsEndOfJournal fault result }
{
    match fault {
        JournalFault::CannotRead => print_stop(Stop::CannotRead, journal, err),
        JournalFault::InUse => {
            let _ = writeln!(err, "journal in use");
            Err(Stop::CannotRead)
        }
        JournalFault::BadLine(number) => {
            let _ = writeln!(err, "bad journal line {number}");
            Err(Stop::BadLine(number))
        }
        JournalFault::CannotWrite => print_not_written(journal, err),
        JournalFault::CannotTell => print_stop(Stop::CannotWrite, "", err),
        JournalFault::NoMemory => print_stop(Stop::NoMemory, "", err),
    }
}

/// Says on `err` that the journal of this name cannot be written, and answers that.
fn print_not_written<E: Write>(journal: &str, err: &mut E) -> Result<bool, Stop>
    ensures { result ≡ Err Stop.CannotWrite }
{
    let _ = writeln!(err, "cannot write {journal}");
    Err(Stop::CannotWrite)
}
