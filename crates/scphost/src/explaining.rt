//! Why lines are bad.

ghost use Rattle.std.specs.Prelude.{◌≡◌};

use crate::outputs::Outputs;
use line_reason::{Kind, line_at, reason_of};
use line_script::{Stop, read_whole};
use live_feed::LONGEST_LINE;
use scphost_words::{Call, PairCall, RunCall, Word};
use std::alloc::Global;
use std::fs;
use std::fs::{File, Files};
use std::io::Write;

/// Says on `err` why a line of a live host with its number is bad, as `L:COLUMN: REASON`; `None` is a line that is too
/// long. If it is out of memory, or a write fails, nothing is said.
pub fn explain_line<E: Write>(alloc: Global, err: &mut E, number: u64, line: Option<&[u8]>) {
    let Some(line) = line else {
        let column = LONGEST_LINE + 1;
        let _ = writeln!(
            err,
            "{number}:{column}: a line has at most {LONGEST_LINE} bytes"
        );
        return;
    };
    if let Ok(reason) = reason_of(alloc, Kind::Live, None, line) {
        let _ = writeln!(err, "{number}:{}: {}", reason.column, reason.text.as_str());
        drop(reason);
    }
}

/// Says on `err` why a line is bad that ended a call, as `FILE:LINE:COLUMN: REASON`, if the call asks for it. For that
/// the file is read once more. The standard input and a pipe are not: that is said in place of the reason. If the file
/// cannot be read, or it is out of memory, nothing is said.
pub fn explain_end<R: Files<File = File> + AllocGlobal, W: Write, E: Write>(
    rt: &R,
    call: &Call,
    end: Result<bool, Stop>,
    outputs: &mut Outputs<W, E>,
)
    ensures { W.contents outputs.new.out ≡ W.contents outputs.old.out }
{
    let Err(Stop::BadLine(number)) = end else {
        return;
    };
    if let Some((kind, file)) = file_at_fault(call, outputs.second) {
        explain_in(rt, kind, file, number, &mut outputs.err);
    }
}

/// The file in which a call came to a bad line, and the kind of its lines, if the call asks for the reason.
fn file_at_fault(call: &Call, second: bool) -> Option<(Kind, &str)> {
    let (explain, kind, file) = match call {
        Call::Table(asked) => (asked.explain, Kind::Table, &asked.file),
        Call::Run(asked) => (asked.explain, kind_of(asked), &asked.script),
        Call::Closure(asked) => (asked.explain, Kind::Script, &asked.script),
        Call::Compare(asked) => (asked.explain, Kind::Script, one_of(asked, second)),
        Call::Crowd(asked) => (asked.explain, Kind::Submission, one_of(asked, second)),
        Call::Serve(_) | Call::Compact(_) | Call::Encode(_) | Call::Decode(_) => return None,
    };
    if explain {
        Some((kind, file.as_str()))
    } else {
        None
    }
}

/// What the lines of a script are that is run: jobs if there are workers.
fn kind_of(asked: &RunCall) -> Kind {
    match asked.workers {
        None => Kind::Script,
        Some(_) => Kind::Jobs,
    }
}

/// The name of the second script, or of the first.
fn one_of(asked: &PairCall, second: bool) -> &Word {
    if second { &asked.second } else { &asked.first }
}

/// Says why the line of a file with a number is bad.
fn explain_in<R: Files<File = File> + AllocGlobal, E: Write>(
    rt: &R,
    kind: Kind,
    file: &str,
    number: usize,
    err: &mut E,
) {
    if file == "-" {
        let _ = writeln!(
            err,
            "-:{number}:1: the standard input is not kept: a file is explained"
        );
        return;
    }
    let Ok(metadata) = fs::metadata(rt, file) else {
        return;
    };
    // Who reads a pipe that has ended waits for one more to write.
    if !metadata.is_file() {
        let _ = writeln!(
            err,
            "{file}:{number}:1: a pipe is not kept: a file is explained"
        );
        return;
    }
    let Ok(mut opened) = fs::open(rt, file) else {
        return;
    };
    let Ok(text) = read_whole(rt.alloc(), &mut opened) else {
        return;
    };
    if let Some((above, line)) = line_at(&text, number) {
        if let Ok(reason) = reason_of(rt.alloc(), kind, Some(above), line) {
            let _ = writeln!(
                err,
                "{file}:{number}:{}: {}",
                reason.column,
                reason.text.as_str()
            );
            drop(reason);
        }
    }
    drop(text);
}
