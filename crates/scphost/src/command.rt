//! The command line, from its words to its status.

ghost use Rattle.std.specs.Prelude.{IsTrue, map};
ghost use Rattle.scphost.specs.Commands.{HasAnsweredWords, IsCarriedOut};
ghost use Rattle.scphost.specs.Printing.{names_files};

use crate::explaining::explain_end;
use crate::outputs::Outputs;
use crate::perform::{exit_status, perform, perform_stream, print_stop, print_usage};
use crate::translating::{print_decoded, print_encoded};
use line_script::Stop;
use live_feed::READ_SIZE;
use scphost_words::{Call, PairCall, read_call};
use std::convert::AsStr;
use std::fs::{File, Files};
use std::io::{BufReader, Input, Read, Write};
use std::sync::Wait;
use std::thread::Threads;
use std::{fs, io};

/// Answers the words after the program's name, and gives the exit status. If they are a call, it is carried out, and
/// the status says how that ended. Else they are told to be none, or help is printed if they ask for it. Words that are
/// a call are refused only if it is out of memory.
pub fn answer_words<
    R: Files<File = File> + Input + AllocGlobal + Threads + Wait + Sync + Send + Copy + Drop,
    S: AsStr,
    W: Write,
    E: Write,
>(rt: &R, words: &[S], outputs: &mut Outputs<W, E>) -> u8
    ensures { HasAnsweredWords (map S.text words.now) (W.contents outputs.old.out) (W.contents outputs.new.out) result }
{
    match read_call(rt.alloc(), words) {
        Ok(call) => {
            let end = open_and_perform(rt, &call, outputs);
            explain_end(rt, &call, end, outputs);
            drop(call);
            exit_status(end)
        }
        Err(usage) => print_usage(&usage, outputs),
    }
}

/// Opens the files of a call in order and carries it out. The file `-` is the standard input, and a live host reads its
/// lines there.
#[tactic(auto, using(crate::proofs::CommandLaws::performed_on, crate::proofs::CommandLaws::performed_as_it_comes, crate::proofs::CommandLaws::no_room))]
fn open_and_perform<
    R: Files<File = File> + Input + AllocGlobal + Threads + Wait + Sync + Send + Copy + Drop,
    W: Write,
    E: Write,
>(rt: &R, call: &Call, outputs: &mut Outputs<W, E>) -> Result<bool, Stop>
    ensures { IsCarriedOut call.now (W.contents outputs.old.out) (W.contents outputs.new.out) result }
{
    match call {
        Call::Table(asked) => perform_one(rt, call, asked.file.as_str(), outputs),
        Call::Run(asked) => perform_one(rt, call, asked.script.as_str(), outputs),
        Call::Closure(asked) => perform_one(rt, call, asked.script.as_str(), outputs),
        Call::Compact(file) => perform_one(rt, call, file.as_str(), outputs),
        Call::Compare(asked) | Call::Crowd(asked) => perform_two(rt, call, asked, outputs),
        Call::Encode(words) => print_encoded(rt.alloc(), words, outputs),
        Call::Decode(digits) => print_decoded(rt.alloc(), digits, outputs),
        // The reader of a pipe asks it for each byte.
        Call::Serve(_) => match BufReader::with_capacity(rt.alloc(), READ_SIZE, rt.reader()) {
            Ok(mut input) => perform_stream(rt, call, &mut input, outputs),
            Err(_) => print_stop(Stop::NoMemory, "", &mut outputs.err),
        },
    }
}

/// Opens the file of a call and carries it out.
#[tactic(auto, using(crate::proofs::CommandLaws::performed_on, crate::proofs::CommandLaws::performed_as_it_comes, crate::proofs::CommandLaws::not_opened))]
fn perform_one<
    R: Files<File = File> + Input + AllocGlobal + Threads + Wait + Sync + Send + Copy + Drop,
    W: Write,
    E: Write,
>(rt: &R, call: &Call, file: &str, outputs: &mut Outputs<W, E>) -> Result<bool, Stop>
    requires { IsTrue (names_files call.now) }
    ensures { IsCarriedOut call.now (W.contents outputs.old.out) (W.contents outputs.new.out) result }
{
    if file == "-" {
        return perform_stream(rt, call, &mut rt.reader(), outputs);
    }
    match fs::open(rt, file) {
        Ok(mut opened) => perform(rt, call, &mut opened, &mut io::empty(), outputs),
        Err(_) => print_stop(Stop::CannotRead, file, &mut outputs.err),
    }
}

/// Opens both files of a call, the first one first, and carries it out. One of them may be the standard input.
#[tactic(auto, using(crate::proofs::CommandLaws::performed_on, crate::proofs::CommandLaws::not_opened))]
fn perform_two<
    R: Files<File = File> + Input + AllocGlobal + Threads + Wait + Sync + Send + Copy + Drop,
    W: Write,
    E: Write,
>(rt: &R, call: &Call, asked: &PairCall, outputs: &mut Outputs<W, E>) -> Result<bool, Stop>
    requires { IsTrue (names_files call.now) }
    ensures { IsCarriedOut call.now (W.contents outputs.old.out) (W.contents outputs.new.out) result }
{
    let one = asked.first.as_str();
    let other = asked.second.as_str();
    if one == "-" {
        return perform_with_second(rt, call, &mut rt.reader(), other, outputs);
    }
    let mut first = match fs::open(rt, one) {
        Ok(first) => first,
        Err(_) => return print_stop(Stop::CannotRead, one, &mut outputs.err),
    };
    if other == "-" {
        return perform(rt, call, &mut first, &mut rt.reader(), outputs);
    }
    perform_with_second(rt, call, &mut first, other, outputs)
}

/// Opens the second file of a call and carries it out. If the first one is the standard input, `-` is a file of that
/// name here.
#[tactic(auto, using(crate::proofs::CommandLaws::performed_on, crate::proofs::CommandLaws::not_opened))]
fn perform_with_second<
    R: Files<File = File> + AllocGlobal + Threads + Wait + Sync + Send + Copy + Drop,
    F: Read,
    W: Write,
    E: Write,
>(
    rt: &R,
    call: &Call,
    first: &mut F,
    other: &str,
    outputs: &mut Outputs<W, E>,
) -> Result<bool, Stop>
    requires { IsTrue (names_files call.now) }
    ensures { IsCarriedOut call.now (W.contents outputs.old.out) (W.contents outputs.new.out) result }
{
    match fs::open(rt, other) {
        Ok(mut second) => perform(rt, call, first, &mut second, outputs),
        Err(_) => print_stop(Stop::CannotRead, other, &mut outputs.err),
    }
}
