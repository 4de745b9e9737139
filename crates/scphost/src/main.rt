//! The command line of a host of validators of the Stellar Consensus Protocol.
#![tactic(auto)]

mod command;
mod explaining;
mod hosting;
mod outputs;
mod perform;
mod pooling;
mod printing;
mod remembering;
mod reporting;
mod translating;

use command::answer_words;
use line_script::Stop;
use outputs::Outputs;
use perform::{exit_status, print_stop, print_usage};
use scphost_words::Usage;
use std::env;
use std::fs::{File, Files};
use std::io::{BufWriter, ErrorKind, Input, Write};
use std::process::ExitCode;
use std::rt::Env;
use std::sync::Wait;
use std::thread::Threads;

/// Reads the command line, carries out its call, and ends with its status. What is printed is kept together, so that
/// many short lines are few writes.
fn main(rt: HostRuntime) -> ExitCode {
    let mut err = rt.stderr();
    let status = match BufWriter::new(rt.alloc(), rt.stdout()) {
        Ok(out) => {
            let outputs = Outputs {
                out,
                err,
                journal: None,
                explain: false,
                second: false,
                alloc: rt.alloc(),
            };
            run_command_line(&rt, outputs)
        }
        Err(_) => exit_status(print_stop(Stop::NoMemory, "", &mut err)),
    };
    ExitCode::from(status)
}

/// Answers the words of the command line, and gives the status. What is still kept at the end is given up: a write
/// failed, and nothing is written after it.
fn run_command_line<
    R: Env + Files<File = File> + Input + AllocGlobal + Threads + Wait + Sync + Send + Copy + Drop,
    W: Write + Drop,
    E: Write + Drop,
>(rt: &R, outputs: Outputs<BufWriter<W>, E>) -> u8 {
    let mut outputs = outputs;
    let status = match read_words(rt) {
        Ok(words) => answer_words(rt, words.as_slice(), &mut outputs),
        Err(usage) => print_usage(&usage, &mut outputs),
    };
    let Outputs { out, .. } = outputs;
    let (_, _) = out.into_parts();
    status
}

/// Reads the words of the command line after the program's name. A word that is no text is a bad usage.
fn read_words<R: Env + AllocGlobal>(rt: &R) -> Result<Vec<String>, Usage> {
    let alloc = rt.alloc();
    match env::args(rt) {
        Ok(words) => Ok(words.skip(1).collect(alloc)?),
        Err(error) if error.kind() == ErrorKind::OutOfMemory => Err(Usage::NoMemory),
        Err(_) => Err(Usage::Bad(String::from_str(alloc, "bad usage\n")?)),
    }
}
