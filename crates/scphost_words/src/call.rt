//! The command line: which words are a call, and what is answered to all others.

ghost use Rattle.std.specs.Prelude.{◌≡◌, ◌⊎◌, List, Some, map, IfOk, IfErr, Ok, Err};
ghost use Rattle.scphost_words.specs.CommandLine.{IsCall, call_of, pair_asked};
ghost use Rattle.scphost_words.specs.Help.{IsUsage};
ghost use Rattle.scphost_words.specs.declared.call.Call.{Call};
ghost use Rattle.scphost_words.specs.declared.call.Usage.TheVariants.{NoMemory};

use crate::command::Command;
use crate::fault::{Fault, fault_of_command, fault_of_operands, fault_of_words, text_of_fault};
use crate::help::page_of;
use crate::options::{Options, options_and_operands};
use crate::pages::text_of;
use crate::pool_size::PoolSize;
use crate::replay::ReplayFrom;
use crate::subject::{Format, subject_of};
use crate::word::Word;
use scp_types::Subject;
use std::alloc::{AllocError, Global};
use std::convert::AsStr;

/// What the command line asks for: one variant a command, with its words.
#[derive(Drop)]
pub enum Call {
    /// `table FILE`: run the lines of a table file.
    Table(TableCall),
    /// `run SCRIPT`: run the lines of a script of networks, in order or as jobs of a pool.
    Run(RunCall),
    /// `closure SCRIPT NET SLOT NODE`: run a script and report whom a node depends on.
    Closure(ClosureCall),
    /// `compare SCRIPT1 SCRIPT2 NET SLOT NODE`: run two scripts and compare what concerns a node in them.
    Compare(PairCall),
    /// `crowd SCRIPT1 SCRIPT2 NET SLOT NODE`: read two scripts and compare what they submit for a node, and the
    /// answers to it.
    Crowd(PairCall),
    /// `serve`: host what the lines of the standard input declare, and answer each line as it comes.
    Serve(ServeCall),
    /// `compact FILE`: print a shorter journal with the same future. `-` is the standard input.
    Compact(Word),
    /// `encode FROM SLOT SLICES STATEMENT`: print the bytes of the envelope that these words are.
    Encode(EncodeCall),
    /// `decode HEX`: print the words of the envelope in lower-case hexadecimal bytes, or their fault; `-` is no bytes.
    Decode(Word),
}

/// What `table` asks for.
#[derive(Drop)]
pub struct TableCall {
    /// The name of the file; `-` is the standard input.
    pub file: Word,
    /// Whether a bad line is explained on the standard error.
    pub explain: bool,
}

/// What `run` asks for.
#[derive(Drop)]
pub struct RunCall {
    /// The name of the script; `-` is the standard input.
    pub script: Word,
    /// How many workers the pool has; without one the lines are run in order.
    pub workers: Option<PoolSize>,
    /// Whether a bad line is explained on the standard error.
    pub explain: bool,
}

/// What `closure` asks for.
#[derive(Drop)]
pub struct ClosureCall {
    /// The name of the script; `-` is the standard input.
    pub script: Word,
    /// The node, at a slot of a network.
    pub subject: Subject,
    /// The form of the report.
    pub format: Format,
    /// Whether a bad line is explained on the standard error.
    pub explain: bool,
}

/// What `compare` and `crowd` ask for, of two scripts.
#[derive(Drop)]
pub struct PairCall {
    /// The name of the first script.
    pub first: Word,
    /// The name of the second script.
    pub second: Word,
    /// The node, at a slot of a network.
    pub subject: Subject,
    /// Whether the first difference that `compare` finds is explained, and a bad line on the standard error.
    pub explain: bool,
}

/// What `serve` asks for.
#[derive(Drop)]
pub struct ServeCall {
    /// How many workers the host has; one without it.
    pub workers: Option<PoolSize>,
    /// Whether an emission is followed by the bytes of its envelope in hexadecimal, in place of the words of its
    /// statement.
    pub bytes: bool,
    /// Whether a bad line is explained on the standard error.
    pub explain: bool,
    /// The name of the file that keeps each line on the disk before it is answered; none is kept without it.
    pub journal: Option<Word>,
    /// From which line on the blocks of that file are printed at the start; none are printed without it. It comes
    /// with a file only.
    pub from: Option<ReplayFrom>,
}

/// What `encode` asks for: the four words of an envelope.
#[derive(Drop)]
pub struct EncodeCall {
    /// The sender.
    pub from: Word,
    /// The slot.
    pub slot: Word,
    /// The sender's slices.
    pub slices: Word,
    /// The statement.
    pub statement: Word,
}

/// What is answered to words that are no call.
#[derive(Drop)]
pub enum Usage {
    /// Help was asked for: this text goes to the standard output, and the status is 0.
    Help(String),
    /// The words are no call: this text goes to the standard error, and the status is 2.
    Bad(String),
    /// It was out of memory when it read the words or made a text; the status is 3.
    NoMemory,
}

impl From<AllocError> for Usage {
    ghost from_gives = { λ _ usage. usage ≡ NoMemory };

    fn from(_error: AllocError) -> Usage {
        Usage::NoMemory
    }
}

/// Reads the words after the program's name.
///
/// Words of the form of a call are that call. All others are answered with help, if they ask for it, and else with what
/// is wrong with them. The texts are written from the forms of the calls. [`Usage::NoMemory`] says that it is out of
/// memory, whatever the words are.
pub fn read_call<S: AsStr>(alloc: Global, words: &[S]) -> Result<Call, Usage>
    ensures sound { IfOk result (IsCall (map S.text words.now)) }
    ensures complete { (call : Call) → IsCall (map S.text words.now) call
        → (result ≡ Ok call) ⊎ (result ≡ Err Usage.NoMemory) }
    ensures usage { IfErr result (IsUsage (map S.text words.now)) }
{
    match call_of(alloc, words) {
        Ok(call) => Ok(call),
        Err(Fault::NoMemory) => Err(Usage::NoMemory),
        Err(fault) => Err(usage_of(alloc, words, &fault)),
    }
}

/// What words are answered that are no call: help, if they ask for it, and else this fault.
fn usage_of<S: AsStr>(alloc: Global, words: &[S], fault: &Fault<'_>) -> Usage
    ensures { IsUsage (map S.text words.now) result }
{
    match page_of(words) {
        Some(page) => match text_of(alloc, page) {
            Ok(text) => Usage::Help(text),
            Err(_) => Usage::NoMemory,
        },
        None => match text_of_fault(alloc, fault) {
            Ok(text) => Usage::Bad(text),
            Err(_) => Usage::NoMemory,
        },
    }
}

/// The call that the words are, or why they are none.
fn call_of<S: AsStr>(alloc: Global, words: &[S]) -> Result<Call, Fault<'_>>
    ensures sound { IfOk result (IsCall (map S.text words.now)) }
    ensures complete { (call : Call) → IsCall (map S.text words.now) call
        → (result ≡ Ok call) ⊎ (result ≡ Err Fault.NoMemory) }
{
    let [name, rest @ ..] = words else {
        return Err(Fault::NoCommand);
    };
    let Some(command) = Command::named(name.as_str()) else {
        return Err(fault_of_command(words));
    };
    match options_and_operands(command, rest) {
        Ok((asked, operands)) => call_with(alloc, command, &asked, operands),
        Err(left) => Err(fault_of_words(command, left)),
    }
}

/// The call of a command with these options and operands, or why there is none.
fn call_with<'a, S: AsStr>(
    alloc: Global,
    command: Command,
    asked: &Options<'_>,
    operands: &'a [S],
) -> Result<Call, Fault<'a>>
    ensures sound { IfOk result (λ call. call_of command asked.now (map S.text operands.entry.now) ≡ Some call) }
    ensures complete { (call : Call) → call_of command asked.now (map S.text operands.entry.now) ≡ Some call
        → (result ≡ Ok call) ⊎ (result ≡ Err Fault.NoMemory) }
{
    match made_call(alloc, command, asked, operands) {
        Ok(Some(call)) => Ok(call),
        Ok(None) => Err(fault_of_operands(command, asked, operands)),
        Err(_) => Err(Fault::NoMemory),
    }
}

/// The call of a command with these options and operands, if it takes them.
fn made_call<S: AsStr>(
    alloc: Global,
    command: Command,
    asked: &Options<'_>,
    operands: &[S],
) -> Result<Option<Call>, AllocError>
    ensures { IfOk result (λ call. call ≡ call_of command asked.now (map S.text operands.now)) }
{
    match command {
        Command::Table => table_call(alloc, asked, operands),
        Command::Run => run_call(alloc, asked, operands),
        Command::Closure => closure_call(alloc, asked, operands),
        Command::Compare => Ok(pair_call(alloc, asked, operands)?.map(Call::Compare)),
        Command::Crowd => Ok(pair_call(alloc, asked, operands)?.map(Call::Crowd)),
        Command::Serve => serve_call(alloc, asked, operands),
        Command::Compact => compact_call(alloc, asked, operands),
        Command::Encode => encode_call(alloc, asked, operands),
        Command::Decode => decode_call(alloc, asked, operands),
    }
}

/// The call of `table` with these operands, if they are one file.
fn table_call<S: AsStr>(
    alloc: Global,
    asked: &Options<'_>,
    operands: &[S],
) -> Result<Option<Call>, AllocError>
    ensures { IfOk result (λ call. call ≡ call_of Command.Table asked.now (map S.text operands.now)) }
{
    match operands {
        [file] => {
            let file = Word::new(alloc, file.as_str())?;
            let explain = asked.explain;
            Ok(Some(Call::Table(TableCall { file, explain })))
        }
        _ => Ok(None),
    }
}

/// The call of `run` with these operands, if they are one script.
fn run_call<S: AsStr>(
    alloc: Global,
    asked: &Options<'_>,
    operands: &[S],
) -> Result<Option<Call>, AllocError>
    ensures { IfOk result (λ call. call ≡ call_of Command.Run asked.now (map S.text operands.now)) }
{
    match operands {
        [script] => {
            let script = Word::new(alloc, script.as_str())?;
            let workers = asked.workers;
            let explain = asked.explain;
            Ok(Some(Call::Run(RunCall {
                script,
                workers,
                explain,
            })))
        }
        _ => Ok(None),
    }
}

/// The call of `closure` with these operands, if they are a script and a subject.
fn closure_call<S: AsStr>(
    alloc: Global,
    asked: &Options<'_>,
    operands: &[S],
) -> Result<Option<Call>, AllocError>
    ensures { IfOk result (λ call. call ≡ call_of Command.Closure asked.now (map S.text operands.now)) }
{
    match operands {
        [script, net, slot, node] => match subject_of(net, slot, node) {
            Some(subject) => {
                let script = Word::new(alloc, script.as_str())?;
                let format = asked.format_or_text();
                let explain = asked.explain;
                Ok(Some(Call::Closure(ClosureCall {
                    script,
                    subject,
                    format,
                    explain,
                })))
            }
            None => Ok(None),
        },
        [_, _, _, _, _, ..] => Ok(None),
        _ => Ok(None),
    }
}

/// What these operands ask for of two scripts, if they are two scripts and a subject.
fn pair_call<S: AsStr>(
    alloc: Global,
    asked: &Options<'_>,
    operands: &[S],
) -> Result<Option<PairCall>, AllocError>
    ensures { IfOk result (λ pair. pair ≡ pair_asked asked.now (map S.text operands.now)) }
{
    match operands {
        [first, second, net, slot, node] => match subject_of(net, slot, node) {
            Some(subject) => {
                let first = Word::new(alloc, first.as_str())?;
                let second = Word::new(alloc, second.as_str())?;
                let explain = asked.explain;
                Ok(Some(PairCall {
                    first,
                    second,
                    subject,
                    explain,
                }))
            }
            None => Ok(None),
        },
        [_, _, _, _, _, _, ..] => Ok(None),
        _ => Ok(None),
    }
}

/// The call of `serve` with these operands, if there are none, and a journal that is to be replayed is named.
fn serve_call<S: AsStr>(
    alloc: Global,
    asked: &Options<'_>,
    operands: &[S],
) -> Result<Option<Call>, AllocError>
    ensures { IfOk result (λ call. call ≡ call_of Command.Serve asked.now (map S.text operands.now)) }
{
    match operands {
        [] if asked.lack_journal() => Ok(None),
        [] => {
            let journal = asked.journal_word(alloc)?;
            Ok(Some(Call::Serve(ServeCall {
                workers: asked.workers,
                bytes: asked.bytes,
                explain: asked.explain,
                journal,
                from: asked.from,
            })))
        }
        [_, ..] => Ok(None),
    }
}

/// The call of `compact` with these operands, if they are one file.
fn compact_call<S: AsStr>(
    alloc: Global,
    asked: &Options<'_>,
    operands: &[S],
) -> Result<Option<Call>, AllocError>
    ensures { IfOk result (λ call. call ≡ call_of Command.Compact asked.now (map S.text operands.now)) }
{
    match operands {
        [file] => {
            let file = Word::new(alloc, file.as_str())?;
            Ok(Some(Call::Compact(file)))
        }
        _ => Ok(None),
    }
}

/// The call of `encode` with these operands, if they are four words.
fn encode_call<S: AsStr>(
    alloc: Global,
    asked: &Options<'_>,
    operands: &[S],
) -> Result<Option<Call>, AllocError>
    ensures { IfOk result (λ call. call ≡ call_of Command.Encode asked.now (map S.text operands.now)) }
{
    match operands {
        [from, slot, slices, statement] => {
            let from = Word::new(alloc, from.as_str())?;
            let slot = Word::new(alloc, slot.as_str())?;
            let slices = Word::new(alloc, slices.as_str())?;
            let statement = Word::new(alloc, statement.as_str())?;
            Ok(Some(Call::Encode(EncodeCall {
                from,
                slot,
                slices,
                statement,
            })))
        }
        [_, _, _, _, _, ..] => Ok(None),
        _ => Ok(None),
    }
}

/// The call of `decode` with these operands, if they are one word.
fn decode_call<S: AsStr>(
    alloc: Global,
    asked: &Options<'_>,
    operands: &[S],
) -> Result<Option<Call>, AllocError>
    ensures { IfOk result (λ call. call ≡ call_of Command.Decode asked.now (map S.text operands.now)) }
{
    match operands {
        [digits] => {
            let digits = Word::new(alloc, digits.as_str())?;
            Ok(Some(Call::Decode(digits)))
        }
        _ => Ok(None),
    }
}
