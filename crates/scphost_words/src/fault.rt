//! What is wrong with words that are no call, and how that is told.

use crate::command::Command;
use crate::form::{COMMANDS, FORMAT, FROM, Form, JOURNAL, NET, NODE, Part, SLOT, WORKERS, form_of};
use crate::operands::is_plain;
use crate::options::{Options, workers_in};
use crate::pages::{push_names, push_usage};
use crate::replay::replay_of;
use crate::subject::{format_of, network_of, number_in};
use line_script::name_of;
use std::alloc::{AllocError, Global};
use std::convert::AsStr;

/// Why words are no call.
#[derive(Clone, Copy)]
pub enum Fault<'a> {
    /// No command is named.
    NoCommand,
    /// This is no command.
    UnknownCommand(&'a str),
    /// This word has no place, behind this command or where a command should stand.
    Unexpected(Option<Command>, &'a str),
    /// Operands of this command are missing: whether options are given, and how many operands are.
    Missing(Command, bool, usize),
    /// This option has no value.
    NoValue(&'a str),
    /// A journal is to be replayed, and none is named.
    NoJournal,
    /// This option or operand does not take this value.
    BadValue(&'a str, &'a str),
    /// This option of a command is given twice.
    Twice(Command, &'a str),
    /// Two hyphens stand in the wrong place.
    BadWord,
    /// It was out of memory when it read the words.
    NoMemory,
}

/// What is wrong if the first word is no command.
pub fn fault_of_command<S: AsStr>(words: &[S]) -> Fault<'_> {
    match words {
        [] => Fault::NoCommand,
        [name, rest @ ..] if name.as_str() == "--" => match rest {
            [] => Fault::NoCommand,
            [word, ..] => Fault::Unexpected(None, word.as_str()),
        },
        [name, .., last] if name.as_str() == "help" => Fault::UnknownCommand(last.as_str()),
        [name, ..] if is_plain(name) => Fault::UnknownCommand(name.as_str()),
        [name, ..] => Fault::Unexpected(None, name.as_str()),
    }
}

/// What is wrong if options and operands could not be read on at these words.
pub fn fault_of_words<S: AsStr>(command: Command, words: &[S]) -> Fault<'_> {
    match words {
        [word, ..] if word.as_str() != "--" => fault_of_option(command, words),
        _ => Fault::BadWord,
    }
}

/// What is wrong if the first word has no place behind a command, or is one of its options.
fn fault_of_option<'a, S: AsStr>(command: Command, words: &'a [S]) -> Fault<'a> {
    let [first, ..] = words else {
        return Fault::BadWord;
    };
    let word = first.as_str();
    let Some(option) = option_of(command, name_in(word)) else {
        return Fault::Unexpected(Some(command), word);
    };
    if option.name == word {
        return Fault::Twice(command, option.name);
    }
    if !wants_value(&option, name_in(word)) {
        return Fault::Unexpected(Some(command), word);
    }
    match value_in(words) {
        None => Fault::NoValue(option.name),
        Some(value) if takes(option.name, value) => Fault::Twice(command, option.name),
        Some(value) => Fault::BadValue(option.name, value),
    }
}

/// The option of a command that has this name.
fn option_of(command: Command, name: &str) -> Option<Part<'static>> {
    for option in form_of(command).options {
        if option.name == name || wants_value(option, name) {
            return Some(*option);
        }
    }
    None
}

/// The name of an option, with a value behind `=` or none.
fn name_in(word: &str) -> &str {
    match word.split_once('=') {
        Some((name, _)) => name,
        None => word,
    }
}

/// The value of the option that the first word is: what stands behind `=`, or the next word.
fn value_in<S: AsStr>(words: &[S]) -> Option<&str> {
    let [word, rest @ ..] = words else {
        return None;
    };
    match word.as_str().split_once('=') {
        Some((_, value)) => Some(value),
        None => match rest {
            [next, ..] => Some(next.as_str()),
            [] => None,
        },
    }
}

/// Whether the option or operand of this name takes this value.
fn takes(name: &str, value: &str) -> bool {
    if name == WORKERS.name {
        workers_in(value).is_some()
    } else if name == FORMAT.name {
        format_of(value).is_some()
    } else if name == FROM.name {
        replay_of(value).is_some()
    } else if name == NET.name {
        network_of(value).is_some()
    } else if name == SLOT.name {
        number_in(value).is_some()
    } else if name == NODE.name {
        name_of(value.as_bytes()).is_some()
    } else {
        true
    }
}

/// What the option or operand of this name takes.
fn wanted_by(name: &str) -> &'static str {
    if name == WORKERS.name {
        "a number from 1 to 64, without zeros in front"
    } else if name == FORMAT.name {
        "text, dot or svg"
    } else if name == FROM.name {
        "the number of a line, from 1 on, or open"
    } else if name == NET.name {
        "a number below 2^32, without zeros in front"
    } else if name == SLOT.name {
        "a number below 2^64, without zeros in front"
    } else {
        "1 to 32 letters or digits, or 64 lower-case hexadecimal digits"
    }
}

/// Whether the option has this name, and wants a value behind it.
fn wants_value(option: &Part<'_>, name: &str) -> bool {
    match option.name.strip_prefix(name) {
        Some(value) => value.starts_with(' '),
        None => false,
    }
}

/// What is wrong with the operands of a command, if they make no call with these options.
pub fn fault_of_operands<'a, S: AsStr>(
    command: Command,
    asked: &Options<'_>,
    operands: &'a [S],
) -> Fault<'a> {
    let wanted = form_of(command).operands.len();
    match operands.get(wanted) {
        Some(word) => Fault::Unexpected(Some(command), word.as_str()),
        None if operands.len() < wanted => {
            Fault::Missing(command, asked.are_given(), operands.len())
        }
        None if asked.lack_journal() => Fault::NoJournal,
        None => fault_of_operand(form_of(command).operands, operands),
    }
}

/// What is wrong with the first operand that does not take its value.
fn fault_of_operand<'a, S: AsStr>(parts: &[Part<'a>], operands: &'a [S]) -> Fault<'a> {
    for place in 0..operands.len() {
        let value = operands[place].as_str();
        if let Some(part) = parts.get(place) {
            if !takes(part.name, value) {
                return Fault::BadValue(part.name, value);
            }
        }
    }
    Fault::BadWord
}

/// What is said of a fault. An error says that it is out of memory.
pub fn text_of_fault(alloc: Global, fault: &Fault<'_>) -> Result<String, AllocError> {
    if matches!(fault, Fault::BadWord) {
        return String::from_str(alloc, "bad usage\n");
    }
    let mut text = String::from_str(alloc, "error: ")?;
    push_fault(&mut text, fault)?;
    text.push_str("\nFor more information, try '--help'.\n")?;
    Ok(text)
}

/// Adds what a fault is, and how the program or the command is called.
fn push_fault(text: &mut String, fault: &Fault<'_>) -> Result<(), AllocError> {
    match fault {
        Fault::NoCommand => push_no_command(text),
        Fault::UnknownCommand(word) => {
            write!(
                text,
                "unrecognized subcommand '{word}'\n\nUsage: scphost <COMMAND>\n"
            )
        }
        Fault::Unexpected(None, word) => {
            write!(
                text,
                "unexpected argument '{word}' found\n\nUsage: scphost <COMMAND>\n"
            )
        }
        Fault::Unexpected(Some(command), word) => push_unexpected(text, *command, word),
        Fault::Missing(command, has_options, given) => {
            push_missing(text, &form_of(*command), *has_options, *given)
        }
        Fault::NoValue(option) => {
            write!(
                text,
                "a value is required for '{option}' but none was supplied\n"
            )
        }
        Fault::NoJournal => push_no_journal(text),
        Fault::BadValue(name, value) => {
            let wanted = wanted_by(name);
            write!(
                text,
                "invalid value '{value}' for '{name}': it takes {wanted}\n"
            )
        }
        Fault::Twice(command, option) => {
            write!(
                text,
                "the argument '{option}' cannot be used multiple times\n\n"
            )?;
            push_usage(text, &form_of(*command))?;
            text.push_str("\n")
        }
        Fault::BadWord | Fault::NoMemory => Ok(()),
    }
}

/// Adds that a word has no place behind a command. If it looks like an option and the command takes operands, it adds
/// how it could be one.
fn push_unexpected(text: &mut String, command: Command, word: &str) -> Result<(), AllocError> {
    let form = form_of(command);
    write!(text, "unexpected argument '{word}' found\n\n")?;
    if word.starts_with('-') && word.len() > 1 && !form.operands.is_empty() {
        write!(
            text,
            "  tip: to pass '{word}' as a value, use '-- {word}'\n\n"
        )?;
    }
    push_usage(text, &form)?;
    text.push_str("\n")
}

/// Adds that a command is missing, and which there are.
fn push_no_command(text: &mut String) -> Result<(), AllocError> {
    text.push_str("'scphost' requires a subcommand but one was not provided\n  [subcommands: ")?;
    for command in &COMMANDS {
        text.push_str(form_of(*command).command.name)?;
        text.push_str(", ")?;
    }
    text.push_str("help]\n\nUsage: scphost <COMMAND>\n")
}

/// Adds which operands are missing behind the first `given`, and how the command is called.
fn push_missing(
    text: &mut String,
    form: &Form<'_>,
    has_options: bool,
    given: usize,
) -> Result<(), AllocError> {
    text.push_str("the following required arguments were not provided:\n")?;
    for operand in form.operands.iter().skip(given) {
        write!(text, "  {}\n", operand.name)?;
    }
    text.push_str("\nUsage: scphost ")?;
    text.push_str(form.command.name)?;
    if has_options {
        text.push_str(" [OPTIONS]")?;
    }
    push_names(text, form.operands)?;
    text.push_str("\n")
}

/// Adds that a journal is missing for `--from`, and how it is named.
fn push_no_journal(text: &mut String) -> Result<(), AllocError> {
    let (journal, from) = (JOURNAL.name, FROM.name);
    write!(
        text,
        "the following required arguments were not provided:\n  {journal}\n\nUsage: scphost serve {journal} {from}\n"
    )
}
