//! The pages of help, written from the forms of the commands.
//!
//! An error of a function here says that it is out of memory.

use crate::form::{COMMANDS, Form, Part, form_of};
use crate::help::Page;
use std::alloc::{AllocError, Global};

/// What the program is.
const ABOUT: &str = "A host of SCP validators\n\nUsage: scphost <COMMAND>\n";

/// What `--version` prints.
const VERSION: &str = "scphost 0.1.0\n";

/// What `help help` prints.
const HELP: &str = "Print this message or the help of the given subcommand(s)

Usage: scphost help [COMMAND]...

Arguments:
  [COMMAND]...  Print help for the subcommand(s)
";

const HELP_COMMAND: Part<'static> = Part {
    name: "help",
    about: "Print this message or the help of the given subcommand(s)",
};

const HELP_OPTION: Part<'static> = Part {
    name: "-h, --help",
    about: "Print help",
};

const VERSION_OPTION: Part<'static> = Part {
    name: "-V, --version",
    about: "Print version",
};

/// The text of a page. An error says that it is out of memory.
pub fn text_of(alloc: Global, page: Page) -> Result<String, AllocError> {
    match page {
        Page::Whole => whole_page(alloc),
        Page::Version => String::from_str(alloc, VERSION),
        Page::Help => String::from_str(alloc, HELP),
        Page::Of(command) => command_page(alloc, &form_of(command)),
    }
}

fn whole_page(alloc: Global) -> Result<String, AllocError> {
    let mut text = String::from_str(alloc, ABOUT)?;
    text.push_str("\nCommands:\n")?;
    for command in &COMMANDS {
        push_part(&mut text, "", &form_of(*command).command, 7)?;
    }
    push_part(&mut text, "", &HELP_COMMAND, 7)?;
    text.push_str("\nOptions:\n")?;
    push_part(&mut text, "", &HELP_OPTION, 13)?;
    push_part(&mut text, "", &VERSION_OPTION, 13)?;
    Ok(text)
}

fn command_page(alloc: Global, form: &Form<'_>) -> Result<String, AllocError> {
    let mut text = String::from_str(alloc, form.command.about)?;
    text.push_str("\n\n")?;
    push_usage(&mut text, form)?;
    text.push_str("\n")?;
    push_operands(&mut text, form.operands)?;
    text.push_str("\nOptions:\n")?;
    // The options have no letters: they stand below the long name of `-h, --help`.
    let width = widest(form.options)
        .saturating_add(4)
        .max(HELP_OPTION.name.len());
    for option in form.options {
        push_part(&mut text, "    ", option, width.saturating_sub(4))?;
    }
    push_part(&mut text, "", &HELP_OPTION, width)?;
    text.push_str("\n")?;
    text.push_str(form.more)?;
    text.push_str("\n")?;
    Ok(text)
}

/// Adds what is said of operands, if there are some.
fn push_operands(text: &mut String, operands: &[Part<'_>]) -> Result<(), AllocError> {
    if operands.is_empty() {
        return Ok(());
    }
    text.push_str("\nArguments:\n")?;
    let width = widest(operands);
    for operand in operands {
        push_part(text, "", operand, width)?;
    }
    Ok(())
}

/// Adds how a command is called.
pub fn push_usage(text: &mut String, form: &Form<'_>) -> Result<(), AllocError> {
    text.push_str("Usage: scphost ")?;
    text.push_str(form.command.name)?;
    if !form.options.is_empty() {
        text.push_str(" [OPTIONS]")?;
    }
    push_names(text, form.operands)
}

/// Adds the names of parts, each behind a space.
pub fn push_names(text: &mut String, parts: &[Part<'_>]) -> Result<(), AllocError> {
    for part in parts {
        text.push_str(" ")?;
        text.push_str(part.name)?;
    }
    Ok(())
}

/// Adds a line on a part: its name behind these spaces, in a column of this width, and what is said about it.
fn push_part(
    text: &mut String,
    before: &str,
    part: &Part<'_>,
    width: usize,
) -> Result<(), AllocError> {
    write!(text, "  {before}{:<width$}  {}\n", part.name, part.about)
}

/// The width of the widest name.
fn widest(parts: &[Part<'_>]) -> usize {
    parts.iter().map(|part| part.name.len()).max().unwrap_or(0)
}
