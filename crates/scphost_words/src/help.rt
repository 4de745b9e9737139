//! Words that ask for help.

ghost use Rattle.std.specs.Prelude.{◌≡◌, map, option_map};
ghost use Rattle.scphost_words.specs.Commands.{command_in};
ghost use Rattle.scphost_words.specs.Help.{ask_help, asks_help, asks_version, has_letter, page_in, page_named};

use crate::command::Command;
use std::convert::AsStr;

/// A page of help.
#[derive(Clone, Copy)]
pub enum Page {
    /// What the program is, and its commands.
    Whole,
    /// Its version.
    Version,
    /// What `help` does.
    Help,
    /// What a command does.
    Of(Command),
}

/// The page of help that words ask for. It is the whole for `--help` or `help`, and the version for `--version`. It is
/// that of a command for `help COMMAND` or for a `--help` behind its name. `None` if they ask for none, or for that of
/// an unknown command; what stands behind the first `--` asks for nothing.
pub fn page_of<S: AsStr>(words: &[S]) -> Option<Page>
    ensures { result ≡ page_in (map S.text words.now) }
{
    let [name, rest @ ..] = words else {
        return None;
    };
    let name = name.as_str();
    if asks_help(name) {
        Some(Page::Whole)
    } else if asks_version(name) {
        Some(Page::Version)
    } else if name == "help" {
        page_named(rest)
    } else if ask_help(rest) {
        page_of_command(name)
    } else {
        None
    }
}

/// The page that the words behind `help` ask for.
fn page_named<S: AsStr>(words: &[S]) -> Option<Page>
    ensures { result ≡ page_named (map S.text words.now) }
{
    match words {
        [] => Some(Page::Whole),
        [name] if name.as_str() == "help" => Some(Page::Help),
        [name] => page_of_command(name.as_str()),
        [_, _, ..] => None,
    }
}

/// The page of the command of this name, if there is one.
fn page_of_command(name: &str) -> Option<Page>
    ensures { result ≡ option_map Page.Of (command_in name.now) }
{
    Some(Page::Of(Command::named(name)?))
}

/// Whether a word in front of the first `--` asks for help.
fn ask_help<S: AsStr>(words: &[S]) -> bool
    ensures { result ≡ ask_help (map S.text words.now) }
{
    match words {
        [] => false,
        [word, rest @ ..] => {
            let word = word.as_str();
            word != "--" && (asks_help(word) || ask_help(rest))
        }
    }
}

/// Whether the word asks for help: `--help`, or `-h` with any further letters.
fn asks_help(word: &str) -> bool
    ensures { result ≡ asks_help word.now }
{
    word == "--help" || has_letter(word, b'h')
}

/// Whether the word asks for the version: `--version`, or `-V` with any further letters.
fn asks_version(word: &str) -> bool
    ensures { result ≡ asks_version word.now }
{
    word == "--version" || has_letter(word, b'V')
}

/// Whether the word is a hyphen with this letter behind it, and with any further letters.
fn has_letter(word: &str, letter: u8) -> bool
    ensures { result ≡ has_letter letter word.now }
{
    match word.as_bytes() {
        [b'-', first, ..] => *first == letter,
        _ => false,
    }
}
