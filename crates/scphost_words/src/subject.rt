//! Which node a command asks about, and in what form its report is wanted.

ghost use Rattle.std.specs.Prelude.{◌≡◌, ◌^◌};
ghost use Rattle.line_script.specs.Words.{word_number};
ghost use Rattle.scphost_words.specs.Subjects.{format_in, subject_in};

use line_script::{counter_of, name_of, number_of};
use scp_types::Subject;
use std::convert::AsStr;

/// The form of a report.
#[derive(Clone, Copy, Debug, PartialEq, Eq)]
pub enum Format {
    /// Lines of text.
    Text,
    /// A graph in the language DOT.
    Dot,
    /// A picture in SVG.
    Svg,
}

/// The subject that three words name: the number of a network, a slot and the name of a node.
pub fn subject_of<S: AsStr>(net: &S, slot: &S, node: &S) -> Option<Subject>
    ensures { result ≡ subject_in (S.text net.now) (S.text slot.now) (S.text node.now) }
{
    let net = network_of(net.as_str())?;
    let slot = number_in(slot.as_str())?;
    let node = name_of(node.as_str().as_bytes())?;
    Some(Subject { net, slot, node })
}

/// The number below 2^32 that a word spells.
pub fn network_of(word: &str) -> Option<u32>
    ensures { result ≡ word_number (2 ^ 32) word.now }
{
    counter_of(word.as_bytes())
}

/// The number below 2^64 that a word spells.
pub fn number_in(word: &str) -> Option<u64>
    ensures { result ≡ word_number (2 ^ 64) word.now }
{
    number_of(word.as_bytes())
}

/// The form that a word names.
pub fn format_of(word: &str) -> Option<Format>
    ensures { result ≡ format_in word.now }
{
    match word {
        "text" => Some(Format::Text),
        "dot" => Some(Format::Dot),
        "svg" => Some(Format::Svg),
        _ => None,
    }
}
