//! Which form a line of a live host has.

ghost use Rattle.std.specs.Prelude.{◌≡◌, map};
ghost use Rattle.line_request.specs.Forms.{form_in, is_for_all};

use crate::verbs::is_word;

/// Which form a line has, by its first words.
#[derive(Clone, Copy, Debug, PartialEq, Eq)]
pub enum Form {
    /// `net`: a network is declared, with the word `served` behind its budgets.
    Net,
    /// `deliver N *` and `say N *`: bytes reach each hosted node.
    ForAll,
    /// `drop`: a network is taken back.
    Drop,
    /// `left`: what is left of the budgets of a network.
    Left,
    /// `show`: what a node is.
    Show,
    /// A line of scripts, if it is one.
    Script,
}

pub(crate) fn form_of(fields: &[&[u8]]) -> Form
    ensures { result ≡ form_in (map (λ field. field.now) fields.now) }
{
    match fields {
        [word, ..] if is_word(word, b"net") => Form::Net,
        [word, ..] if is_word(word, b"drop") => Form::Drop,
        [word, ..] if is_word(word, b"left") => Form::Left,
        [word, ..] if is_word(word, b"show") => Form::Show,
        [word, _, star, ..] if is_for_all(word, star) => Form::ForAll,
        _ => Form::Script,
    }
}

/// Whether a line with this first and this third word is for all hosted nodes.
fn is_for_all(word: &[u8], star: &[u8]) -> bool
    ensures { result ≡ is_for_all word.now star.now }
{
    is_word(star, b"*") && (is_word(word, b"deliver") || is_word(word, b"say"))
}
