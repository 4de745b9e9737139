//! The forms of lines. Words in small letters, and `*`, stand in a line as they are; the others say what stands there.

use crate::Kind;

/// The form of the lines of a kind that begin with these words; `None` if there are no such lines.
pub(crate) fn form_of(kind: Kind, words: &[&[u8]]) -> Option<&'static str> {
    let [first, ..] = words else {
        return None;
    };
    match kind {
        Kind::Table => form_of_table(first),
        Kind::Live => form_of_live(words, first),
        Kind::Script | Kind::Submission | Kind::Jobs => form_of_script(words, first),
    }
}

/// What is said of a line whose first word is none of its kind.
pub(crate) fn known_words(kind: Kind) -> &'static str {
    match kind {
        Kind::Table => {
            "no line of a table begins with this word: self, env, put, ask, reach or show do"
        }
        Kind::Live => {
            "no line of a live host begins with this word: net, node, roster, open, close, propose, deliver, say, ntimer, \
             btimer, reslice, drop, show or left do"
        }
        Kind::Script | Kind::Submission | Kind::Jobs => {
            "no line of a script begins with this word: net, node, roster, open, close, propose, deliver, say, hear, ntimer, \
             btimer, reslice, settle or drop do"
        }
    }
}

fn form_of_table(first: &[u8]) -> Option<&'static str> {
    match first {
        b"self" => Some("self NAME SLOT SLICES"),
        b"env" => Some("env HEX"),
        b"put" => Some("put FROM SLICES STATEMENT"),
        b"ask" => Some("ask BALLOT"),
        b"reach" => Some("reach"),
        b"show" => Some("show"),
        _ => None,
    }
}

fn form_of_live(words: &[&[u8]], first: &[u8]) -> Option<&'static str> {
    match first {
        b"net" => Some("net N events E bytes B slots S served"),
        b"show" => Some("show N I NODE"),
        b"left" => Some("left N"),
        _ => form_of_script(words, first),
    }
}

fn form_of_script(words: &[&[u8]], first: &[u8]) -> Option<&'static str> {
    match first {
        b"net" if has_word(words, 8, b"served") => Some("net N events E bytes B slots S served"),
        b"net" => Some("net N events E bytes B slots S"),
        b"node" => Some("node N NAME SLICES"),
        b"roster" => Some("roster N own O pair P bytes B opens S NAME,NAME,.."),
        b"open" => Some("open N I"),
        b"close" => Some("close N I"),
        b"propose" => Some("propose N I NAME VALUE"),
        b"deliver" if has_word(words, 2, b"*") => Some("deliver N * HEX"),
        b"deliver" => Some("deliver N NAME HEX"),
        b"say" if has_word(words, 2, b"*") => Some("say N * FROM I SLICES STATEMENT"),
        b"say" => Some("say N NAME FROM I SLICES STATEMENT"),
        b"hear" => Some("hear N I NAME FROM KIND K"),
        b"ntimer" => Some("ntimer N I NAME R"),
        b"btimer" => Some("btimer N I NAME C"),
        b"reslice" => Some("reslice N I NAME SLICES"),
        b"settle" => Some("settle N I"),
        b"drop" => Some("drop N"),
        _ => None,
    }
}

/// Whether a line has this word at a place, counted from 0.
pub(crate) fn has_word(words: &[&[u8]], place: usize, wanted: &[u8]) -> bool {
    match words.get(place) {
        Some(word) => *word == wanted,
        None => false,
    }
}
