//! Lines of right words that are bad where they stand.

use crate::Kind;
use crate::above::{Seen, seen_in};
use crate::forms::has_word;
use crate::texts::{Fault, filled};
use host_config::MAX_NODES;
use std::alloc::{AllocError, Global};

/// The most networks that are declared at a time.
const MAX_NETWORKS: usize = 4096;

/// The word that is wrong wherever the line stands in a text of this kind, and why. A line of a table that has its form
/// is bad only by its place.
pub(crate) fn fault_of_kind(kind: Kind, words: &[&[u8]]) -> Option<(usize, &'static str)> {
    let [first, ..] = words else {
        return None;
    };
    match kind {
        Kind::Script => None,
        Kind::Table => Some((0, "self stands in the first line, and there alone")),
        Kind::Live => match *first {
            b"hear" | b"settle" => Some((0, "in a live host each node hears the others by itself")),
            _ => None,
        },
        Kind::Submission => match *first {
            b"settle" => Some((0, "no slot settles in a script that is submitted")),
            _ => at_served(
                words,
                first,
                "served networks are none of a script that is submitted",
            ),
        },
        Kind::Jobs => match *first {
            b"settle" | b"close" => Some((
                0,
                "lines that settle or close a slot are none of workers",
            )),
            _ => at_served(words, first, "served networks are none of workers"),
        },
    }
}

/// The text, at the word that only lines of served networks have.
fn at_served(words: &[&[u8]], first: &[u8], text: &'static str) -> Option<(usize, &'static str)> {
    match first {
        b"drop" => Some((0, text)),
        b"net" if has_word(words, 8, b"served") => Some((8, text)),
        _ if has_word(words, 2, b"*") => Some((2, text)),
        _ => None,
    }
}

/// The fault of words by the lines above them, at the number of the network.
pub(crate) fn fault_of_place(
    alloc: Global,
    above: Option<&[u8]>,
    words: &[&[u8]],
) -> Result<Option<Fault>, AllocError> {
    let [first, number, rest @ ..] = words else {
        return Ok(None);
    };
    let name: &[u8] = match rest {
        [name, ..] => name,
        [] => &[],
    };
    let for_all = has_word(words, 2, b"*");
    let text = match above {
        None => text_unseen(first, for_all),
        Some(lines) => text_seen(&seen_in(lines, number, name), first, for_all),
    };
    match text {
        Some(text) => Ok(Some(Fault {
            word: 1,
            text: filled(alloc, text, number, name)?,
        })),
        None => Ok(None),
    }
}

/// What may be wrong with a line that begins with this word, if the lines above it were not kept.
fn text_unseen(first: &[u8], for_all: bool) -> Option<&'static str> {
    match first {
        b"net" => Some("network % is declared already, or 4,096 networks are"),
        b"node" => Some(
            "network % takes no node now: it is not declared, an event has named it, or it has this node or 256",
        ),
        b"roster" => Some(
            "network % takes no roster now: it is not declared, an event has named it, or it has a roster",
        ),
        b"drop" => Some("network % is not served"),
        b"hear" | b"settle" => Some("network % has no node yet, or it is served"),
        b"show" | b"left" => None,
        _ if for_all => Some("network % has no node yet, or it is not served"),
        _ => Some("network % has no node yet"),
    }
}

/// What is wrong with a line that begins with this word, by what the lines above say.
fn text_seen(seen: &Seen, first: &[u8], for_all: bool) -> Option<&'static str> {
    match first {
        b"net" => text_of_net(seen),
        b"node" | b"roster" => text_of_part(seen, first),
        _ if !seen.is_declared => None,
        b"drop" if seen.is_served => None,
        b"drop" => Some("network % is not served"),
        _ if seen.nodes == 0 && seen.is_named => {
            Some("network % can have no node: an event has named it above its net line")
        }
        _ if seen.nodes == 0 => Some("network % has no node yet"),
        _ if for_all && !seen.is_served => Some("network % is not served"),
        b"hear" | b"settle" if seen.is_served => {
            Some("network % is served: there each hears the others by itself")
        }
        _ => None,
    }
}

fn text_of_net(seen: &Seen) -> Option<&'static str> {
    match seen.is_declared {
        true => Some("network % is declared above already"),
        false if seen.nets >= MAX_NETWORKS => Some("4,096 networks are declared"),
        false => None,
    }
}

/// What is wrong with a line that gives a network a node or a roster.
fn text_of_part(seen: &Seen, first: &[u8]) -> Option<&'static str> {
    match first {
        _ if !seen.is_declared => Some("no net line above declares network %"),
        _ if seen.is_named => {
            Some("an event above has named network %: its node and roster lines stand before it")
        }
        b"roster" if seen.has_roster => Some("network % has a roster already"),
        b"node" if seen.has_node => Some("network % has a node @ already"),
        b"node" if seen.nodes >= MAX_NODES => Some("network % has 256 nodes"),
        _ => None,
    }
}
