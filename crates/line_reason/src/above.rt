//! What the lines above a line say of its network.

use crate::lines::cut_word;
use line_script::name_of;

/// What lines say of one network.
#[derive(Clone, Copy)]
pub(crate) struct Seen {
    /// How many lines declare networks.
    pub nets: usize,
    /// It is declared.
    pub is_declared: bool,
    /// It is declared as served.
    pub is_served: bool,
    /// An event or a `settle` line has named it.
    pub is_named: bool,
    /// How many nodes it has.
    pub nodes: usize,
    /// It has the node of the name that is asked for.
    pub has_node: bool,
    /// It has a roster.
    pub has_roster: bool,
}

/// What these lines, none of which is bad, say of the network with a number, and of its node with a name.
pub(crate) fn seen_in(lines: &[u8], number: &[u8], name: &[u8]) -> Seen {
    let mut seen = nothing(0);
    for line in lines.split(|byte| *byte == b'\n') {
        seen = seen_with(seen, line, number, name);
    }
    seen
}

/// No line has named the network, and `nets` lines declare networks.
fn nothing(nets: usize) -> Seen {
    Seen {
        nets,
        is_declared: false,
        is_served: false,
        is_named: false,
        nodes: 0,
        has_node: false,
        has_roster: false,
    }
}

fn seen_with(seen: Seen, line: &[u8], number: &[u8], name: &[u8]) -> Seen {
    if matches!(line, [] | [b'#', ..]) {
        return seen;
    }
    let (verb, rest) = cut_word(line);
    let (named, rest) = cut_word(rest);
    let nets = match verb {
        b"net" => seen.nets.saturating_add(1),
        _ => seen.nets,
    };
    if named == number {
        seen_of(Seen { nets, ..seen }, verb, rest, name)
    } else {
        Seen { nets, ..seen }
    }
}

/// What a line says that names the network, and has these words behind its number.
fn seen_of(seen: Seen, verb: &[u8], rest: &[u8], name: &[u8]) -> Seen {
    match verb {
        b"net" => Seen {
            is_declared: true,
            is_served: rest.ends_with(b" served"),
            ..seen
        },
        b"node" => Seen {
            nodes: seen.nodes.saturating_add(1),
            has_node: seen.has_node || name_of(name) == name_of(cut_word(rest).0),
            ..seen
        },
        b"roster" => Seen {
            has_roster: true,
            ..seen
        },
        b"drop" if seen.is_declared => nothing(seen.nets),
        b"drop" => seen,
        _ => Seen {
            is_named: true,
            ..seen
        },
    }
}
