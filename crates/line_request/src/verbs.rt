//! The first words of lines.

ghost use Rattle.std.specs.Prelude.{◌≡◌, nat_eq};
ghost use lib.Pointwise.{pointwise};
ghost use Rattle.line_request.specs.Lines.{verb_in};

/// What kind of line it is, by its first word.
#[derive(Clone, Copy, Debug, PartialEq, Eq)]
pub enum Verb {
    /// `net`: a network is declared, with its budgets.
    Net,
    /// `node`: a network hosts this node.
    Node,
    /// `roster`: a network reserves shares for these names.
    Roster,
    /// It asks for an event.
    Event(EventVerb),
    /// `settle`: a slot is run until all is heard.
    Settle,
}

/// Which event a line asks for, by its first word.
#[derive(Clone, Copy, Debug, PartialEq, Eq)]
pub enum EventVerb {
    /// `open`: a slot is opened.
    Open,
    /// `close`: a slot is closed.
    Close,
    /// `propose`: a node is to propose a value.
    Propose,
    /// `deliver`: bytes reach a node.
    Deliver,
    /// `say`: the bytes of an envelope in words reach a node.
    Say,
    /// `hear`: a node hears an emission of another one.
    Hear,
    /// `ntimer`: the nomination timer of a round fires.
    NominationTimer,
    /// `btimer`: the ballot timer for a counter fires.
    BallotTimer,
    /// `reslice`: a node has other slices.
    Reslice,
}

pub(crate) fn verb_of(word: &[u8]) -> Option<Verb>
    ensures { result ≡ verb_in word.now }
{
    match word {
        _ if is_word(word, b"net") => Some(Verb::Net),
        _ if is_word(word, b"node") => Some(Verb::Node),
        _ if is_word(word, b"roster") => Some(Verb::Roster),
        _ if is_word(word, b"open") => Some(Verb::Event(EventVerb::Open)),
        _ if is_word(word, b"close") => Some(Verb::Event(EventVerb::Close)),
        _ if is_word(word, b"propose") => Some(Verb::Event(EventVerb::Propose)),
        _ if is_word(word, b"deliver") => Some(Verb::Event(EventVerb::Deliver)),
        _ if is_word(word, b"say") => Some(Verb::Event(EventVerb::Say)),
        _ if is_word(word, b"hear") => Some(Verb::Event(EventVerb::Hear)),
        _ if is_word(word, b"ntimer") => Some(Verb::Event(EventVerb::NominationTimer)),
        _ if is_word(word, b"btimer") => Some(Verb::Event(EventVerb::BallotTimer)),
        _ if is_word(word, b"reslice") => Some(Verb::Event(EventVerb::Reslice)),
        _ if is_word(word, b"settle") => Some(Verb::Settle),
        _ => None,
    }
}

/// Whether a field has the bytes of this word and no others.
pub fn is_word(field: &[u8], word: &[u8]) -> bool
    ensures { result ≡ pointwise nat_eq field.now word.now }
{
    field == word
}
