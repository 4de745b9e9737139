//! Events as lines write them, after the number of the network. Fields that have not this form ask for none.

ghost use Rattle.std.specs.Prelude.{◌≡◌, IfOk, IfSome, map, option_map};
ghost use Rattle.line_request.specs.Lines.{AreSaid, AsksReslice, AsksSay, IsEventAsked, IsRead, ballot_timer_in, closing_in, delivery_in, emission_in, five, hearing_in, kind_in, nomination_timer_in, opening_in, slot_and_node_in, proposal_in, saying_in, slot_in, three, word_proposal};

use crate::verbs::{EventVerb, is_word};
use line_script::{
    bytes_of, counter_of, digits_of, name_of, number_of, slices_of, statement_of, value_of,
};
use scp_codec::encode;
use scp_types::{Bytes, Envelope, Event, Kind, NodeId, Statement};
use std::alloc::{AllocError, Global};

pub(crate) fn event_of(
    alloc: Global,
    verb: EventVerb,
    fields: &[&[u8]],
) -> Result<Option<Event>, AllocError>
    ensures { IfOk result (IsEventAsked verb (map (λ field. field.now) fields.now)) }
{
    match verb {
        EventVerb::Open => Ok(open(fields)),
        EventVerb::Close => Ok(close(fields)),
        EventVerb::Propose => propose(alloc, fields),
        EventVerb::Deliver => deliver(alloc, fields),
        EventVerb::Say => say(alloc, fields),
        EventVerb::Hear => Ok(hear(fields)),
        EventVerb::NominationTimer => Ok(nomination_timer(fields)),
        EventVerb::BallotTimer => Ok(ballot_timer(fields)),
        EventVerb::Reslice => reslice(alloc, fields),
    }
}

/// `I`: the slot is opened.
fn open(fields: &[&[u8]]) -> Option<Event>
    ensures { result ≡ opening_in (map (λ field. field.now) fields.now) }
{
    let [slot] = fields else {
        return None;
    };
    let slot = number_of(slot)?;
    Some(Event::OpenSlot { slot })
}

/// `I`: the slot is closed.
fn close(fields: &[&[u8]]) -> Option<Event>
    ensures { result ≡ closing_in (map (λ field. field.now) fields.now) }
{
    let [slot] = fields else {
        return None;
    };
    let slot = number_of(slot)?;
    Some(Event::CloseSlot { slot })
}

/// `I NAME VALUE`: the node is to propose these bytes. If they are written as digits, the network tests how many they
/// are.
fn propose(alloc: Global, fields: &[&[u8]]) -> Result<Option<Event>, AllocError>
    ensures { IfOk result (λ o. o ≡ proposal_in (map (λ field. field.now) fields.now)) }
{
    let Some((slot, node, value)) = three_of(fields) else {
        return Ok(None);
    };
    let Some((slot, node)) = slot_and_node_in(slot, node) else {
        return Ok(None);
    };
    let Some(value) = proposal_of(alloc, value)? else {
        return Ok(None);
    };
    Ok(Some(Event::Propose {
        slot,
        node,
        value: Bytes::new(value),
    }))
}

/// The bytes of a proposal: a plain value, or `#` and any even number of digits.
fn proposal_of(alloc: Global, word: &[u8]) -> Result<Option<Vec<u8>>, AllocError>
    ensures { IfOk result (λ o. option_map (λ v. v.items) o ≡ word_proposal word.now) }
{
    match word {
        [b'#', digits @ ..] => digits_of(alloc, digits),
        _ => match value_of(alloc, word)? {
            Some(value) => Ok(Some(Vec::from_slice(alloc, value.as_bytes())?)),
            None => Ok(None),
        },
    }
}

/// `NAME HEX`: the bytes reach the node.
fn deliver(alloc: Global, fields: &[&[u8]]) -> Result<Option<Event>, AllocError>
    ensures { IfOk result (λ o. o ≡ delivery_in (map (λ field. field.now) fields.now)) }
{
    let [node, bytes] = fields else {
        return Ok(None);
    };
    let Some(node) = name_of(node) else {
        return Ok(None);
    };
    let Some(bytes) = bytes_of(alloc, bytes)? else {
        return Ok(None);
    };
    Ok(Some(Event::Deliver {
        node,
        bytes: Bytes::new(bytes),
    }))
}

/// `NAME FROM I SLICES STATEMENT`: the bytes of this envelope reach the node. A statement that is not well
/// formed asks for no event.
fn say(alloc: Global, fields: &[&[u8]]) -> Result<Option<Event>, AllocError>
    ensures { IfOk result (IsRead (AsksSay (map (λ field. field.now) fields.now))) }
{
    let Some((node, from, slot, slices, statement)) = five_of(fields) else {
        return Ok(None);
    };
    let Some(node) = name_of(node) else {
        return Ok(None);
    };
    match envelope_bytes(alloc, from, slot, slices, statement)? {
        Some(bytes) => Ok(Some(Event::Deliver { node, bytes })),
        None => Ok(None),
    }
}

fn envelope_bytes(
    alloc: Global,
    from: &[u8],
    slot: &[u8],
    slices: &[u8],
    statement: &[u8],
) -> Result<Option<Bytes>, AllocError>
    ensures { IfOk result (IsRead (λ bytes. AreSaid bytes from.now slot.now slices.now statement.now)) }
{
    let Some((from, slot, body)) = saying_of(alloc, from, slot, statement)? else {
        return Ok(None);
    };
    let Some(slices) = slices_of(alloc, slices)? else {
        return Ok(None);
    };
    let Some(envelope) = Envelope::new(from, slot, slices, body) else {
        return Ok(None);
    };
    let bytes = encode(alloc, &envelope)?;
    Ok(Some(Bytes::new(bytes)))
}

/// Who says it, of which slot, and the statement.
fn saying_of(
    alloc: Global,
    from: &[u8],
    slot: &[u8],
    statement: &[u8],
) -> Result<Option<(NodeId, u64, Statement)>, AllocError>
    ensures { IfOk result (λ o. o ≡ saying_in from.now slot.now statement.now) }
{
    let Some(from) = name_of(from) else {
        return Ok(None);
    };
    let Some(slot) = number_of(slot) else {
        return Ok(None);
    };
    Ok(statement_of(alloc, statement)?.map(|body| (from, slot, body)))
}

/// `I NAME FROM nom K` or `I NAME FROM bal K`: the node hears an emission.
fn hear(fields: &[&[u8]]) -> Option<Event>
    ensures { result ≡ hearing_in (map (λ field. field.now) fields.now) }
{
    let (slot, node, from, kind, number) = five_of(fields)?;
    let (slot, node) = slot_and_node_in(slot, node)?;
    let (from, kind, number) = emission_of(from, kind, number)?;
    Some(Event::Hear {
        slot,
        node,
        from,
        kind,
        number,
    })
}

/// The emission that words name: by whom, of which kind, and its number.
fn emission_of(from: &[u8], kind: &[u8], number: &[u8]) -> Option<(NodeId, Kind, u64)>
    ensures { result ≡ emission_in from.now kind.now number.now }
{
    Some((name_of(from)?, kind_of(kind)?, number_of(number)?))
}

fn kind_of(word: &[u8]) -> Option<Kind>
    ensures { result ≡ kind_in word.now }
{
    match word {
        _ if is_word(word, b"nom") => Some(Kind::Nomination),
        _ if is_word(word, b"bal") => Some(Kind::Ballot),
        _ => None,
    }
}

/// `I NAME R`: the node's nomination timer of this round fires.
fn nomination_timer(fields: &[&[u8]]) -> Option<Event>
    ensures { result ≡ nomination_timer_in (map (λ field. field.now) fields.now) }
{
    let (slot, node, round) = three_of(fields)?;
    let (slot, node) = slot_and_node_in(slot, node)?;
    let round = counter_of(round)?;
    Some(Event::NominationTimer { slot, node, round })
}

/// `I NAME C`: the node's ballot timer for this counter fires.
fn ballot_timer(fields: &[&[u8]]) -> Option<Event>
    ensures { result ≡ ballot_timer_in (map (λ field. field.now) fields.now) }
{
    let (slot, node, counter) = three_of(fields)?;
    let (slot, node) = slot_and_node_in(slot, node)?;
    let counter = counter_of(counter)?;
    Some(Event::BallotTimer {
        slot,
        node,
        counter,
    })
}

/// `I NAME SLICES`: from now on these are the node's slices at the slot.
fn reslice(alloc: Global, fields: &[&[u8]]) -> Result<Option<Event>, AllocError>
    ensures { IfOk result (IsRead (AsksReslice (map (λ field. field.now) fields.now))) }
{
    let Some((slot, node, slices)) = three_of(fields) else {
        return Ok(None);
    };
    let Some((slot, node)) = slot_and_node_in(slot, node) else {
        return Ok(None);
    };
    Ok(slices_of(alloc, slices)?.map(|slices| Event::Reslice { slot, node, slices }))
}

fn slot_and_node_in(slot: &[u8], node: &[u8]) -> Option<(u64, NodeId)>
    ensures { result ≡ slot_and_node_in slot.now node.now }
{
    Some((number_of(slot)?, name_of(node)?))
}

/// `None` if there are more or fewer.
fn three_of<'a>(fields: &[&'a [u8]]) -> Option<(&'a [u8], &'a [u8], &'a [u8])>
    ensures { option_map (λ r. (r.0.now, r.1.now, r.2.now)) result ≡ three (map (λ field. field.now) fields.now) }
{
    match fields {
        [first, second, third] => Some((first, second, third)),
        _ => None,
    }
}

/// `None` if there are more or fewer.
fn five_of<'a>(fields: &[&'a [u8]]) -> Option<(&'a [u8], &'a [u8], &'a [u8], &'a [u8], &'a [u8])>
    ensures { option_map (λ r. (r.0.now, r.1.now, r.2.now, r.3.now, r.4.now)) result ≡ five (map (λ field. field.now) fields.now) }
{
    let [first, second, more @ ..] = fields else {
        return None;
    };
    let (third, fourth, fifth) = three_of(more)?;
    Some((first, second, third, fourth, fifth))
}
