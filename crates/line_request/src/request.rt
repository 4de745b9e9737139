//! What a line asks for.

ghost use Rattle.std.specs.Prelude.{◌≡◌, Err, IfOk, None, Some, map, option_map};
ghost use Rattle.line_request.specs.Lines.{IsRead};
ghost use Rattle.line_request.specs.Requests.{AreAllowed, AsksNode, AsksRoster, IsRequest, IsRequested, budgets_in, number_behind, listed_names, only_names, settling_in, shares_in};

use crate::events::event_of;
use crate::verbs::{Verb, is_word, verb_of};
use host_config::{Budgets, Reservation, Shares};
use line_script::{LineError, counter_of, name_of, number_of, slices_of};
use scp_types::{Event, Nested, NodeId};
use std::alloc::{AllocError, Global};

/// What a line asks for, of the network that it names.
#[derive(Drop)]
pub enum Request {
    /// The network, one of its nodes or its roster is declared.
    Declare(Declaration),
    /// An event of the network.
    Apply(Event),
    /// What was emitted at this slot is to be handed on.
    Settle(u64),
}

/// What a line declares.
#[derive(Drop)]
pub enum Declaration {
    /// A network with its budgets.
    Net(Budgets),
    /// A hosted node of the network.
    Node(NodeId, Nested),
    /// The roster of the network.
    Roster(Reservation),
}

/// The number of the network that a line names, and what it asks for. [`LineError::Bad`] says that the line has none of
/// the forms, and [`LineError::NoMemory`] that it is out of memory.
pub fn request_of(alloc: Global, fields: &[&[u8]]) -> Result<(u32, Request), LineError>
    ensures asked { IfOk result (λ r. IsRequested (map (λ field. field.now) fields.now) (Some (r.0, r.1))) }
    ensures bad { result ≡ Err LineError.Bad → IsRequested (map (λ field. field.now) fields.now) None }
{
    asked_by(alloc, fields)?.ok_or(LineError::Bad)
}

/// What [`request_of`] answers, but `None` for a line that has none of the forms. An error says that it is out of
/// memory.
pub fn asked_by(alloc: Global, fields: &[&[u8]]) -> Result<Option<(u32, Request)>, AllocError>
    ensures { IfOk result (IsRequested (map (λ field. field.now) fields.now)) }
{
    let [word, number, rest @ ..] = fields else {
        return Ok(None);
    };
    let Some(verb) = verb_of(word) else {
        return Ok(None);
    };
    let Some(number) = counter_of(number) else {
        return Ok(None);
    };
    Ok(request_by(alloc, verb, rest)?.map(|request| (number, request)))
}

/// What a line of this kind asks for, by the fields after the number of the network.
fn request_by(alloc: Global, verb: Verb, fields: &[&[u8]]) -> Result<Option<Request>, AllocError>
    ensures { IfOk result (IsRequest verb (map (λ field. field.now) fields.now)) }
{
    match verb {
        Verb::Net => Ok(net_of(fields)),
        Verb::Node => node_of(alloc, fields),
        Verb::Roster => roster_of(alloc, fields),
        Verb::Event(verb) => match event_of(alloc, verb, fields)? {
            Some(event) => Ok(Some(Request::Apply(event))),
            None => Ok(None),
        },
        Verb::Settle => Ok(settle_at(fields)),
    }
}

/// `events E bytes B slots S`, if these are budgets that a network can have.
fn net_of(fields: &[&[u8]]) -> Option<Request>
    ensures { IsRead (AreAllowed (budgets_in (map (λ field. field.now) fields.now))) result }
{
    let (events, bytes, slots) = numbers_of(fields)?;
    let budgets = Budgets::new(events, bytes, slots)?;
    Some(Request::Declare(Declaration::Net(budgets)))
}

fn numbers_of(fields: &[&[u8]]) -> Option<(u64, u64, u64)>
    ensures { option_map (λ r. record { events = r.0; bytes = r.1; slots = r.2 }) result ≡ budgets_in (map (λ field. field.now) fields.now) }
{
    let (events, rest) = behind_word(fields, b"events")?;
    let (bytes, rest) = behind_word(rest, b"bytes")?;
    match behind_word(rest, b"slots") {
        Some((slots, [])) => Some((events, bytes, slots)),
        _ => None,
    }
}

/// The number behind a word, and the fields that follow.
fn behind_word<'a, 'b>(fields: &'a [&'b [u8]], word: &[u8]) -> Option<(u64, &'a [&'b [u8]])>
    ensures { option_map (λ r. (r.0, map (λ field. field.now) r.1.now)) result ≡ number_behind word.now (map (λ field. field.now) fields.now) }
{
    let [first, number, rest @ ..] = fields else {
        return None;
    };
    if !is_word(first, word) {
        return None;
    }
    Some((number_of(number)?, rest))
}

/// `NAME SLICES`.
fn node_of(alloc: Global, fields: &[&[u8]]) -> Result<Option<Request>, AllocError>
    ensures { IfOk result (IsRead (AsksNode (map (λ field. field.now) fields.now))) }
{
    let [name, slices] = fields else {
        return Ok(None);
    };
    let Some(name) = name_of(name) else {
        return Ok(None);
    };
    Ok(slices_of(alloc, slices)?.map(|slices| Request::Declare(Declaration::Node(name, slices))))
}

/// `own O pair P bytes B opens S NAME,NAME,..`.
fn roster_of(alloc: Global, fields: &[&[u8]]) -> Result<Option<Request>, AllocError>
    ensures { IfOk result (IsRead (AsksRoster (map (λ field. field.now) fields.now))) }
{
    let Some((shares, rest)) = shares_of(fields) else {
        return Ok(None);
    };
    match only_names_of(alloc, rest)? {
        Some(names) => Ok(Some(Request::Declare(Declaration::Roster(Reservation {
            names,
            shares,
        })))),
        None => Ok(None),
    }
}

/// The numbers of shares, and the fields that follow.
fn shares_of<'a, 'b>(fields: &'a [&'b [u8]]) -> Option<(Shares, &'a [&'b [u8]])>
    ensures { option_map (λ r. (r.0, map (λ field. field.now) r.1.now)) result ≡ shares_in (map (λ field. field.now) fields.now) }
{
    let (own, rest) = behind_word(fields, b"own")?;
    let (pair, rest) = behind_word(rest, b"pair")?;
    let (bytes, rest) = behind_word(rest, b"bytes")?;
    let (opens, rest) = behind_word(rest, b"opens")?;
    let shares = Shares {
        own,
        pair,
        bytes,
        opens,
    };
    Some((shares, rest))
}

/// The names of the only field.
fn only_names_of(alloc: Global, fields: &[&[u8]]) -> Result<Option<Vec<NodeId>>, AllocError>
    ensures { IfOk result (λ o. option_map (λ v. v.items) o ≡ only_names (map (λ field. field.now) fields.now)) }
{
    match fields {
        [list] => names_of(alloc, list),
        _ => Ok(None),
    }
}

/// Names with a comma between each and the next.
fn names_of(alloc: Global, list: &[u8]) -> Result<Option<Vec<NodeId>>, AllocError>
    ensures { IfOk result (λ o. option_map (λ v. v.items) o ≡ listed_names list.now) }
{
    let mut names = Vec::new(alloc);
    for word in list.split(|byte| *byte == b',') {
        match name_of(word) {
            Some(name) => names.push(name)?,
            None => return Ok(None),
        }
    }
    Ok(Some(names))
}

/// `I`: the slot is to settle.
fn settle_at(fields: &[&[u8]]) -> Option<Request>
    ensures { result ≡ settling_in (map (λ field. field.now) fields.now) }
{
    let [slot] = fields else {
        return None;
    };
    Some(Request::Settle(number_of(slot)?))
}
