//! What a line asks of a live host.

ghost use Rattle.std.specs.Prelude.{◌≡◌, ◌∷◌, IfOk, codes, map};
ghost use Rattle.line_request.specs.Asking.{IsAskedOf, IsForAll, IsNet, IsOfScript, IsServedNet, asked_by, dropped_in, for_all_by, left_in, shown_in};
ghost use Rattle.line_request.specs.Forms.{is_word};

use crate::form::{Form, form_of};
use crate::request::{Declaration, Request, asked_by};
use crate::verbs::is_word;
use line_script::{counter_of, name_of, number_of};
use scp_types::{Bytes, Event, NodeId};
use std::alloc::{AllocError, Global};

/// What a line asks of a live host, of the network that it names.
#[derive(Drop)]
pub enum Ask {
    /// The network, one of its nodes or its roster is declared.
    Declare(Declaration),
    /// An event, and that the other nodes hear what it gave out.
    Serve(Event),
    /// These bytes reach each hosted node, one after the other.
    ForAll(Bytes),
    /// The network is taken back.
    Drop,
    /// What is left of its budgets.
    Left,
    /// What a node at a slot is.
    Show(u64, NodeId),
}

/// The number of the network that a line names, and what it asks for. It is `None` if the line has none of the forms,
/// and so is bad. An error says that it is out of memory.
pub fn ask_of(alloc: Global, fields: &[&[u8]]) -> Result<Option<(u32, Ask)>, AllocError>
    ensures { IfOk result (IsAskedOf (map (λ field. field.now) fields.now)) }
{
    match form_of(fields) {
        Form::Net => net(alloc, fields),
        Form::ForAll => for_all(alloc, fields),
        Form::Drop => Ok(drop_in(fields)),
        Form::Left => Ok(left_in(fields)),
        Form::Show => Ok(show_in(fields)),
        Form::Script => of_script(alloc, fields),
    }
}

/// `net N events E bytes B slots S served`: what the line asks for without its last word.
fn net(alloc: Global, fields: &[&[u8]]) -> Result<Option<(u32, Ask)>, AllocError>
    ensures { IfOk result (IsNet (map (λ field. field.now) fields.now)) }
{
    match fields.split_last() {
        Some((served, before)) => served_net(alloc, served, before),
        None => Ok(None),
    }
}

fn served_net(
    alloc: Global,
    last: &[u8],
    before: &[&[u8]],
) -> Result<Option<(u32, Ask)>, AllocError>
    ensures { IfOk result (IsServedNet (is_word last.now (codes "served")) (map (λ field. field.now) before.now)) }
{
    if is_word(last, b"served") {
        of_script(alloc, before)
    } else {
        Ok(None)
    }
}

fn of_script(alloc: Global, fields: &[&[u8]]) -> Result<Option<(u32, Ask)>, AllocError>
    ensures { IfOk result (IsOfScript asked_by (map (λ field. field.now) fields.now)) }
{
    match asked_by(alloc, fields)? {
        Some((number, request)) => Ok(ask_by(number, request)),
        None => Ok(None),
    }
}

/// `hear` and `settle` lines ask for nothing: in a live host the other nodes hear emissions without a line.
fn ask_by(number: u32, request: Request) -> Option<(u32, Ask)>
    ensures { result ≡ asked_by (number, request) }
{
    match request {
        Request::Declare(declaration) => Some((number, Ask::Declare(declaration))),
        Request::Apply(event) => match event {
            Event::Hear { .. } => None,
            _ => Some((number, Ask::Serve(event))),
        },
        Request::Settle(_) => None,
    }
}

/// `deliver N * HEX` and `say N * FROM I SLICES STATEMENT`: the bytes that the same line delivers to one node.
fn for_all(alloc: Global, fields: &[&[u8]]) -> Result<Option<(u32, Ask)>, AllocError>
    ensures { IfOk result (IsForAll (map (λ field. field.now) fields.now)) }
{
    let [word, number, _, more @ ..] = fields else {
        return Ok(None);
    };
    let named = named(alloc, word, number, more)?;
    delivered(alloc, named.as_slice())
}

/// The line with the name `A` in place of the star, so that it is read as a line to one node.
fn named<'a>(
    alloc: Global,
    word: &'a [u8],
    number: &'a [u8],
    more: &[&'a [u8]],
) -> Result<Vec<&'a [u8]>, AllocError>
    ensures { IfOk result (λ v. map (λ field. field.now) v.items ≡ word.entry.now ∷ number.entry.now ∷ codes "A" ∷ map (λ field. field.now) more.now) }
{
    let mut fields: Vec<&'a [u8]> = Vec::new(alloc);
    fields.push(word)?;
    fields.push(number)?;
    fields.push(b"A")?;
    fields.extend_from_slice(more)?;
    Ok(fields)
}

/// The bytes that a line delivers to one node, for all nodes.
fn delivered(alloc: Global, fields: &[&[u8]]) -> Result<Option<(u32, Ask)>, AllocError>
    ensures { IfOk result (IsOfScript for_all_by (map (λ field. field.now) fields.now)) }
{
    match asked_by(alloc, fields)? {
        Some((number, request)) => Ok(for_all_by(number, request)),
        None => Ok(None),
    }
}

fn for_all_by(number: u32, request: Request) -> Option<(u32, Ask)>
    ensures { result ≡ for_all_by (number, request) }
{
    match request {
        Request::Apply(Event::Deliver { node: _, bytes }) => Some((number, Ask::ForAll(bytes))),
        _ => None,
    }
}

/// `drop N`.
fn drop_in(fields: &[&[u8]]) -> Option<(u32, Ask)>
    ensures { result ≡ dropped_in (map (λ field. field.now) fields.now) }
{
    let [_, number] = fields else {
        return None;
    };
    Some((counter_of(number)?, Ask::Drop))
}

/// `left N`.
fn left_in(fields: &[&[u8]]) -> Option<(u32, Ask)>
    ensures { result ≡ left_in (map (λ field. field.now) fields.now) }
{
    let [_, number] = fields else {
        return None;
    };
    Some((counter_of(number)?, Ask::Left))
}

/// `show N I NODE`.
fn show_in(fields: &[&[u8]]) -> Option<(u32, Ask)>
    ensures { result ≡ shown_in (map (λ field. field.now) fields.now) }
{
    let [_, number, slot, node] = fields else {
        return None;
    };
    let number = counter_of(number)?;
    Some((number, Ask::Show(number_of(slot)?, name_of(node)?)))
}
