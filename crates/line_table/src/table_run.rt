//! What runs the lines of a table file.

ghost use Rattle.std.specs.List.{fold};
ghost use Rattle.std.specs.Prelude.{◌≡◌, ◌≢◌, ◌↔◌, ◌++◌, IsTrue, IfNone, IfOk, IfSome, None, OnOk, Some, Err, map, option_map, string_bytes};
ghost use Rattle.node_table.specs.Senders.{senders};
ghost use Rattle.scp_types.specs.Statements.{Sent};
ghost use Rattle.node_view.specs.declared.configured.Configured.{Configured};
ghost use Rattle.line_table.specs.TableLines.{AreOwn, AreOwnWords, ArePut, ArePutWords, Asks, AsksNone, Backs, Begins, BeginsNone, Decodes, Hands, HandsNone, LinesTellOneThing, Prints, PrintsReach, PutsNone, PutsRow, RefusesTableLine, ShowsKnown, Takes, TellsListener, fault_text, text_of_row, text_of_table, text_with_name, text_with_row, text_with_rows, up_to_next};

use crate::table_listener::{TableListener, Taken};
use line_script::{
    LineError, LineRunner, ballot_of, bytes_of, name_of, number_of, push_name, push_slices,
    push_statement, slices_of, statement_of,
};
use node_store::Places;
use node_table::Rows;
use node_view::Configured;
use scp_codec::{CodecError, Fault, decode};
use scp_types::{Ballot, Envelope, Kind, NodeId};
use std::alloc::{AllocError, Global};
use std::marker::Model;

/// The state of one table file: nothing before its first line, then the listener of the node that the
/// first line names.
#[derive(Drop)]
pub struct TableRun {
    listener: Option<TableListener>,
}

impl Model for TableRun {
    ghost use Rattle.std.specs.Prelude.{Option};
    ghost use Rattle.std.specs.Coded.{codes};
    ghost use Rattle.scp_types.specs.Trees.{members_code};
    ghost use Rattle.line_table.specs.Listeners.{HeardRows};

    ghost Value = { Option HeardRows };

    ghost coded = { Prim.hlevel (codes, members_code) };

    ghost view = { λ run. run.listener };
}

impl TableRun {
    /// The state before the first line.
    pub fn new() -> TableRun
        ensures { result ≡ None }
    {
        TableRun { listener: None }
    }
}

impl LineRunner for TableRun {
    ghost use Rattle.line_table.specs.TableLines.{RefusesTableLine, TellsListener};
    ghost use Rattle.line_table.specs.BadLines.{bad_table_lines_are_untold};

    ghost tells = { TellsListener };

    ghost refuses = { RefusesTableLine };

    ghost untold = { bad_table_lines_are_untold };

    fn line(&mut self, alloc: Global, fields: &[&[u8]]) -> Result<Option<String>, LineError> {
        match &mut self.listener {
            None => {
                self.listener = Some(listener_of(alloc, fields)?);
                Ok(None)
            }
            Some(listener) => run(alloc, listener, fields),
        }
    }
}

/// The ballot that a line asks about: `ask BALLOT`.
#[tactic(auto, using(crate::proofs::RunLaws::asks_two))]
fn ballot_asked(alloc: Global, fields: &[&[u8]]) -> Result<Option<Ballot>, AllocError>
    ensures asked { IfOk result (λ o. IfSome o (λ b. Asks (map (λ field. field.now) fields.now) b)) }
    ensures none { IfOk result (λ o. IfNone o (AsksNone (map (λ field. field.now) fields.now))) }
{
    if fields.len() != 2 {
        return Ok(None);
    }
    if is_word(fields[0], b"ask") {
        ballot_of(alloc, fields[1])
    } else {
        Ok(None)
    }
}

/// The configuration of the listener that a line begins: `self NAME SLOT SLICES`.
fn configured_by(alloc: Global, fields: &[&[u8]]) -> Result<Option<Configured>, AllocError>
    ensures begins { IfOk result (λ o. IfSome o (λ c. Begins (map (λ field. field.now) fields.now) c)) }
    ensures none { IfOk result (λ o. IfNone o (BeginsNone (map (λ field. field.now) fields.now))) }
{
    let [word, rest @ ..] = fields else {
        return Ok(None);
    };
    if is_word(word, b"self") {
        configured_in(alloc, rest)
    } else {
        Ok(None)
    }
}

/// The configuration that fields spell: `NAME SLOT SLICES`.
fn configured_in(alloc: Global, fields: &[&[u8]]) -> Result<Option<Configured>, AllocError>
    ensures own { IfOk result (λ o. IfSome o (λ c. AreOwn (map (λ field. field.now) fields.now) c)) }
    ensures none { IfOk result (λ o. IfNone o ((c : Configured) → ¬ AreOwn (map (λ field. field.now) fields.now) c)) }
{
    match fields {
        [name, slot, slices] => configured_of(alloc, name, slot, slices),
        _ => Ok(None),
    }
}

fn configured_of(
    alloc: Global,
    name: &[u8],
    slot: &[u8],
    slices: &[u8],
) -> Result<Option<Configured>, AllocError>
    ensures words { IfOk result (λ o. IfSome o (λ c. AreOwnWords name.now slot.now slices.now c)) }
    ensures none { IfOk result (λ o. IfNone o ((c : Configured) → ¬ AreOwnWords name.now slot.now slices.now c)) }
{
    let Some(name) = name_of(name) else {
        return Ok(None);
    };
    let Some(slot) = number_of(slot) else {
        return Ok(None);
    };
    match slices_of(alloc, slices)? {
        Some(slices) => Ok(Some(Configured { name, slot, slices })),
        None => Ok(None),
    }
}

/// The envelope of a slot that a line puts: `put FROM SLICES STATEMENT`.
fn envelope_put(alloc: Global, slot: u64, fields: &[&[u8]]) -> Result<Option<Envelope>, AllocError>
    ensures puts { IfOk result (λ o. IfSome o (λ e. PutsRow slot (map (λ field. field.now) fields.now) e)) }
    ensures none { IfOk result (λ o. IfNone o (PutsNone slot (map (λ field. field.now) fields.now))) }
{
    let [word, rest @ ..] = fields else {
        return Ok(None);
    };
    if is_word(word, b"put") {
        envelope_in(alloc, slot, rest)
    } else {
        Ok(None)
    }
}

/// The envelope of a slot that fields spell: `FROM SLICES STATEMENT`.
fn envelope_in(alloc: Global, slot: u64, fields: &[&[u8]]) -> Result<Option<Envelope>, AllocError>
    ensures put { IfOk result (λ o. IfSome o (λ e. ArePut slot (map (λ field. field.now) fields.now) e)) }
    ensures none { IfOk result (λ o. IfNone o ((e : Sent) → ¬ ArePut slot (map (λ field. field.now) fields.now) e)) }
{
    match fields {
        [sender, slices, statement] => envelope_of(alloc, slot, sender, slices, statement),
        _ => Ok(None),
    }
}

fn envelope_of(
    alloc: Global,
    slot: u64,
    sender: &[u8],
    slices: &[u8],
    statement: &[u8],
) -> Result<Option<Envelope>, AllocError>
    ensures words { IfOk result (λ o. IfSome o (λ e. ArePutWords slot sender.now slices.now statement.now e)) }
    ensures none { IfOk result (λ o. IfNone o ((e : Sent) → ¬ ArePutWords slot sender.now slices.now statement.now e)) }
{
    let Some(sender) = name_of(sender) else {
        return Ok(None);
    };
    let Some(body) = statement_of(alloc, statement)? else {
        return Ok(None);
    };
    match slices_of(alloc, slices)? {
        Some(slices) => Ok(Envelope::new(sender, slot, slices, body)),
        None => Ok(None),
    }
}

/// The bytes that a line hands over: `env HEX`.
fn bytes_handed(alloc: Global, fields: &[&[u8]]) -> Result<Option<Vec<u8>>, AllocError>
    ensures hands { IfOk result (λ o. IfSome o (λ v. Hands (map (λ field. field.now) fields.now) v.items)) }
    ensures none { IfOk result (λ o. IfNone o (HandsNone (map (λ field. field.now) fields.now))) }
{
    let [word, digits] = fields else {
        return Ok(None);
    };
    if is_word(word, b"env") {
        bytes_of(alloc, digits)
    } else {
        Ok(None)
    }
}

/// The listener that a first line begins.
fn listener_of(alloc: Global, fields: &[&[u8]]) -> Result<TableListener, LineError>
    ensures told { IfOk result (λ listener. TellsListener None (map (λ field. field.now) fields.now) None (Some listener)) }
    ensures bad { result ≡ Err LineError.Bad → BeginsNone (map (λ field. field.now) fields.now) }
{
    match configured_by(alloc, fields) {
        Ok(Some(configured)) => Ok(TableListener::new(alloc, configured)),
        Ok(None) => Err(LineError::Bad),
        Err(_) => Err(LineError::NoMemory),
    }
}

/// Runs a line behind the first.
fn run(
    alloc: Global,
    listener: &mut TableListener,
    fields: &[&[u8]],
) -> Result<Option<String>, LineError>
    ensures told { IfOk result (λ printed.
        TellsListener (Some listener.old) (map (λ field. field.now) fields.now) (option_map string_bytes printed) (Some listener.new)) }
    ensures bad { result ≡ Err LineError.Bad → RefusesTableLine (Some listener.old) (map (λ field. field.now) fields.now) }
{
    match ballot_asked(alloc, fields) {
        Ok(Some(ballot)) => ask(alloc, listener, &ballot),
        Ok(None) => run_offer(alloc, listener, fields),
        Err(_) => Err(LineError::NoMemory),
    }
}

/// Runs a line that asks about no ballot.
fn run_offer(
    alloc: Global,
    listener: &mut TableListener,
    fields: &[&[u8]],
) -> Result<Option<String>, LineError>
    ensures told { IfOk result (λ printed.
        TellsListener (Some listener.old) (map (λ field. field.now) fields.now) (option_map string_bytes printed) (Some listener.new)) }
    ensures bad { result ≡ Err LineError.Bad
        → PutsNone listener.old.configured.slot (map (λ field. field.now) fields.now)
        × HandsNone (map (λ field. field.now) fields.now) × ¬ ShowsKnown (map (λ field. field.now) fields.now) }
{
    match envelope_put(alloc, listener.slot(), fields) {
        Ok(Some(envelope)) => offer(alloc, listener, envelope),
        Ok(None) => run_bytes(alloc, listener, fields),
        Err(_) => Err(LineError::NoMemory),
    }
}

/// Runs a line that puts no envelope either.
fn run_bytes(
    alloc: Global,
    listener: &mut TableListener,
    fields: &[&[u8]],
) -> Result<Option<String>, LineError>
    ensures told { IfOk result (λ printed.
        TellsListener (Some listener.old) (map (λ field. field.now) fields.now) (option_map string_bytes printed) (Some listener.new)) }
    ensures bad { result ≡ Err LineError.Bad
        → HandsNone (map (λ field. field.now) fields.now) × ¬ ShowsKnown (map (λ field. field.now) fields.now) }
{
    match bytes_handed(alloc, fields) {
        Ok(Some(bytes)) => offer_bytes(alloc, listener, &bytes),
        Ok(None) => run_shown(alloc, listener, fields),
        Err(_) => Err(LineError::NoMemory),
    }
}

/// Runs a line that asks what the listener knows: `show` or `reach`. Any other is bad.
fn run_shown(
    alloc: Global,
    listener: &TableListener,
    fields: &[&[u8]],
) -> Result<Option<String>, LineError>
    ensures told { IfOk result (λ printed.
        Prints listener.now (map (λ field. field.now) fields.now) (option_map string_bytes printed)) }
    ensures bad { result ≡ Err LineError.Bad → ¬ ShowsKnown (map (λ field. field.now) fields.now) }
{
    match fields {
        [word] if is_word(word, b"show") => Ok(show(alloc, listener)?),
        [word] if is_word(word, b"reach") => Ok(show_reach(alloc, listener)?),
        _ => Err(LineError::Bad),
    }
}

/// Offers the envelope that the bytes spell, or answers what is wrong with them.
fn offer_bytes(
    alloc: Global,
    listener: &mut TableListener,
    bytes: &[u8],
) -> Result<Option<String>, LineError>
    ensures decodes { IfOk result (λ printed.
        Decodes listener.old bytes.now (option_map string_bytes printed) listener.new) }
    ensures runs { result ≢ Err LineError.Bad }
{
    match decode(alloc, bytes) {
        Ok(envelope) => offer(alloc, listener, envelope),
        Err(CodecError::NoMemory) => Err(LineError::NoMemory),
        Err(CodecError::Fault(fault)) => say_fault(alloc, fault),
    }
}

fn say_fault(alloc: Global, fault: Fault) -> Result<Option<String>, LineError>
    ensures said { IfOk result (λ printed. option_map string_bytes printed ≡ Some (fault_text fault)) }
    ensures runs { result ≢ Err LineError.Bad }
{
    let number = fault.number();
    Ok(Some(format!(in alloc; "bad {number}")?))
}

fn offer(
    alloc: Global,
    listener: &mut TableListener,
    envelope: Envelope,
) -> Result<Option<String>, LineError>
    ensures takes { IfOk result (λ printed. Takes listener.old envelope (option_map string_bytes printed) listener.new) }
    ensures runs { result ≢ Err LineError.Bad }
{
    match listener.take(alloc, envelope) {
        Taken::Replaced => say(alloc, "replaced"),
        Taken::Stale => say(alloc, "stale"),
        Taken::OtherSlot => say(alloc, "other"),
        Taken::NoMemory => Err(LineError::NoMemory),
    }
}

/// Answers whether the node's quorums back a ballot.
fn ask(
    alloc: Global,
    listener: &mut TableListener,
    ballot: &Ballot,
) -> Result<Option<String>, LineError>
    ensures backs { IfOk result (λ printed. Backs listener.old ballot.now (option_map string_bytes printed)) }
    ensures unchanged { listener.new ≡ listener.old }
    ensures runs { result ≢ Err LineError.Bad }
{
    if listener.is_backed(alloc, ballot)? {
        say(alloc, "yes")
    } else {
        say(alloc, "no")
    }
}

fn is_word(field: &[u8], word: &[u8]) -> bool
    ensures { IsTrue result ↔ field.now ≡ word.now }
{
    field == word
}

fn say(alloc: Global, word: &str) -> Result<Option<String>, LineError>
    ensures said { IfOk result (λ printed. option_map string_bytes printed ≡ Some word.now) }
    ensures runs { result ≢ Err LineError.Bad }
{
    Ok(Some(String::from_str(alloc, word)?))
}

/// The names of all nodes that the node reaches, ascending.
fn show_reach(alloc: Global, listener: &TableListener) -> Result<Option<String>, AllocError>
    ensures { IfOk result (λ printed. PrintsReach listener.now (option_map string_bytes printed)) }
{
    let names = listener.reach(alloc)?;
    let mut text = String::new(alloc);
    push_names(&mut text, names.as_slice())?;
    Ok(Some(text))
}

/// Adds the names, with a space between two.
fn push_names(text: &mut String, names: &[NodeId]) -> Result<(), AllocError>
    ensures { OnOk result (string_bytes text.new ≡ fold text_with_name (string_bytes text.old) names.now) }
{
    for name in names {
        push_between(text, " ")?;
        push_name(text, name)?;
    }
    Ok(())
}

/// Adds what stands between two pieces, if there is a piece before.
fn push_between(text: &mut String, between: &str) -> Result<(), AllocError>
    ensures { OnOk result (string_bytes text.new ≡ up_to_next between.now (string_bytes text.old)) }
{
    if text.is_empty() {
        return Ok(());
    }
    text.push_str(between)
}

/// The rows, a line each, ascending by sender, the nomination row of each first. `None` if there is none.
fn show(alloc: Global, listener: &TableListener) -> Result<Option<String>, AllocError>
    ensures { IfOk result (λ printed. option_map string_bytes printed ≡ text_of_table listener.now.rows) }
{
    let table = listener.rows();
    let mut text = String::new(alloc);
    push_table(&mut text, &table)?;
    if text.is_empty() {
        return Ok(None);
    }
    Ok(Some(text))
}

fn push_table<S: Places>(text: &mut String, table: &Rows<'_, S>) -> Result<(), AllocError>
    ensures { OnOk result (string_bytes text.new ≡ fold (text_with_rows table.now) (string_bytes text.old) (senders table.now)) }
{
    for sender in table.senders() {
        push_rows(text, table, sender)?;
    }
    Ok(())
}

/// Adds a sender's rows, that of nomination first.
fn push_rows<S: Places>(
    text: &mut String,
    table: &Rows<'_, S>,
    sender: &NodeId,
) -> Result<(), AllocError>
    ensures { OnOk result (string_bytes text.new ≡ text_with_rows table.now (string_bytes text.old) sender.now) }
{
    push_row_of(text, table.row(sender, Kind::Nomination))?;
    push_row_of(text, table.row(sender, Kind::Ballot))
}

/// Adds a row, if there is one, on a line of its own.
fn push_row_of(text: &mut String, row: Option<&Envelope>) -> Result<(), AllocError>
    ensures { OnOk result (string_bytes text.new ≡ text_with_row (string_bytes text.old) (option_map (λ e. e.now) row.entry)) }
{
    match row {
        Some(row) => {
            push_between(text, "\n")?;
            push_row(text, row)
        }
        None => Ok(()),
    }
}

fn push_row(text: &mut String, row: &Envelope) -> Result<(), AllocError>
    ensures { OnOk result (string_bytes text.new ≡ string_bytes text.old ++ text_of_row row.now) }
{
    push_name(text, row.sender())?;
    text.push(' ')?;
    push_slices(text, row.slices())?;
    text.push(' ')?;
    push_statement(text, row.body())
}

/// A law: a line prints one thing, if any, and leaves one listener.
#[tactic(auto, using(crate::proofs::TellsOnce::lines_tell_one_thing))]
pub fn lines_tell_one_thing()
    ensures { LinesTellOneThing }
{}
