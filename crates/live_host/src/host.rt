//! A live host, and what it answers to its lines.

ghost use Rattle.std.specs.Prelude.{◌≡◌, ◌+◌, [], IfOk, None, OnOk, Some, length, map, string_bytes};
ghost use Rattle.live_feed.specs.Served.{reply_of};
ghost use Rattle.std.specs.BTreeMap.{insert_entry};
ghost use Rattle.std.specs.Ordering.{nat_cmp};
ghost use Rattle.host_config.specs.Configs.{names_of};
ghost use Rattle.line_request.specs.Outlines.{waiting_at};
ghost use Rattle.line_request.specs.Preparing.{Prepares};
ghost use Rattle.live_host.specs.Blocks.{closing_line};
ghost use Rattle.live_host.specs.Hosts.{AreAllAnswered, AreFieldsAnswered, IsAskAnswered, IsBegun, IsDeclared, IsDropped, IsEventAnswered, IsLeftText, IsShown, IsShownOf, Serves, begun, left_at, not_shown, not_there, one_line, takes_declaration};

use crate::all::{closing_of_answers, deed_of_all, push_answers, serve_each};
use crate::block::{Closing, Place, push_closing, push_served};
use crate::deeds::{deed_of, done_to, drawn_between};
use host_config::NetConfig;
use line_request::{Ask, Declaration, Waiting, ask_of};
use line_script::{LineError, fields_of};
use live_feed::{Answer, Deed, Done, LineServer};
use live_network::{Left, ServedNetwork, all_left, left_of, push_left, push_node};
use node_store::{BoxShelf, Shelf};
use scp_types::{Bytes, Event, NodeId, Refusal};
use std::alloc::{AllocError, Global};
use std::collections::BTreeMap;
use std::marker::Model;

/// How many networks may be declared at a time (this host's profile).
pub const MOST_NETWORKS: usize = 4_096;

/// The networks of a live host: those that are declared and that no event has named since, and those that an event has
/// named.
#[derive(Drop)]
pub struct LiveHost {
    alloc: Global,
    bytes: bool,
    waiting: Waiting,
    running: BTreeMap<u32, ServedNetwork<BoxShelf>>,
}

impl Model for LiveHost {
    ghost use Rattle.std.specs.Coded.{codes};
    ghost use Rattle.scp_types.specs.Trees.{members_code};
    ghost use Rattle.live_host.specs.Hosts.{Live};

    ghost Value = { Live };

    ghost coded = { Prim.hlevel (codes, members_code) };

    ghost view = { λ host. record { bytes = host.bytes; waiting = host.waiting; running = host.running.entries } };
}

impl LiveHost {
    /// A host without networks, which prints envelopes as bytes if that is asked for. It takes no memory.
    pub fn new(alloc: Global, bytes: bool) -> LiveHost
        ensures bytes { result.bytes ≡ bytes }
        ensures waiting { result.waiting ≡ [] }
        ensures running { result.running ≡ [] }
    {
        LiveHost {
            alloc,
            bytes,
            waiting: Waiting::none(alloc),
            running: BTreeMap::new(alloc),
        }
    }

    /// How many networks are declared.
    pub fn len(&self) -> usize
        ensures { result ≡ length self.now.waiting + length self.now.running }
    {
        self.waiting.count() + self.running.len()
    }

    /// The answer to a line that is not too long; `None` if it is empty or a comment.
    fn serve_line(
        &mut self,
        alloc: Global,
        number: u64,
        line: &[u8],
    ) -> Result<Option<Answer>, AllocError>
        ensures { IfOk result (λ answer. Serves self.old number (Some line.now) (reply_of answer) self.new) }
    {
        match fields_of(alloc, line) {
            Ok(None) => Ok(None),
            Ok(Some(fields)) => self.answer_fields(number, fields),
            Err(LineError::Bad) => Ok(Some(bad_line(alloc, number)?)),
            Err(LineError::NoMemory) => Err(AllocError),
        }
    }

    /// The answer to a line with these fields, which are let go.
    fn answer_fields(
        &mut self,
        number: u64,
        fields: Vec<&[u8]>,
    ) -> Result<Option<Answer>, AllocError>
        ensures { IfOk result (λ answer. AreFieldsAnswered number (map (λ field. field.now) fields.entry.items) self.old (reply_of answer) self.new) }
    {
        let answer = self.answer(number, fields.as_slice());
        drop(fields);
        Ok(Some(answer?))
    }

    /// The answer to a line with these fields.
    fn answer(&mut self, line: u64, fields: &[&[u8]]) -> Result<Answer, AllocError>
        ensures { IfOk result (λ answer. AreFieldsAnswered line (map (λ field. field.now) fields.now) self.old (reply_of (Some answer)) self.new) }
    {
        match ask_of(self.alloc, fields)? {
            Some((network, ask)) => {
                let place = Place {
                    line,
                    network,
                    bytes: self.bytes,
                };
                self.answer_ask(place, ask)
            }
            None => bad_line(self.alloc, line),
        }
    }

    /// The answer to what a line asks.
    fn answer_ask(&mut self, place: Place, ask: Ask) -> Result<Answer, AllocError>
        requires { place.bytes ≡ self.old.bytes }
        ensures { IfOk result (λ answer. IsAskAnswered place.line place.network ask self.old (reply_of (Some answer)) self.new) }
    {
        match ask {
            Ask::Declare(declaration) => self.answer_declaration(place, declaration),
            Ask::Serve(event) => {
                let answer = self.answer_event(place, &event);
                drop(event);
                answer
            }
            Ask::ForAll(bytes) => {
                let answer = self.answer_for_all(place, &bytes);
                drop(bytes);
                answer
            }
            Ask::Left => Ok(not_kept(self.answer_left(place)?)),
            Ask::Show(slot, node) => Ok(not_kept(self.answer_show(place, slot, &node)?)),
            Ask::Drop => self.answer_drop(place),
        }
    }

    /// The answer to a declaration, which is kept if it is taken.
    fn answer_declaration(
        &mut self,
        place: Place,
        declaration: Declaration,
    ) -> Result<Answer, AllocError>
        ensures { IfOk result (λ answer. IsAskAnswered place.line place.network (Ask.Declare declaration) self.old (reply_of (Some answer)) self.new) }
    {
        if self.declare(place.network, declaration)? {
            let done = done_to(place.network, Deed::Declared);
            one_line(self.alloc, place.line, Closing::Taken, done)
        } else {
            bad_line(self.alloc, place.line)
        }
    }

    /// The answer to an event of a network.
    fn answer_event(&mut self, place: Place, event: &Event) -> Result<Answer, AllocError>
        requires { place.bytes ≡ self.old.bytes }
        ensures { IfOk result (λ answer. IsAskAnswered place.line place.network (Ask.Serve event.now) self.old (reply_of (Some answer)) self.new) }
    {
        if self.begin(place.network)? {
            self.serve_event(place, event)
        } else {
            bad_line(self.alloc, place.line)
        }
    }

    /// The answer to bytes for all hosted nodes of a network.
    fn answer_for_all(&mut self, place: Place, bytes: &Bytes) -> Result<Answer, AllocError>
        requires { place.bytes ≡ self.old.bytes }
        ensures { IfOk result (λ answer. IsAskAnswered place.line place.network (Ask.ForAll bytes.now) self.old (reply_of (Some answer)) self.new) }
    {
        if self.begin(place.network)? {
            self.serve_for_all(place, bytes)
        } else {
            bad_line(self.alloc, place.line)
        }
    }

    /// Has this declared of the network of a number, and answers whether it is taken. If it is not, nothing changes.
    fn declare(&mut self, number: u32, declaration: Declaration) -> Result<bool, AllocError>
        ensures { IfOk result (λ taken. IsDeclared number declaration self.old taken self.new) }
    {
        if !self.takes(number, &declaration) {
            drop(declaration);
            return Ok(false);
        }
        match self.prepare(number, declaration) {
            Ok(()) => Ok(true),
            // Memory: it is taken, so there is none for it.
            Err(_) => Err(AllocError),
        }
    }

    /// Whether a declaration of the network of a number is taken.
    fn takes(&self, number: u32, declaration: &Declaration) -> bool
        ensures { result ≡ takes_declaration self.now number declaration.now }
    {
        match declaration {
            Declaration::Net(_) => self.has_room_for(number),
            Declaration::Node(name, _) => self.waiting.takes_node(number, name),
            Declaration::Roster(roster) => self.waiting.takes_roster(number, roster),
        }
    }

    /// Whether a network of a number may be declared: there is none, and fewer than 4,096 are declared.
    fn has_room_for(&self, number: u32) -> bool
        ensures { (budgets : _) → result ≡ takes_declaration self.now number (Declaration.Net budgets) }
    {
        !self.waiting.has(number)
            && !self.running.contains_key(&number)
            && self.len() < MOST_NETWORKS
    }

    /// Adds what is declared to the networks that wait.
    fn prepare(&mut self, number: u32, declaration: Declaration) -> Result<(), LineError>
        ensures prepared { OnOk result (Prepares number declaration self.old.waiting self.new.waiting) }
        ensures running { self.new.running ≡ self.old.running }
        ensures bytes { self.new.bytes ≡ self.old.bytes }
    {
        match declaration {
            Declaration::Net(budgets) => self.waiting.declare(number, budgets),
            Declaration::Node(name, slices) => self.waiting.host(number, name, slices),
            Declaration::Roster(roster) => self.waiting.reserve(number, roster),
        }
    }

    /// An event names the network of a number, which runs from now on if it waits. If it waits without a node the
    /// answer is no, and nothing changes.
    fn begin(&mut self, number: u32) -> Result<bool, AllocError>
        ensures { IfOk result (λ begun. IsBegun number self.old begun self.new) }
    {
        if self.waiting.is_bare(number) {
            return Ok(false);
        }
        match self.waiting.take(number) {
            None => Ok(true),
            Some(outline) => match outline.config(number) {
                Ok(config) => {
                    self.run(number, config)?;
                    Ok(true)
                }
                // Memory: it has nodes, so there is none for its configuration.
                Err(_) => Err(AllocError),
            },
        }
    }

    /// A network of this configuration runs from now on.
    fn run(&mut self, number: u32, config: NetConfig) -> Result<(), AllocError>
        ensures bytes { self.new.bytes ≡ self.old.bytes }
        ensures waiting { self.new.waiting ≡ self.old.waiting }
        ensures running { OnOk result (self.new.running ≡ insert_entry nat_cmp self.old.running number (begun config)) }
    {
        let network = ServedNetwork::new(self.alloc, config, BoxShelf::new(self.alloc))?;
        match self.running.insert(number, network) {
            Ok(_) => Ok(()),
            // Memory: the map has no room.
            Err(_) => Err(AllocError),
        }
    }

    /// The answer to an event of a network that runs, if it does; then the line is kept.
    fn serve_event(&mut self, place: Place, event: &Event) -> Result<Answer, AllocError>
        requires { place.bytes ≡ self.old.bytes }
        ensures { IfOk result (λ answer. IsEventAnswered place.line place.network event.now self.old (reply_of (Some answer)) self.new) }
    {
        let Some(network) = self.running.get_mut(&place.network) else {
            return no_network(self.alloc, place.line);
        };
        let before = network.used();
        let served = network.serve(event)?;
        let drawn = drawn_between(before, network.used());
        let done = done_to(place.network, deed_of(event, &served, drawn));
        let mut text = String::new(self.alloc);
        let pushed = push_served(&mut text, place, &served);
        drop(served);
        pushed?;
        Ok(Answer { block: text, done })
    }

    /// The answer to bytes for all hosted nodes of a network that runs, if it does; then the line is kept.
    fn serve_for_all(&mut self, place: Place, bytes: &Bytes) -> Result<Answer, AllocError>
        requires { place.bytes ≡ self.old.bytes }
        ensures { IfOk result (λ answer. AreAllAnswered place.line place.network bytes.now self.old (reply_of (Some answer)) self.new) }
    {
        let Some(network) = self.running.get_mut(&place.network) else {
            return no_network(self.alloc, place.line);
        };
        let names = names_of(self.alloc, network.config())?;
        let before = network.used();
        let mut answers = Vec::new(self.alloc);
        serve_each(self.alloc, network, &names, bytes, &mut answers)?;
        let drawn = drawn_between(before, network.used());
        let done = done_to(place.network, deed_of_all(&answers, drawn));
        let mut block = String::new(self.alloc);
        push_answers(&mut block, place, &answers)?;
        push_closing(&mut block, place.line, closing_of_answers(&answers))?;
        drop(answers);
        Ok(Answer { block, done })
    }

    /// The block of what is left of the budgets of a network.
    fn answer_left(&self, place: Place) -> Result<String, AllocError>
        ensures { IfOk result (λ text. IsLeftText place.line place.network (left_at self.now place.network) (string_bytes text)) }
    {
        match self.left(place.network) {
            Some(left) => {
                let mut text = String::new(self.alloc);
                push_left(&mut text, place.line, place.network, left)?;
                push_closing(&mut text, place.line, Closing::Taken)?;
                Ok(text)
            }
            None => closed(
                self.alloc,
                place.line,
                Closing::Refused(Refusal::NoSuchNetwork),
            ),
        }
    }

    /// What is left of the budgets of the network of a number, whether it waits or runs.
    fn left(&self, number: u32) -> Option<Left>
        ensures { result ≡ left_at self.now number }
    {
        match self.waiting.outline(number) {
            Some(outline) => Some(all_left(outline)),
            None => match self.running.get(&number) {
                Some(network) => Some(left_of(network.config(), network.used())),
                None => None,
            },
        }
    }

    /// The block that shows a node at a slot.
    fn answer_show(&self, place: Place, slot: u64, node: &NodeId) -> Result<String, AllocError>
        ensures { IfOk result (λ text. IsShown place.line place.network slot node.now self.now (string_bytes text)) }
    {
        match self.running.get(&place.network) {
            Some(network) => show(self.alloc, place, network, slot, node),
            None => closed(
                self.alloc,
                place.line,
                Closing::Refused(self.not_shown(place.network, node)),
            ),
        }
    }

    /// Why a node of a network that does not run is not shown.
    fn not_shown(&self, number: u32, node: &NodeId) -> Refusal
        ensures { result ≡ not_shown (waiting_at self.now.waiting number) node.now }
    {
        match self.waiting.outline(number) {
            Some(outline) if outline.hosts(node) => Refusal::SlotNotOpen,
            Some(_) => Refusal::NoSuchNode,
            None => Refusal::NoSuchNetwork,
        }
    }

    /// The answer to a line that takes a network back, which is kept if there is one.
    fn answer_drop(&mut self, place: Place) -> Result<Answer, AllocError>
        ensures { IfOk result (λ answer. IsAskAnswered place.line place.network Ask.Drop self.old (reply_of (Some answer)) self.new) }
    {
        if self.take_back(place.network) {
            let done = done_to(place.network, Deed::Dropped);
            one_line(self.alloc, place.line, Closing::Taken, done)
        } else {
            no_network(self.alloc, place.line)
        }
    }

    /// Takes the network of a number back, whether it waits or runs, and answers whether there was one.
    fn take_back(&mut self, number: u32) -> bool
        ensures { IsDropped number self.old result self.new }
    {
        match self.waiting.take(number) {
            Some(outline) => {
                drop(outline);
                true
            }
            None => match self.running.remove(&number) {
                Some(network) => {
                    drop(network);
                    true
                }
                None => false,
            },
        }
    }
}

impl LineServer for LiveHost {
    ghost use Rattle.live_host.specs.Hosts.{Serves};
    ghost use Rattle.live_host.specs.Keeping.{live_empty_lines_are_skipped, live_kept_lines_are_whole, live_only_kept_lines_count};

    ghost serves = { Serves };

    ghost only_kept = { live_only_kept_lines_count };

    ghost skipped = { live_empty_lines_are_skipped };

    ghost whole = { live_kept_lines_are_whole };

    /// The answer to a line, or `None` if it is empty or a comment. An error says that it is out of memory; then the
    /// line has no answer, and a part may have happened.
    fn serve(
        &mut self,
        alloc: Global,
        number: u64,
        line: Option<&[u8]>,
    ) -> Result<Option<Answer>, AllocError> {
        match line {
            None => Ok(Some(bad_line(alloc, number)?)),
            Some(line) => self.serve_line(alloc, number, line),
        }
    }
}

/// The block that shows a node at a slot of a network that runs.
fn show<S: Shelf + Drop>(
    alloc: Global,
    place: Place,
    network: &ServedNetwork<S>,
    slot: u64,
    node: &NodeId,
) -> Result<String, AllocError>
    ensures { IfOk result (λ text. IsShownOf place.line place.network slot node.now network.now (string_bytes text)) }
{
    match network.seen(slot, node) {
        Some(seen) => {
            let mut text = String::new(alloc);
            push_node(alloc, &mut text, place.line, place.network, slot, &seen)?;
            push_closing(&mut text, place.line, Closing::Taken)?;
            Ok(text)
        }
        None => closed(
            alloc,
            place.line,
            Closing::Refused(not_there(network.config(), node)),
        ),
    }
}

/// Why a node of a network that runs is not at a slot: the network does not host it, or the slot is not open.
fn not_there(config: &NetConfig, node: &NodeId) -> Refusal
    ensures { result ≡ not_there config.now node.now }
{
    match config.place(node) {
        Some(_) => Refusal::SlotNotOpen,
        None => Refusal::NoSuchNode,
    }
}

/// The names of the hosted nodes, ascending.
fn names_of(alloc: Global, config: &NetConfig) -> Result<Vec<NodeId>, AllocError>
    ensures { IfOk result (λ names. names.items ≡ names_of config.now.nodes) }
{
    config
        .nodes()
        .iter()
        .map(|hosted| *hosted.name())
        .collect(alloc)
}

/// The block that is only its closing line.
fn closed(alloc: Global, line: u64, closing: Closing) -> Result<String, AllocError>
    ensures { IfOk result (λ text. string_bytes text ≡ closing_line line closing) }
{
    let mut text = String::new(alloc);
    push_closing(&mut text, line, closing)?;
    Ok(text)
}

/// The answer to a bad line, which is not kept.
fn bad_line(alloc: Global, line: u64) -> Result<Answer, AllocError>
    ensures { IfOk result (λ answer. reply_of (Some answer) ≡ one_line line Closing.Bad None) }
{
    one_line(alloc, line, Closing::Bad, None)
}

/// The answer to a line on a network that is not declared, which is not kept.
fn no_network(alloc: Global, line: u64) -> Result<Answer, AllocError>
    ensures { IfOk result (λ answer. reply_of (Some answer) ≡ one_line line (Closing.Refused Refusal.NoSuchNetwork) None) }
{
    one_line(alloc, line, Closing::Refused(Refusal::NoSuchNetwork), None)
}

/// The answer that is one line.
fn one_line(
    alloc: Global,
    line: u64,
    closing: Closing,
    done: Option<Done>,
) -> Result<Answer, AllocError>
    ensures { IfOk result (λ answer. reply_of (Some answer) ≡ one_line line closing done) }
{
    let block = closed(alloc, line, closing)?;
    Ok(Answer { block, done })
}

/// The answer with this block to a line that is not kept.
fn not_kept(block: String) -> Answer
    ensures block { string_bytes result.block ≡ string_bytes block }
    ensures done { result.done ≡ None }
{
    Answer { block, done: None }
}
