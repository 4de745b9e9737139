//! What lasts of the lines of a journal, and the shorter journal that it makes.

ghost use Rattle.std.specs.Prelude.{◌≡◌, ◌⊎◌, ◌++◌, ◌∷◌, [], IfErr, IfOk, OnOk, option_map};
ghost use Rattle.std.specs.Fmt.{decimal};
ghost use Rattle.live_feed.specs.Served.{reply_of};
ghost use Rattle.std.specs.Io.KnownBytes.{Appends};
ghost use Rattle.std.specs.BTreeMap.{insert_entry};
ghost use Rattle.std.specs.List.{flat_map};
ghost use Rattle.std.specs.Map.{values_of};
ghost use Rattle.std.specs.Ordering.{nat_cmp};
ghost use Rattle.line_script.specs.Script.{lines_with_feeds};
ghost use Rattle.line_script.specs.Words.{split_once};
ghost use Rattle.live_feed.specs.Compacting.{HasCompacted};
ghost use Rattle.live_feed.specs.Lasting.{both_drawn, compacted, declaration_text, drawn_at, entry_at, events_but, first_line, lasting_after, lasting_behind, lost_at, lowered, lowered_word, lowered_words, naming_text, network_after, new_network, no_lines, slots_with, with_network, without, without_all, without_network, without_slots};

use crate::answering::{
    Answer, BatchServer, Deed, Done, Drawn, LineServer, serve_in_turn, write_and_flush,
};
use crate::gathering::MOST_LINES;
use crate::reading::{KeptLine, LONGEST_LINE, first_place};
use crate::replaying::replay;
use line_script::{Stop, number_of};
use std::alloc::{AllocError, Global};
use std::collections::{BTreeMap, VecDeque};
use std::io::{BufRead, Write, sink};
use std::marker::Model;
use std::sync::Wait;
use std::thread::Threads;

/// Has the lines of a journal answered again, up to its end, and writes a shorter journal with what lasts of them.
/// First come the lines that declared networks, with what is left of their budgets. Then each network that has been
/// named and has no open slot has a line that names it. Last come the lines of open slots.
///
/// It stops early, and writes nothing, if [`replay`] stops or if it is out of memory. It also stops if a write fails;
/// then a part may have been written.
#[tactic(auto, using(crate::proofs::LastingLines::not_compacted))]
pub fn compact<X: Threads + Wait + AllocGlobal + Sync, S: LineServer + Drop, R: BufRead, W: Write>(
    rt: &X,
    server: S,
    journal: &mut R,
    out: &mut W,
) -> Result<(), Stop>
    ensures { HasCompacted S.serves LONGEST_LINE server (R.remaining journal.old) (W.contents out.old) (W.contents out.new) result }
{
    let alloc = rt.alloc();
    let mut lasting = Lasting::new(alloc, server);
    match replay(rt, &mut lasting, journal, None, &mut sink()) {
        Ok(_) => {
            let written = write_compacted(alloc, &lasting.lines, out);
            drop(lasting);
            written
        }
        Err(stop) => {
            drop(lasting);
            Err(stop)
        }
    }
}

/// Writes the shorter journal, and flushes it.
fn write_compacted<W: Write>(alloc: Global, lines: &Lines, out: &mut W) -> Result<(), Stop>
    ensures written { OnOk result (Appends (W.contents out.old) (W.contents out.new) (compacted lines.now)) }
    ensures failed { IfErr result (λ why. ((why ≡ Stop.NoMemory) × (W.contents out.new ≡ W.contents out.old)) ⊎ (why ≡ Stop.CannotWrite)) }
{
    let Ok(text) = lines.compacted(alloc) else {
        return Err(Stop::NoMemory);
    };
    let written = write_and_flush(out, text.as_slice());
    drop(text);
    if written {
        Ok(())
    } else {
        Err(Stop::CannotWrite)
    }
}

/// What answers lines, and what lasts of those that it was given: the lines that declared networks, and those of slots
/// that are still open. On average a line takes time that grows with the logarithm of how many last.
#[derive(Drop)]
pub struct Lasting<S: LineServer> {
    server: S,
    lines: Lines,
}

impl<S: LineServer> Model for Lasting<S> {
    ghost use Rattle.live_feed.specs.Lasting.{Watched};

    ghost Value = { Watched S };

    ghost view = { λ lasting. record { server = lasting.server; lines = lasting.lines } };
}

impl<S: LineServer> Lasting<S> {
    /// A server that has answered no line yet. It takes no memory.
    pub fn new(alloc: Global, server: S) -> Lasting<S>
        ensures server { result.server ≡ server }
        ensures lines { result.lines ≡ no_lines }
    {
        Lasting {
            server,
            lines: Lines::none(alloc),
        }
    }

    /// The number of the first line that concerns a slot which is still open; `None` if no slot is open.
    pub fn first_line(&self) -> Option<u64>
        ensures { result ≡ first_line self.now.lines.lasting }
    {
        self.lines.first_line()
    }
}

impl<S: LineServer> LineServer for Lasting<S> {
    ghost use Rattle.live_feed.specs.Lasting.{Watching};
    ghost use Rattle.live_feed.specs.LastingLaws.{lasting_empty_lines_are_skipped, lasting_kept_lines_are_whole, lasting_only_kept_lines_count};

    ghost serves = { Watching S.serves };

    ghost only_kept = { lasting_only_kept_lines_count S.serves S.only_kept };

    ghost skipped = { lasting_empty_lines_are_skipped S.serves S.skipped };

    ghost whole = { lasting_kept_lines_are_whole S.serves S.whole };

    /// Has the line answered by the server, and keeps it while it lasts. An error says that it is out of memory; then
    /// nothing is served any more.
    fn serve(
        &mut self,
        alloc: Global,
        number: u64,
        line: Option<&[u8]>,
    ) -> Result<Option<Answer>, AllocError> {
        let answer = self.server.serve(alloc, number, line)?;
        self.lines.note(alloc, number, line, done_by(&answer))?;
        Ok(answer)
    }
}

impl<S: LineServer> BatchServer for Lasting<S> {
    fn lines_at_once(&self) -> usize {
        MOST_LINES
    }

    /// Answers lines in turn.
    fn serve_batch<X: Threads + Sync>(
        &mut self,
        _rt: &X,
        alloc: Global,
        count: u64,
        lines: &[KeptLine],
    ) -> VecDeque<Option<Answer>> {
        serve_in_turn(self, alloc, count, lines)
    }
}

fn done_by(answer: &Option<Answer>) -> Option<Done>
    ensures { result ≡ (reply_of answer.now).done }
{
    answer.as_ref()?.done
}

impl Drawn {
    const NOTHING: Drawn = Drawn {
        events: 0,
        bytes: 0,
        opens: 0,
    };

    /// Of each the sum, or the greatest number below 2^64.
    fn with(self, other: Drawn) -> Drawn
        ensures { result ≡ both_drawn self other }
    {
        Drawn {
            events: self.events.saturating_add(other.events),
            bytes: self.bytes.saturating_add(other.bytes),
            opens: self.opens.saturating_add(other.opens),
        }
    }
}

/// A line that declares a network, one of its nodes or its roster.
#[derive(Drop)]
struct Declaration {
    network: u32,
    text: Vec<u8>,
}

impl Model for Declaration {
    ghost use Rattle.live_feed.specs.Lasting.{Declaration};

    ghost Value = { Declaration };

    ghost view = { λ d. record { network = d.network; text = d.text.items } };
}

/// A line of an open slot.
#[derive(Drop)]
struct EventLine {
    text: Vec<u8>,
}

impl Model for EventLine {
    ghost use Rattle.line_script.specs.Script.{Bytes};

    ghost Value = { Bytes };

    ghost view = { λ line. line.text.items };
}

/// The lines that last, by their numbers: those that declare something, and those of open slots.
#[derive(Drop)]
struct LastingLines {
    declarations: BTreeMap<u64, Declaration>,
    events: BTreeMap<u64, EventLine>,
}

impl Model for LastingLines {
    ghost use Rattle.live_feed.specs.Lasting.{Lasting};

    ghost Value = { Lasting };

    ghost view = { λ lines. record { declarations = lines.declarations.entries; events = lines.events.entries } };
}

impl LastingLines {
    /// Adds a line that declares something.
    fn declare(
        &mut self,
        alloc: Global,
        number: u64,
        network: u32,
        line: &[u8],
    ) -> Result<(), AllocError>
        ensures { OnOk result (self.new ≡ record self.old { declarations = insert_entry nat_cmp self.old.declarations number (record { network = network; text = line.now }) }) }
    {
        let text = copy_of(alloc, line)?;
        match self
            .declarations
            .insert(number, Declaration { network, text })
        {
            Ok(_) => Ok(()),
            // Memory: the map has no room.
            Err(_) => Err(AllocError),
        }
    }

    /// Adds a line of an open slot.
    fn put(&mut self, alloc: Global, number: u64, line: &[u8]) -> Result<(), AllocError>
        ensures { OnOk result (self.new ≡ record self.old { events = insert_entry nat_cmp self.old.events number line.now }) }
    {
        let text = copy_of(alloc, line)?;
        match self.events.insert(number, EventLine { text }) {
            Ok(_) => Ok(()),
            // Memory: the map has no room.
            Err(_) => Err(AllocError),
        }
    }
}

fn copy_of(alloc: Global, line: &[u8]) -> Result<Vec<u8>, AllocError>
    ensures { IfOk result (λ text. text.items ≡ line.now) }
{
    let mut text = Vec::new(alloc);
    text.extend_from_slice(line)?;
    Ok(text)
}

/// The entries of these numbers are let go.
fn forget<V: Drop>(entries: &mut BTreeMap<u64, V>, numbers: &[u64])
    ensures { entries.new.entries ≡ without_all numbers.now entries.old.entries }
{
    for number in numbers {
        let _forgotten = entries.remove(number);
    }
}

/// An open slot: the numbers of its lines, and what they drew.
#[derive(Drop)]
struct SlotLines {
    lines: Vec<u64>,
    drawn: Drawn,
}

impl Model for SlotLines {
    ghost use Rattle.live_feed.specs.Lasting.{SlotLines};

    ghost Value = { SlotLines };

    ghost view = { λ slot. record { lines = slot.lines.items; drawn = slot.drawn } };
}

/// A network that is declared: the numbers of the lines that declared it, and whether an event has named it. Then what
/// events drew that are not of open slots, and its open slots.
#[derive(Drop)]
struct NetworkLines {
    declared: Vec<u64>,
    is_named: bool,
    lost: Drawn,
    slots: BTreeMap<u64, SlotLines>,
}

impl Model for NetworkLines {
    ghost use Rattle.live_feed.specs.Lasting.{NetworkLines};

    ghost Value = { NetworkLines };

    ghost view = { λ net. record { declared = net.declared.items; is_named = net.is_named; lost = net.lost; slots = net.slots.entries } };
}

impl NetworkLines {
    /// A network of which no line is known. It takes no memory.
    fn new(alloc: Global) -> NetworkLines
        ensures { result ≡ new_network }
    {
        NetworkLines {
            declared: Vec::new(alloc),
            is_named: false,
            lost: Drawn::NOTHING,
            slots: BTreeMap::new(alloc),
        }
    }

    /// Notes what the line with this number did.
    fn note(
        &mut self,
        alloc: Global,
        number: u64,
        line: &[u8],
        done: Done,
        lasting: &mut LastingLines,
    ) -> Result<(), AllocError>
        ensures network { OnOk result (self.new ≡ network_after number done.deed self.old) }
        ensures lasting { OnOk result (lasting.new ≡ lasting_after number line.now done.network done.deed self.old lasting.old) }
    {
        match done.deed {
            Deed::Declared => {
                self.declared.push(number)?;
                lasting.declare(alloc, number, done.network, line)
            }
            Deed::Refused => {
                self.is_named = true;
                Ok(())
            }
            Deed::Applied(slot, drawn) => {
                self.is_named = true;
                self.note_event(alloc, number, slot, drawn)?;
                lasting.put(alloc, number, line)
            }
            Deed::Closed(slot, drawn) => {
                self.is_named = true;
                self.close(slot, drawn, &mut lasting.events);
                Ok(())
            }
            Deed::Dropped => {
                self.forget(lasting);
                Ok(())
            }
        }
    }

    /// Notes that the line with this number was applied at a slot.
    fn note_event(
        &mut self,
        alloc: Global,
        number: u64,
        slot: u64,
        drawn: Drawn,
    ) -> Result<(), AllocError>
        ensures slots { OnOk result (self.new.slots ≡ slots_with (entry_at self.old.slots slot) slot number drawn self.old.slots) }
        ensures same { (self.new.declared ≡ self.old.declared) × (self.new.is_named ≡ self.old.is_named) × (self.new.lost ≡ self.old.lost) }
    {
        if let Some(open) = self.slots.get_mut(&slot) {
            open.drawn = open.drawn.with(drawn);
            open.lines.push(number)?;
            return Ok(());
        }
        let mut lines = Vec::new(alloc);
        lines.push(number)?;
        match self.slots.insert(slot, SlotLines { lines, drawn }) {
            Ok(_) => Ok(()),
            // Memory: the map has no room.
            Err(_) => Err(AllocError),
        }
    }

    /// A line that drew `drawn` closed a slot, whose lines do not last.
    fn close(&mut self, slot: u64, drawn: Drawn, events: &mut BTreeMap<u64, EventLine>)
        ensures network { self.new ≡ record self.old { lost = both_drawn self.old.lost (both_drawn (drawn_at (entry_at self.old.slots slot)) drawn); slots = without slot self.old.slots } }
        ensures events { events.new.entries ≡ events_but (entry_at self.old.slots slot) events.old.entries }
    {
        let mut all = Drawn::NOTHING;
        if let Some(closed) = self.slots.remove(&slot) {
            all = closed.drawn;
            forget(events, closed.lines.as_slice());
            drop(closed);
        }
        self.lost = self.lost.with(all.with(drawn));
    }

    /// None of its lines lasts.
    fn forget(&self, lasting: &mut LastingLines)
        ensures { lasting.new ≡ record { declarations = without_all self.now.declared lasting.old.declarations; events = without_slots (values_of self.now.slots) lasting.old.events } }
    {
        forget(&mut lasting.declarations, self.declared.as_slice());
        self.forget_slots(&mut lasting.events);
    }

    /// The lines of its slots are let go.
    fn forget_slots(&self, events: &mut BTreeMap<u64, EventLine>)
        ensures { events.new.entries ≡ without_slots (values_of self.now.slots) events.old.entries }
    {
        for slot in self.slots.values() {
            forget(events, slot.lines.as_slice());
        }
    }
}

/// What is known of the lines of a journal: which of them last, and its networks.
#[derive(Drop)]
struct Lines {
    lasting: LastingLines,
    networks: BTreeMap<u32, NetworkLines>,
}

impl Model for Lines {
    ghost use Rattle.live_feed.specs.Lasting.{Lines};

    ghost Value = { Lines };

    ghost view = { λ lines. record { lasting = lines.lasting; networks = lines.networks.entries } };
}

impl Lines {
    /// No line was answered yet. It takes no memory.
    fn none(alloc: Global) -> Lines
        ensures { result ≡ no_lines }
    {
        Lines {
            lasting: LastingLines {
                declarations: BTreeMap::new(alloc),
                events: BTreeMap::new(alloc),
            },
            networks: BTreeMap::new(alloc),
        }
    }

    /// Notes what a line did that was answered.
    fn note(
        &mut self,
        alloc: Global,
        number: u64,
        line: Option<&[u8]>,
        done: Option<Done>,
    ) -> Result<(), AllocError>
        ensures { OnOk result (self.new ≡ lasting_behind number (option_map (λ bytes. bytes.now) line.entry) done self.old) }
    {
        let (Some(line), Some(done)) = (line, done) else {
            return Ok(());
        };
        if line.is_empty() {
            return Ok(());
        }
        if matches!(done.deed, Deed::Dropped) {
            self.drop_network(alloc, number, line, done)
        } else {
            self.change_network(alloc, number, line, done)
        }
    }

    /// Notes a line whose network is there after it.
    fn change_network(
        &mut self,
        alloc: Global,
        number: u64,
        line: &[u8],
        done: Done,
    ) -> Result<(), AllocError>
        ensures { OnOk result (self.new ≡ with_network (entry_at self.old.networks done.network) number line.now done self.old) }
    {
        if let Some(network) = self.networks.get_mut(&done.network) {
            return network.note(alloc, number, line, done, &mut self.lasting);
        }
        let mut network = NetworkLines::new(alloc);
        network.note(alloc, number, line, done, &mut self.lasting)?;
        match self.networks.insert(done.network, network) {
            Ok(_) => Ok(()),
            // Memory: the map has no room.
            Err(_) => Err(AllocError),
        }
    }

    /// Notes a line that took a network back.
    fn drop_network(
        &mut self,
        alloc: Global,
        number: u64,
        line: &[u8],
        done: Done,
    ) -> Result<(), AllocError>
        ensures { OnOk result (self.new ≡ without_network (entry_at self.old.networks done.network) number line.now done self.old) }
    {
        match self.networks.remove(&done.network) {
            Some(dropped) => {
                let mut dropped = dropped;
                let noted = dropped.note(alloc, number, line, done, &mut self.lasting);
                drop(dropped);
                noted
            }
            None => Ok(()),
        }
    }

    /// The number of the first line of those of open slots.
    fn first_line(&self) -> Option<u64>
        ensures { result ≡ first_line self.now.lasting }
    {
        let (number, _) = self.lasting.events.first_key_value()?;
        Some(*number)
    }

    /// The bytes of the shorter journal.
    fn compacted(&self, alloc: Global) -> Result<Vec<u8>, AllocError>
        ensures { IfOk result (λ text. text.items ≡ compacted self.now) }
    {
        let mut text = Vec::new(alloc);
        self.push_declarations(&mut text)?;
        self.push_namings(&mut text)?;
        self.push_events(&mut text)?;
        Ok(text)
    }

    /// Adds the lines that declare networks, with what is left of their budgets.
    fn push_declarations(&self, text: &mut Vec<u8>) -> Result<(), AllocError>
        ensures { OnOk result (text.new.items ≡ text.old.items ++ flat_map (declaration_text self.now.networks) (values_of self.now.lasting.declarations)) }
    {
        for declaration in self.lasting.declarations.values() {
            self.push_declaration(text, declaration)?;
        }
        Ok(())
    }

    /// Adds a line that declares something, with what is left of its budgets.
    fn push_declaration(
        &self,
        text: &mut Vec<u8>,
        declaration: &Declaration,
    ) -> Result<(), AllocError>
        ensures { OnOk result (text.new.items ≡ text.old.items ++ declaration_text self.now.networks declaration.now) }
    {
        let lost = self.lost_of(declaration.network);
        push_lowered(text, lost, declaration.text.as_slice())?;
        text.push(b'\n')?;
        Ok(())
    }

    /// What events of a network drew that are not of open slots.
    fn lost_of(&self, network: u32) -> Drawn
        ensures { result ≡ lost_at (entry_at self.now.networks network) }
    {
        match self.networks.get(&network) {
            Some(network) => network.lost,
            None => Drawn::NOTHING,
        }
    }

    /// Adds a line that names each network which an event has named and of which no slot is open.
    fn push_namings(&self, text: &mut Vec<u8>) -> Result<(), AllocError>
        ensures { OnOk result (text.new.items ≡ text.old.items ++ flat_map naming_text self.now.networks) }
    {
        for (number, network) in self.networks.iter() {
            push_naming(text, *number, network)?;
        }
        Ok(())
    }

    /// Adds the lines of open slots.
    fn push_events(&self, text: &mut Vec<u8>) -> Result<(), AllocError>
        ensures { OnOk result (text.new.items ≡ text.old.items ++ lines_with_feeds (values_of self.now.lasting.events)) }
    {
        for line in self.lasting.events.values() {
            push_event(text, line)?;
        }
        Ok(())
    }
}

/// Adds a line that is refused and names a network, if an event has named it and no slot is open.
fn push_naming(text: &mut Vec<u8>, number: u32, network: &NetworkLines) -> Result<(), AllocError>
    ensures { OnOk result (text.new.items ≡ text.old.items ++ naming_text (number, network.now)) }
{
    if !network.is_named || !network.slots.is_empty() {
        return Ok(());
    }
    text.extend_from_slice(b"close ")?;
    push_number(text, u64::from(number))?;
    text.extend_from_slice(b" 0\n")
}

/// Adds a line and a line feed.
fn push_event(text: &mut Vec<u8>, line: &EventLine) -> Result<(), AllocError>
    ensures { OnOk result (text.new.items ≡ text.old.items ++ (line.now ++ 10 ∷ [])) }
{
    text.extend_from_slice(line.text.as_slice())?;
    text.push(b'\n')?;
    Ok(())
}

/// Adds a line that declares a network, or its roster, with budgets that are less by this.
#[tactic(auto, unfolding(crate::specs::Lasting::lowered))]
fn push_lowered(text: &mut Vec<u8>, by: Drawn, line: &[u8]) -> Result<(), AllocError>
    ensures { OnOk result (text.new.items ≡ text.old.items ++ lowered by line.now) }
{
    if line.starts_with(b"net ") {
        push_words(text, &[0, 0, 0, by.events, 0, by.bytes], line)
    } else if line.starts_with(b"roster ") {
        push_words(text, &[0, 0, 0, 0, 0, 0, 0, 0, 0, by.opens], line)
    } else {
        text.extend_from_slice(line)
    }
}

/// Adds the words of a line, the first ones with these numbers less.
fn push_words(text: &mut Vec<u8>, by: &[u64], words: &[u8]) -> Result<(), AllocError>
    ensures { OnOk result (text.new.items ≡ text.old.items ++ lowered_words by.now words.now) }
{
    let [first, more @ ..] = by else {
        return text.extend_from_slice(words);
    };
    match split_once(words) {
        Some((word, rest)) => {
            push_word(text, *first, word)?;
            text.push(b' ')?;
            push_words(text, more, rest)
        }
        None => push_word(text, *first, words),
    }
}

/// What stands before the first space, and what stands behind it.
#[tactic(auto, using(line_script::proofs::WordLaws::cut_found, line_script::proofs::WordLaws::cut_missing))]
fn split_once(words: &[u8]) -> Option<(&[u8], &[u8])>
    ensures { option_map (λ parts. (parts.0.now, parts.1.now)) result ≡ split_once 32 words.now }
{
    let place = first_place(words, b' ')?;
    Some((&words[..place], &words[place + 1..]))
}

/// Adds a word; of one that spells a number, this number less `by`.
fn push_word(text: &mut Vec<u8>, by: u64, word: &[u8]) -> Result<(), AllocError>
    ensures { OnOk result (text.new.items ≡ text.old.items ++ lowered_word by word.now) }
{
    match number_of(word) {
        Some(number) => push_number(text, number.saturating_sub(by)),
        None => text.extend_from_slice(word),
    }
}

fn push_number(text: &mut Vec<u8>, number: u64) -> Result<(), AllocError>
    ensures { OnOk result (text.new.items ≡ text.old.items ++ decimal number) }
{
    let digits = format!(in *text.allocator(); "{number}")?;
    let pushed = text.extend_from_slice(digits.as_str().as_bytes());
    drop(digits);
    pushed
}
