//! The journals of many networks, by number.

ghost use Rattle.std.specs.Prelude.{◌≡◌, ◌<◌, ◌≢◌, [], Err, IfErr, IfOk, None, Ok, OnErr, OnOk, Some, ◌∷◌, length, option_map};
ghost use Rattle.scp_spec.specs.Hosts.{History};
ghost use Rattle.scp_types.specs.declared.event.Refusal.TheVariants.{NoMemory};
ghost use Rattle.host_world.specs.Worlds.{IsAnswered, IsNotAdded, IsPlaceOf, AreJournalsOf, with_history_of, and_then, with_new_network, history_without, log_at, logs_with, logs_without, marks_at};

use host_config::NetConfig;
use host_journal::{Journal, Keeping, Kept};
use host_network::Given;
use node_store::Shelf;
use scp_types::{Event, Refusal};
use std::alloc::Global;
use std::marker::Model;
use thiserror::Error;

/// The most networks of a host (this host's profile).
pub const MAX_NETWORKS: usize = 4096;

/// Why a network is not added.
#[derive(Clone, Copy, Debug, PartialEq, Eq, Error)]
pub enum WorldError {
    /// There is a network of that number.
    #[error("there is a network of that number")]
    NetTwice,
    /// There are 4,096 networks already.
    #[error("there are 4,096 networks")]
    TooManyNets,
    /// It is out of memory.
    #[error("memory is wanting")]
    NoMemory,
}

/// The journals of a host, ascending by the numbers of their networks. Their entries are kept to be read again
/// ([`Kept`]), or only in contracts ([`Unkept`](host_journal::Unkept)).
///
/// The numbers stand in a list of their own, so that a binary search for a network stays in memory that lies together.
/// So an event costs the same among 4,096 networks. Contracts see the list of the journals.
///
/// For example, the journals of networks that were added as 7, 3 and 5 stand as 3, 5, 7, and so do their numbers.
#[derive(Drop)]
pub struct World<S: Shelf, K: Keeping = Kept> {
    alloc: Global,
    numbers: Vec<u32>,
    journals: Vec<Journal<S, K>>,
}

impl<S: Shelf, K: Keeping> Model for World<S, K> {
    ghost use Rattle.std.specs.Coded.{codes};
    ghost use Rattle.std.specs.Prelude.{◌≡◌, List};
    ghost use Rattle.scp_types.specs.Trees.{members_code};
    ghost use Rattle.host_journal.specs.Logs.{Log};
    ghost use Rattle.host_world.specs.Worlds.{AreByNumber, numbers_of};

    ghost Value = { List Log };

    ghost coded = { Prim.hlevel (codes, members_code) };

    ghost view = { λ w. w.journals.items };

    ghost invariant = { λ w. (w.numbers.items ≡ numbers_of w.journals.items) × AreByNumber w.journals.items };
}

impl<S: Shelf, K: Keeping> World<S, K> {
    /// A host without networks. It takes no memory.
    pub fn new(alloc: Global) -> World<S, K>
        ensures { result ≡ [] }
    {
        World {
            alloc,
            numbers: Vec::new(alloc),
            journals: Vec::new(alloc),
        }
    }

    /// Adds a network, with a shelf for its envelopes; nothing has happened to it. Events that named its number before
    /// were refused, so a history of the host is one without them.
    ///
    /// An error says that there is a network of that number, or that there are 4,096 networks, or that it is out of
    /// memory, in this order. The host is as it was then.
    pub fn add(&mut self, config: NetConfig, shelf: S) -> Result<(), WorldError>
    where
        S: Drop,
        ensures ok { OnOk result (self.new ≡ logs_with (record { config = config; entries = [] }) self.old) }
        ensures fresh { OnOk result (log_at self.old config.number ≡ None) }
        ensures err { IfErr result (IsNotAdded self.old config.number) }
        ensures same { OnErr result (self.new ≡ self.old) }
        ensures history { (h : History) → AreJournalsOf h self.old → OnOk result (AreJournalsOf (with_new_network config h) self.new) }
    {
        match self.join(Journal::new(self.alloc, config, shelf)) {
            Ok(()) => Ok(()),
            Err((error, journal)) => {
                drop(journal);
                Err(error)
            }
        }
    }

    /// Adds the journal of a network, with all that it has, in the place of its number. It is handed back if there is a
    /// network of that number, if there are 4,096, or if it is out of memory; then the host is as it was.
    ///
    /// If the journal is that of a history of its own, the events of that history come last in the host's history from
    /// then on. Events of the host's that named its number before were refused.
    pub fn adopt(&mut self, journal: Journal<S, K>) -> Result<(), Journal<S, K>>
        ensures ok { OnOk result (self.new ≡ logs_with journal self.old) }
        ensures fresh { OnOk result (log_at self.old journal.config.number ≡ None) }
        ensures back { IfErr result (λ j. j ≡ journal) }
        ensures same { OnErr result (self.new ≡ self.old) }
        ensures history { (h own : History) → AreJournalsOf h self.old → AreJournalsOf own (journal ∷ []) → OnOk result (AreJournalsOf (with_history_of journal.config own h) self.new) }
    {
        match self.join(journal) {
            Ok(()) => Ok(()),
            Err((_, journal)) => Err(journal),
        }
    }

    /// Takes the journal of a network out, if it is there. A history of the host is from then on one without that
    /// network and without the events that named its number. It takes no memory.
    pub fn remove(&mut self, number: u32) -> Option<Journal<S, K>>
        ensures which { result ≡ log_at self.old number }
        ensures rest { self.new ≡ logs_without number self.old }
        ensures history { (h : History) → AreJournalsOf h self.old → AreJournalsOf (history_without number h) self.new }
    {
        match self.place(number) {
            Ok(at) => Some(self.take_at(at, number)),
            Err(_) => None,
        }
    }

    /// The journal of a network, by a binary search.
    pub fn journal(&self, number: u32) -> Option<&Journal<S, K>>
        ensures { option_map (λ j. j.now) result ≡ log_at self.now number }
    {
        match self.place(number) {
            Ok(at) => Some(&self.journals[at]),
            Err(_) => None,
        }
    }

    /// The journals, ascending by the numbers of their networks.
    pub fn journals(&self) -> &[Journal<S, K>]
        ensures { result.now ≡ self.now }
    {
        &self.journals
    }

    /// Applies one event of a network, by its journal. If the network is not there, the event is refused. The marks
    /// that are answered are the numbers by which other nodes of the network hear its emissions.
    ///
    /// An error is the first refusal that applies, or says that it is out of memory, as of [`Journal::apply`]. The host
    /// is as it was then.
    pub fn apply(&mut self, number: u32, event: Event) -> Result<Given, Refusal>
        ensures answer { IsAnswered self.old number event result self.new }
        ensures marks { IfOk result (λ g. g.marks.items ≡ marks_at self.old number event) }
        ensures same { OnErr result (self.new ≡ self.old) }
        ensures history { (h : History) → AreJournalsOf h self.old → result ≢ Err NoMemory → AreJournalsOf (and_then h number event) self.new }
    {
        match self.place(number) {
            Ok(at) => self.journals[at].apply(event),
            Err(_) => Err(Refusal::NoSuchNetwork),
        }
    }

    /// The place of a network among them, or where it would stand.
    fn place(&self, number: u32) -> Result<usize, usize>
        ensures { IsPlaceOf self.now number result }
    {
        self.numbers.binary_search(&number)
    }

    fn take_at(&mut self, at: usize, number: u32) -> Journal<S, K>
        requires { IsPlaceOf self.old number (Ok at) }
        ensures which { Some result ≡ log_at self.old number }
        ensures rest { self.new ≡ logs_without number self.old }
    {
        let _number = self.numbers.remove(at);
        self.journals.remove(at)
    }

    /// Adds a journal in the place of its number. It is handed back with the reason if there is a network of that
    /// number, if there are 4,096, or if it is out of memory, in this order. Then the host is as it was.
    fn join(&mut self, journal: Journal<S, K>) -> Result<(), (WorldError, Journal<S, K>)>
        ensures ok { OnOk result (self.new ≡ logs_with journal self.old) }
        ensures fresh { OnOk result (log_at self.old journal.config.number ≡ None) }
        ensures err { IfErr result (λ e. IsNotAdded self.old journal.config.number e.0) }
        ensures back { IfErr result (λ e. e.1 ≡ journal) }
        ensures same { OnErr result (self.new ≡ self.old) }
    {
        match self.place(journal.config().number()) {
            Ok(_) => Err((WorldError::NetTwice, journal)),
            Err(at) => {
                if self.journals.len() >= MAX_NETWORKS {
                    return Err((WorldError::TooManyNets, journal));
                }
                match self.put_at(at, journal) {
                    Ok(()) => Ok(()),
                    // Memory: the journal has no room.
                    Err(journal) => Err((WorldError::NoMemory, journal)),
                }
            }
        }
    }

    /// Adds a journal at the place of its number. It is handed back if it is out of memory; then the host is as it was.
    fn put_at(&mut self, at: usize, journal: Journal<S, K>) -> Result<(), Journal<S, K>>
        requires at { IsPlaceOf self.old journal.config.number (Err at) }
        requires few { length self.old < 4096 }
        ensures ok { OnOk result (self.new ≡ logs_with journal self.old) }
        ensures back { IfErr result (λ j. j ≡ journal) }
        ensures same { OnErr result (self.new ≡ self.old) }
    {
        let number = journal.config().number();
        if self.numbers.reserve(1).is_err() {
            return Err(journal);
        }
        match self.journals.insert(at, journal) {
            Err(refused) => Err(refused.value),
            Ok(()) => {
                let Ok(()) = self.numbers.insert(at, number) else {
                    unreachable!()
                };
                Ok(())
            }
        }
    }
}
