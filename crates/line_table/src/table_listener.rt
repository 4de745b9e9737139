//! One node at one slot, with an archive of its own: the rows of the envelopes that it took, and what follows from
//! them.

ghost use Rattle.std.specs.Prelude.{◌≡◌, ◌≢◌, ◌↔◌, IsTrue, IfOk, [], false, true, OnErr, OnOk};
ghost use Rattle.scp_voting.specs.Questions.{backs};
ghost use Rattle.scp_voting.specs.declared.claim.Claim.{Claim};
ghost use Rattle.scp_types.specs.declared.kind.Kind.{Kind};
ghost use Rattle.scp_spec.specs.Backing.{passing_senders};
ghost use Rattle.scp_spec.specs.Rows.{is_taken, table_with_offer};
ghost use Rattle.scp_spec.specs.Reach.{IsReach};
ghost use Rattle.line_table.specs.Listeners.{IsBacked};
ghost use Rattle.node_view.specs.Knowing.{IsKnown};

use node_reach::reach;
use node_store::{Archive, BoxShelf, Places};
use node_table::{Put, Rows};
use node_view::{Configured, KnownReach, Listener, Own, View};
use scp_types::{Ballot, Envelope, Kind, Leaders, NodeId};
use scp_voting::{Claim, Question, Sight};
use std::alloc::{AllocError, Global};
use std::marker::Model;

/// What became of an envelope.
#[derive(Clone, Copy, Debug, PartialEq, Eq)]
pub enum Taken {
    /// It is its sender's row of its kind now.
    Replaced,
    /// It is not newer than the row that stands.
    Stale,
    /// It is about another slot.
    OtherSlot,
    /// The listener is out of memory for it.
    NoMemory,
}

/// A listener that hears only envelopes of its own slot, with the archive where its rows lie.
///
/// The nodes that it reaches are kept from one question to the next, until a row comes that may
/// change them.
///
/// For example, if A's slices name only B, and B's row names C, A keeps A, B and C.
#[derive(Drop)]
pub struct TableListener {
    listener: Listener,
    archive: Archive<BoxShelf>,
}

impl Model for TableListener {
    ghost use Rattle.line_table.specs.Listeners.{HeardRows};
    ghost use Rattle.scp_types.specs.Trees.{members_code};
    ghost use Rattle.std.specs.Coded.{codes};

    ghost Value = { HeardRows };

    ghost coded = { Prim.hlevel (codes, members_code) };

    ghost use Rattle.node_store.specs.Archives.{AreFiled, sents_of};

    ghost view = { λ s. record { configured = s.listener.configured; rows = sents_of s.listener.table } };

    ghost invariant = { λ s. AreFiled s.archive s.listener.table };
}

impl TableListener {
    /// A listener that has taken nothing. It takes no memory.
    pub fn new(alloc: Global, configured: Configured) -> TableListener
        ensures { result ≡ record { configured = configured; rows = [] } }
    {
        TableListener {
            listener: Listener::new(alloc, configured),
            archive: Archive::new(alloc, BoxShelf::new(alloc)),
        }
    }

    /// The slot that it is about.
    pub fn slot(&self) -> u64
        ensures { result ≡ self.now.configured.slot }
    {
        self.listener.configuration().slot
    }

    /// Its rows: the newest envelope of each sender and kind that it took.
    pub fn rows(&self) -> Rows<'_, BoxShelf>
        ensures { result ≡ self.now.rows }
    {
        Rows::of(self.listener.table(), &self.archive)
    }

    /// Offers an envelope to the table. If the answer is not [`Taken::Replaced`], the rows are as they were. A stale
    /// envelope, and one about another slot, takes no memory.
    pub fn take(&mut self, alloc: Global, envelope: Envelope) -> Taken
        ensures other { (result ≡ Taken.OtherSlot) ↔ (envelope.slot ≢ self.old.configured.slot) }
        ensures stale { (result ≡ Taken.Stale) ↔ ((envelope.slot ≡ self.old.configured.slot) × (is_taken self.old.rows envelope ≡ false)) }
        ensures replaced { result ≡ Taken.Replaced → self.new ≡ record self.old { rows = table_with_offer self.old.rows envelope } }
        ensures newer { result ≡ Taken.Replaced → is_taken self.old.rows envelope ≡ true }
        ensures unchanged { result ≢ Taken.Replaced → self.new ≡ self.old }
    {
        if envelope.slot() != self.slot() {
            return Taken::OtherSlot;
        }
        if !self.rows().takes(&envelope) {
            return Taken::Stale;
        }
        match self.offer(alloc, envelope) {
            Ok(()) => Taken::Replaced,
            // Memory: the archive has none, or the table.
            Err(_) => Taken::NoMemory,
        }
    }

    /// Files the envelope, and offers it to the table. The row that it replaces is let go. Behind an error the rows are
    /// as they were, but the archive may have grown.
    fn offer(&mut self, alloc: Global, envelope: Envelope) -> Result<(), AllocError>
        ensures offered { OnOk result (self.new ≡ record self.old { rows = table_with_offer self.old.rows envelope }) }
        ensures err { OnErr result (self.new ≡ self.old) }
    {
        let _single_rows = self.listener.table().rows();
        let envelope = self.archive.with_shared_slices(envelope);
        let filed = self.archive.put(envelope)?;
        match self.listener.put(alloc, &self.archive, filed).0 {
            Put::NoMemory => Err(AllocError),
            Put::Stale | Put::Added => Ok(()),
            Put::Replaced(row) => {
                self.archive.remove(row);
                Ok(())
            }
        }
    }

    /// All nodes that the node reaches, ascending, none twice: itself, the names of its configured slices, and the
    /// names in any row whose sender is reached. An error says that it is out of memory.
    pub fn reach(&self, alloc: Global) -> Result<Vec<NodeId>, AllocError>
        ensures { IfOk result (λ v. IsReach self.now.configured.name self.now.configured.slices self.now.rows v.items) }
    {
        let configured = self.listener.configuration();
        reach(alloc, &self.rows(), &configured.name, &configured.slices)
    }

    /// Whether the node is in a quorum whose ballot rows all vote for or accept that the ballot is prepared (Mazières
    /// 2015, of quorums). The node's own slices are the configured ones; every other node's are those of its ballot
    /// row. Nothing changes but what is kept of the reach. An error says that it is out of memory.
    pub fn is_backed(&mut self, alloc: Global, ballot: &Ballot) -> Result<bool, AllocError>
        ensures answer { IfOk result (λ b. IsTrue b ↔ IsBacked self.old ballot.now) }
        ensures unchanged { self.new ≡ self.old }
    {
        let reach = self.listener.take_reach(alloc, &self.archive)?;
        let answer = self.is_backed_within(alloc, ballot, &reach);
        self.listener.keep_reach(reach);
        answer
    }

    fn is_backed_within(
        &self,
        alloc: Global,
        ballot: &Ballot,
        reach: &KnownReach,
    ) -> Result<bool, AllocError>
        requires { IsKnown self.now.configured.name self.now.configured.slices self.now.rows reach.now }
        ensures { IfOk result (λ b. IsTrue b ↔ IsBacked self.now ballot.now) }
    {
        let rows = self.rows();
        is_backed_by(alloc, self.listener.configuration(), &rows, reach, ballot)
    }
}

fn is_backed_by<S: Places>(
    alloc: Global,
    configured: &Configured,
    rows: &Rows<'_, S>,
    reach: &KnownReach,
    ballot: &Ballot,
) -> Result<bool, AllocError>
    requires { IsKnown configured.now.name configured.now.slices rows.now reach.now }
    ensures { IfOk result (λ b. IsTrue b ↔ IsBacked (record { configured = configured.now; rows = rows.now }) ballot.now) }
{
    // No rule asks this view whom the node follows.
    let leaders = Leaders::none(alloc);
    let own = Own {
        name: &configured.name,
        slices: &configured.slices,
    };
    let view = View::of(alloc, own, &leaders, rows, reach)?;
    let claim = claim_of(ballot)?;
    let question = Question::Backs(&claim);
    let own_passes = is_claim_backed(rows, &configured.name, &claim);
    let answer = view.quorum(alloc, own_passes, &question)?;
    Ok(answer)
}

/// The claim that the ballot is prepared. An error says that its value has too many owners.
fn claim_of(ballot: &Ballot) -> Result<Claim, AllocError>
    ensures { IfOk result (λ c. c ≡ Claim.Prepare ballot.now) }
{
    Ok(Claim::Prepare(ballot.try_copy()?))
}

/// Whether the sender's ballot row votes for or accepts the claim.
fn is_claim_backed<S: Places>(rows: &Rows<'_, S>, sender: &NodeId, claim: &Claim) -> bool
    ensures { result ≡ passing_senders rows.now Kind.Ballot (backs claim.now) sender.now }
{
    match rows.row(sender, Kind::Ballot) {
        Some(row) => claim.is_backed_by(row.body()),
        None => false,
    }
}
