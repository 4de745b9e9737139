//! The ballots that reached rows speak of, listed once and kept from event to event.

ghost use Rattle.std.specs.Prelude.{◌≡◌, ◌<◌, List, IfOk, IsTrue, OnOk, Some, get_or, length, option_map, option_to_list};
ghost use Rattle.scp_types.specs.Statements.{Sent};
ghost use Rattle.scp_types.specs.declared.kind.Kind.{Kind};
ghost use Rattle.scp_spec.specs.Sets.{IsAscending};
ghost use Rattle.scp_voting.specs.Mentions.{mentioned_by, mentioned_in};
ghost use Rattle.node_view.specs.Knowing.{AreBallotsOf, IsHeard, listed_as};
ghost use Rattle.node_view.specs.Listing.{AreLeft};
ghost use Rattle.node_view.specs.Watching.{rows_of_others};

use crate::alike::{Alike, follow};
use crate::listed::ListedBallots;
use crate::mentions::is_mentioned;
use crate::reached::ReachedRows;
use node_store::Places;
use scp_types::{Envelope, LentBallot, NodeId, Statement};
use scp_voting::{Mention, statement_ballots};
use std::alloc::{AllocError, Global};

/// The ballots that the ballot rows of other reached nodes name, and those at whose counters these rows speak of
/// commit. Both have counters from 1 on, in descending order.
///
/// A new row adds what it speaks of. It takes away what only the row that it replaces spoke of. Rows that say the same
/// are known too, if many are reached.
#[derive(Drop)]
pub struct ReachedBallots {
    pub(crate) named: ListedBallots,
    pub(crate) committed: ListedBallots,
    pub(crate) alike: Option<Alike>,
}

impl ReachedBallots {
    /// The ballots of which rows speak in this way.
    pub(crate) fn of(&self, mention: Mention) -> &ListedBallots
        ensures { result.now ≡ listed_as mention self.now }
    {
        match mention {
            Mention::Named => &self.named,
            Mention::Committed => &self.committed,
        }
    }

    /// The ballots that these rows speak of. An error says that it is out of memory.
    pub(crate) fn of_rows<S: Places>(
        alloc: Global,
        own: &NodeId,
        rows: &ReachedRows<'_, S>,
    ) -> Result<ReachedBallots, AllocError>
        requires { rows.now.kind ≡ Kind.Ballot }
        ensures { IfOk result (λ b. AreBallotsOf own.now rows.now.table rows.now.nodes b) }
    {
        let mut named = ListedBallots::nothing(alloc);
        let mut committed = ListedBallots::nothing(alloc);
        let mut last = None;
        for place in 0..rows.nodes().len() {
            let Some(statement) = rows.said_by_another(own, place) else {
                continue;
            };
            if says(last, statement) {
                continue;
            }
            named.add_mentioned(Mention::Named, statement)?;
            committed.add_mentioned(Mention::Committed, statement)?;
            last = Some(statement);
        }
        let alike = Alike::of_rows(alloc, own, rows)?;
        Ok(ReachedBallots {
            named,
            committed,
            alike,
        })
    }

    /// Follows a new row of one of these nodes, which said `before` if it had one. An error says that it is out of
    /// memory, and then nothing is known of what is listed.
    pub(crate) fn replace<S: Places>(
        &mut self,
        own: &NodeId,
        rows: &ReachedRows<'_, S>,
        row: &Envelope,
        before: Option<&Statement>,
        place: usize,
    ) -> Result<(), AllocError>
        requires kind { rows.now.kind ≡ Kind.Ballot }
        requires ascending { IsAscending rows.now.nodes }
        requires within { place < length rows.now.nodes }
        requires sender { get_or rows.now.nodes place 0 ≡ row.now.sender }
        ensures { OnOk result ((old : List Sent) → IsHeard own.now rows.now.nodes old rows.now.table row.now (option_map (λ s. s.now) before.entry) → AreBallotsOf own.now old rows.now.nodes self.old → AreBallotsOf own.now rows.now.table rows.now.nodes self.new) }
    {
        let now = row.body();
        self.named.add_mentioned(Mention::Named, now)?;
        self.committed.add_mentioned(Mention::Committed, now)?;
        follow(&mut self.alike, own, rows, row, place);
        if let Some(before) = before {
            leave_mentioned(&mut self.named, Mention::Named, own, rows, before);
            leave_mentioned(&mut self.committed, Mention::Committed, own, rows, before);
        }
        Ok(())
    }
}

/// Takes out the ballots that a replaced row spoke of in this way, but for those that some row still speaks of. It
/// takes no memory.
fn leave_mentioned<S: Places>(
    listed: &mut ListedBallots,
    mention: Mention,
    own: &NodeId,
    rows: &ReachedRows<'_, S>,
    before: &Statement,
)
    ensures { AreLeft (mentioned_in mention (rows_of_others own.now rows.now.kind rows.now.table rows.now.nodes)) (mentioned_by mention before.now) listed.old listed.new }
{
    let ballots = statement_ballots(mention, before);
    unless_mentioned(listed, mention, own, rows, &ballots.first);
    unless_mentioned(listed, mention, own, rows, &ballots.second);
    unless_mentioned(listed, mention, own, rows, &ballots.third);
}

/// Takes out a ballot, if there is one, unless some row speaks of it in this way.
#[inline(always)]
fn unless_mentioned<S: Places>(
    listed: &mut ListedBallots,
    mention: Mention,
    own: &NodeId,
    rows: &ReachedRows<'_, S>,
    ballot: &Option<LentBallot>,
)
    ensures { AreLeft (mentioned_in mention (rows_of_others own.now rows.now.kind rows.now.table rows.now.nodes)) (option_to_list ballot.now) listed.old listed.new }
{
    let Some(ballot) = ballot else {
        return;
    };
    if is_mentioned(mention, own, rows, ballot) {
        return;
    }
    listed.remove(ballot);
}

/// Whether a statement says the same as the last one, so that it adds no ballots.
fn says(last: Option<&Statement>, statement: &Statement) -> bool
    ensures { IsTrue result → option_map (λ s. s.now) last.entry ≡ Some statement.now }
{
    match last {
        None => false,
        Some(last) => last.is_same(statement),
    }
}
