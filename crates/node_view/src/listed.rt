//! Ballots in the order in which a search goes through them.

ghost use Rattle.std.specs.Prelude.{◌≡◌, ◌<◌, ◌∷◌, ◌++◌, [], OnOk, Some, filter, length, option_to_list};
ghost use Rattle.std.specs.List.{remove};
ghost use Rattle.scp_spec.specs.Candidates.{has_positive_counter};
ghost use Rattle.scp_voting.specs.Mentions.{mentioned_by};
ghost use Rattle.scp_voting.specs.Searching.{next_under};
ghost use Rattle.scp_types.specs.Orders.{ballot_cmp};
ghost use Rattle.node_view.specs.Listing.{AreLeft, AreListed, IsBallotPlace, IsDescending, IsPlaceUnder};

use scp_types::{Ballot, LentBallot, Statement};
use scp_voting::{Mention, statement_ballots};
use std::alloc::{AllocError, Global};
use std::cmp::Ordering;
use std::marker::Model;

/// Ballots in descending order, none twice: a search for the greatest one below a bound is a binary search.
/// Contracts see the list.
///
/// For example, with values x < y < z, of ballots (2, y), (1, z) and (1, y) the greatest below (2, x) is (1, z).
#[derive(Drop)]
pub struct ListedBallots {
    ballots: Vec<Ballot>,
}

impl Model for ListedBallots {
    ghost use Rattle.std.specs.Prelude.{List};
    ghost use Rattle.scp_types.specs.declared.ballot.Ballot.{Ballot};
    ghost use Rattle.node_view.specs.Listing.{IsDescending};

    ghost Value = { List Ballot };

    ghost view = { λ l. l.ballots.items };

    ghost invariant = { λ l. IsDescending l.ballots.items };
}

impl ListedBallots {
    /// The greatest of them below the bound, or the first if there is no bound.
    pub(crate) fn next(&self, bound: &Option<LentBallot>) -> Option<LentBallot<'_>>
        ensures { result ≡ next_under bound.now self.now }
    {
        match self.ballots.get(self.place_under(bound)) {
            None => None,
            Some(ballot) => Some(LentBallot::of(ballot)),
        }
    }

    /// No ballots. It takes no memory.
    pub(crate) fn nothing(alloc: Global) -> ListedBallots
        ensures { result ≡ [] }
    {
        ListedBallots {
            ballots: Vec::new(alloc),
        }
    }

    /// Lists the ballots that the statement speaks of in this way. An error says that it is out of memory.
    pub(crate) fn add_mentioned(
        &mut self,
        mention: Mention,
        statement: &Statement,
    ) -> Result<(), AllocError>
        ensures { OnOk result (AreListed self.new (self.old ++ filter has_positive_counter (mentioned_by mention statement.now))) }
    {
        let ballots = statement_ballots(mention, statement);
        self.add_if(&ballots.first)?;
        self.add_if(&ballots.second)?;
        self.add_if(&ballots.third)
    }

    #[tactic(auto, using(crate::proofs::ListedLaws::as_before))]
    #[inline(always)]
    fn add_if(&mut self, ballot: &Option<LentBallot>) -> Result<(), AllocError>
        ensures { OnOk result (AreListed self.new (self.old ++ filter has_positive_counter (option_to_list ballot.now))) }
    {
        match ballot {
            None => Ok(()),
            Some(ballot) => self.add(ballot),
        }
    }

    /// Lists a ballot with a counter from 1 on, if it is not listed yet. An error says that it is out of memory.
    #[inline(always)]
    fn add(&mut self, ballot: &LentBallot) -> Result<(), AllocError>
        ensures { OnOk result (AreListed self.new (self.old ++ filter has_positive_counter (ballot.now ∷ []))) }
    {
        if ballot.counter() == 0 {
            return Ok(());
        }
        match self.find(ballot) {
            Ok(_) => Ok(()),
            Err(place) => {
                let copy = ballot.try_copy()?;
                self.ballots.insert(place, copy)?;
                Ok(())
            }
        }
    }

    /// Takes a ballot out of the list, if it is there. It takes no memory.
    pub(crate) fn remove(&mut self, ballot: &LentBallot)
        ensures { AreLeft [] (ballot.now ∷ []) self.old self.new }
    {
        self.are_descending();
        match self.find(ballot) {
            Err(_) => {}
            Ok(place) => self.remove_at(place - 1),
        }
    }

    /// A law: they descend.
    fn are_descending(&self)
        ensures { IsDescending self.now }
    {
        let _ballots = &self.ballots;
    }

    /// Takes out the ballot at this place. It takes no memory.
    fn remove_at(&mut self, place: usize)
        requires { place < length self.old }
        ensures { self.new ≡ remove self.old place }
    {
        let _gone = self.ballots.remove(place);
    }

    fn place_under(&self, bound: &Option<LentBallot>) -> usize
        ensures { IsPlaceUnder bound.now self.now result }
    {
        match bound {
            None => 0,
            Some(bound) => self.place_below(bound),
        }
    }

    fn place_below(&self, bound: &LentBallot) -> usize
        ensures { IsPlaceUnder (Some bound.now) self.now result }
    {
        match self.find(bound) {
            Ok(place) => place,
            Err(place) => place,
        }
    }

    /// The place of the first of them that is below a ballot, or behind all of them. It is in `Ok` if the ballot is
    /// listed, which then stands right before it, and else in `Err`.
    fn find(&self, ballot: &LentBallot) -> Result<usize, usize>
        ensures { IsBallotPlace ballot.now self.now result }
    {
        match self
            .ballots
            .binary_search_by(|listed| order(ballot, listed))
        {
            Ok(place) => Ok(place + 1),
            Err(place) => Err(place),
        }
    }
}

/// How two ballots are ordered: by counter, then value. That two values are equal is seen sooner than which of them is
/// greater.
fn order(ballot: &LentBallot, other: &Ballot) -> Ordering
    ensures { result ≡ ballot_cmp ballot.now other.now }
{
    if ballot.counter() != other.counter {
        return ballot.counter().cmp(&other.counter);
    }
    if ballot.value().is_same(&other.value) {
        return Ordering::Equal;
    }
    ballot.value().cmp(&other.value)
}
