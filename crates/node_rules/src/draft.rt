//! Votes that are lent until the first change.

ghost use Rattle.std.specs.Prelude.{◌≡◌, Some, OnErr, OnOk, unwrap_or};
ghost use Rattle.std.specs.Fn.{FnOnceReturnsAtMut};
ghost use Rattle.node_rules.specs.Drafted.{after};

use scp_types::{Ballot, Phase, SharedValues, Votes};
use std::alloc::AllocError;
use std::marker::Model;

/// A node's votes as rules change them: while nothing changes they are only read, and the first change makes a copy of
/// them, in which it and all later ones are made. So rules that change nothing copy nothing, and after an error the
/// node's own votes are as they were.
///
/// Contracts see the votes before any rule beside those of the moment. A change takes no memory; an error says that a
/// value, or a list of values, has too many owners, and leaves both as they were.
#[derive(Drop)]
pub struct Draft<'a> {
    lent: &'a Votes,
    own: Option<Votes>,
}

impl<'a> Model for Draft<'a> {
    ghost use Rattle.std.specs.Prelude.{unwrap_or};
    ghost use Rattle.node_rules.specs.Drafted.{Drafted};

    ghost Value = { Drafted };

    ghost view = { λ d. record { before = d.lent.now; now = unwrap_or d.own d.lent.now } };
}

impl<'a> Draft<'a> {
    /// These votes, which no rule has changed yet. It takes no memory.
    pub fn of(votes: &'a Votes) -> Draft<'a>
        ensures { result ≡ record { before = votes.now; now = votes.now } }
    {
        Draft {
            lent: votes,
            own: None,
        }
    }

    /// The votes of the moment.
    pub fn votes(&self) -> &Votes
        ensures { result.now ≡ self.now.now }
    {
        match &self.own {
            None => self.lent,
            Some(own) => own,
        }
    }

    /// The changed votes; `None` if no rule changed any.
    pub fn into_changed(self) -> Option<Votes>
        ensures { unwrap_or result self.entry.before ≡ self.entry.now }
    {
        self.own
    }

    /// The node votes to nominate these values.
    pub fn set_voted(&mut self, voted: SharedValues) -> Result<(), AllocError>
        ensures ok { OnOk result (self.new ≡ after (λ w. record w { voted = voted }) self.old) }
        ensures err { OnErr result (self.new ≡ self.old) }
    {
        self.change(|votes| votes.voted = voted)
    }

    /// The node accepts these values as nominated.
    pub fn set_accepts(&mut self, accepts: SharedValues) -> Result<(), AllocError>
        ensures ok { OnOk result (self.new ≡ after (λ w. record w { accepts = accepts }) self.old) }
        ensures err { OnErr result (self.new ≡ self.old) }
    {
        self.change(|votes| votes.accepts = accepts)
    }

    /// The node confirms these values as nominated.
    pub fn set_confirms(&mut self, confirms: SharedValues) -> Result<(), AllocError>
        ensures ok { OnOk result (self.new ≡ after (λ w. record w { confirms = confirms }) self.old) }
        ensures err { OnErr result (self.new ≡ self.old) }
    {
        self.change(|votes| votes.confirms = confirms)
    }

    /// Balloting is in this phase.
    pub fn set_phase(&mut self, phase: Phase) -> Result<(), AllocError>
        ensures ok { OnOk result (self.new ≡ after (λ w. record w { phase = phase }) self.old) }
        ensures err { OnErr result (self.new ≡ self.old) }
    {
        self.change(|votes| votes.phase = phase)
    }

    /// The node tries to prepare and to commit this ballot.
    pub fn set_ballot(&mut self, ballot: Ballot) -> Result<(), AllocError>
        ensures ok { OnOk result (self.new ≡ after (λ w. record w { ballot = Some ballot }) self.old) }
        ensures err { OnErr result (self.new ≡ self.old) }
    {
        self.change(|votes| votes.ballot = Some(ballot))
    }

    /// This is the highest ballot that the node accepts as prepared.
    pub fn set_prepared(&mut self, prepared: Ballot) -> Result<(), AllocError>
        ensures ok { OnOk result (self.new ≡ after (λ w. record w { prepared = Some prepared }) self.old) }
        ensures err { OnErr result (self.new ≡ self.old) }
    {
        self.change(|votes| votes.prepared = Some(prepared))
    }

    /// The node accepts all ballots with a counter below this one as aborted.
    pub fn set_aborted(&mut self, aborted: u32) -> Result<(), AllocError>
        ensures ok { OnOk result (self.new ≡ after (λ w. record w { aborted = aborted }) self.old) }
        ensures err { OnErr result (self.new ≡ self.old) }
    {
        self.change(|votes| votes.aborted = aborted)
    }

    /// This is the highest ballot that the node confirms as prepared.
    pub fn set_confirmed_prepared(&mut self, confirmed_prepared: Ballot) -> Result<(), AllocError>
        ensures ok { OnOk result (self.new ≡ after (λ w. record w { confirmed_prepared = Some confirmed_prepared }) self.old) }
        ensures err { OnErr result (self.new ≡ self.old) }
    {
        self.change(|votes| votes.confirmed_prepared = Some(confirmed_prepared))
    }

    /// The node votes to commit from the counter of this ballot on, or not at all if there is none.
    pub fn set_commit(&mut self, commit: Option<Ballot>) -> Result<(), AllocError>
        ensures ok { OnOk result (self.new ≡ after (λ w. record w { commit = commit }) self.old) }
        ensures err { OnErr result (self.new ≡ self.old) }
    {
        self.change(|votes| votes.commit = commit)
    }

    /// This is the interval of counters that is accepted, or confirmed, as committed: its least and its
    /// greatest counter.
    pub fn set_interval(&mut self, low: u32, high: u32) -> Result<(), AllocError>
        ensures ok { OnOk result (self.new ≡ after (λ w. record w { low = low; high = high }) self.old) }
        ensures err { OnErr result (self.new ≡ self.old) }
    {
        self.change(|votes| {
            votes.low = low;
            votes.high = high;
        })
    }

    /// The ballot timer was last armed for this counter.
    pub fn set_armed(&mut self, armed: u32) -> Result<(), AllocError>
        ensures ok { OnOk result (self.new ≡ after (λ w. record w { armed = armed }) self.old) }
        ensures err { OnErr result (self.new ≡ self.old) }
    {
        self.change(|votes| votes.armed = armed)
    }

    /// Makes one change in the copy, which is made before the first one.
    fn change<F: FnOnce(&mut Votes)>(&mut self, change: F) -> Result<(), AllocError>
        requires { F.IsAlwaysCallable change }
        ensures before { self.new.before ≡ self.old.before }
        ensures ok { OnOk result (FnOnceReturnsAtMut F.FnOnce change self.old.now tt self.new.now) }
        ensures err { OnErr result (self.new ≡ self.old) }
    {
        copy_once(&mut self.own, self.lent)?;
        if let Some(own) = &mut self.own {
            change(own);
        }
        Ok(())
    }
}

/// `own` becomes a copy of the votes that are lent, if there is none yet. An error says that a value, or a list of
/// values, has too many owners.
fn copy_once(own: &mut Option<Votes>, lent: &Votes) -> Result<(), AllocError>
    ensures ok { OnOk result (own.new ≡ Some (unwrap_or own.old lent.now)) }
    ensures err { OnErr result (own.new ≡ own.old) }
{
    if own.is_some() {
        return Ok(());
    }
    match lent.try_copy() {
        Err(error) => Err(error),
        Ok(copy) => {
            *own = Some(copy);
            Ok(())
        }
    }
}
