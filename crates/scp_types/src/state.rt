//! The state of one node at one slot, beside its table.

ghost use Rattle.std.specs.Prelude.{◌≡◌, ◌↔◌, ◌++◌, ◌∷◌, [], IfOk, IsTrue, OnErr, OnOk};

use crate::ballot::{Ballot, copy_of, is_same};
use crate::node_id::NodeId;
use crate::shared_values::SharedValues;
use crate::value::Value;
use std::alloc::{AllocError, Global};
use std::marker::Model;

/// The phase of balloting (the Stellar Consensus Protocol draft, of the ballot protocol).
#[derive(Clone, Copy, Debug, PartialEq, Eq)]
pub enum Phase {
    /// No commit is accepted yet.
    Preparing,
    /// An interval of counters is accepted as committed.
    Committing,
    /// An interval of counters is confirmed as committed.
    Externalized,
}

/// The leaders of the rounds so far, in the order in which they became leaders; a node that led
/// several rounds stands there as often. Contracts see it as the list of their names.
#[derive(Debug, Drop)]
pub struct Leaders {
    nodes: Vec<NodeId>,
}

impl Model for Leaders {
    ghost use Rattle.std.specs.Prelude.{ℕ, List};

    ghost Value = { List ℕ };

    ghost view = { λ a. a.nodes.items };
}

impl Leaders {
    /// No leaders. It takes no memory.
    pub fn none(alloc: Global) -> Leaders
        ensures { result ≡ [] }
    {
        Leaders {
            nodes: Vec::new(alloc),
        }
    }

    /// Adds the leader of one more round. If it is out of memory, the list stays as it was.
    pub fn push(&mut self, node: NodeId) -> Result<(), AllocError>
        ensures ok { OnOk result (self.new ≡ self.old ++ node ∷ []) }
        ensures err { OnErr result (self.new ≡ self.old) }
    {
        self.nodes.push(node)?;
        Ok(())
    }

    /// The leaders, in their order.
    pub fn as_slice(&self) -> &[NodeId]
        ensures { result.now ≡ self.now }
    {
        &self.nodes
    }

    /// A copy. An error says that it is out of memory.
    pub fn try_copy(&self, alloc: Global) -> Result<Leaders, AllocError>
        ensures { IfOk result (λ l. l ≡ self.now) }
    {
        Ok(Leaders {
            nodes: Vec::from_slice(alloc, self.as_slice())?,
        })
    }
}

/// What only events set.
#[derive(Debug, Drop)]
pub struct Inputs {
    /// What the node is to propose.
    pub proposal: Option<Value>,
    /// The round of nomination, from 1 on; 0 before the first.
    pub round: u32,
    /// The leaders of the rounds so far.
    pub leaders: Leaders,
    /// How many ballot timers have fired.
    pub ballot_timeouts: u32,
}

impl Inputs {
    /// Nothing has happened yet. It takes no memory.
    pub fn nothing(alloc: Global) -> Inputs
        ensures { result ≡ record { proposal = None; round = 0; leaders = []; ballot_timeouts = 0 } }
    {
        Inputs {
            proposal: None,
            round: 0,
            leaders: Leaders::none(alloc),
            ballot_timeouts: 0,
        }
    }

    /// A copy, which shares the bytes of each value. An error says that it is out of memory, or that a value has too
    /// many owners.
    pub fn try_copy(&self, alloc: Global) -> Result<Inputs, AllocError>
        ensures { IfOk result (λ g. g ≡ self.now) }
    {
        Ok(Inputs {
            proposal: match &self.proposal {
                None => None,
                Some(proposal) => Some(proposal.try_copy()?),
            },
            round: self.round,
            leaders: self.leaders.try_copy(alloc)?,
            ballot_timeouts: self.ballot_timeouts,
        })
    }
}

/// What a node has voted for, accepted and confirmed: all that the rules change.
#[derive(Debug, Drop)]
pub struct Votes {
    /// The values that it votes to nominate, ascending.
    pub voted: SharedValues,
    /// The values that it accepts as nominated, ascending.
    pub accepts: SharedValues,
    /// The values that it confirms as nominated, ascending.
    pub confirms: SharedValues,
    /// How far its balloting is.
    pub phase: Phase,
    /// The ballot that it tries to prepare and to commit; none before the first.
    pub ballot: Option<Ballot>,
    /// The highest ballot that it accepts as prepared.
    pub prepared: Option<Ballot>,
    /// It accepts all ballots with a counter below this one as aborted.
    pub aborted: u32,
    /// The highest ballot that it confirms as prepared.
    pub confirmed_prepared: Option<Ballot>,
    /// The ballot from whose counter on it votes to commit, while its ballot has the same value and the
    /// high counter is not below it.
    pub commit: Option<Ballot>,
    /// The least counter of the interval: accepted as committed in [`Phase::Committing`], confirmed as
    /// committed in [`Phase::Externalized`], and 0 before.
    pub low: u32,
    /// The greatest counter of the interval.
    pub high: u32,
    /// The counter for which the ballot timer was last armed.
    pub armed: u32,
}

impl Votes {
    /// No votes. It takes no memory.
    pub fn none() -> Votes
        ensures { result ≡ record { voted = []; accepts = []; confirms = []; phase = Phase.Preparing; ballot = None; prepared = None; aborted = 0; confirmed_prepared = None; commit = None; low = 0; high = 0; armed = 0 } }
    {
        Votes {
            voted: SharedValues::empty(),
            accepts: SharedValues::empty(),
            confirms: SharedValues::empty(),
            phase: Phase::Preparing,
            ballot: None,
            prepared: None,
            aborted: 0,
            confirmed_prepared: None,
            commit: None,
            low: 0,
            high: 0,
            armed: 0,
        }
    }

    /// A copy, which shares the values. It takes no memory; an error says that a value, or a list of values, has too
    /// many owners.
    pub fn try_copy(&self) -> Result<Votes, AllocError>
        ensures { IfOk result (λ w. w ≡ self.now) }
    {
        Ok(Votes {
            voted: self.voted.try_copy()?,
            accepts: self.accepts.try_copy()?,
            confirms: self.confirms.try_copy()?,
            phase: self.phase,
            ballot: copy_of(&self.ballot)?,
            prepared: copy_of(&self.prepared)?,
            aborted: self.aborted,
            confirmed_prepared: copy_of(&self.confirmed_prepared)?,
            commit: copy_of(&self.commit)?,
            low: self.low,
            high: self.high,
            armed: self.armed,
        })
    }

    /// Whether all votes are the same.
    pub fn is_same(&self, other: &Votes) -> bool
        ensures { IsTrue result ↔ self.now ≡ other.now }
    {
        self.has_same_values(other) && self.has_same_ballots(other) && self.has_same_counters(other)
    }

    /// Whether the values voted for, accepted and confirmed are the same.
    fn has_same_values(&self, other: &Votes) -> bool
        ensures { IsTrue result ↔ (self.now.voted ≡ other.now.voted) × (self.now.accepts ≡ other.now.accepts) × (self.now.confirms ≡ other.now.confirms) }
    {
        self.voted.is_same(&other.voted)
            && self.accepts.is_same(&other.accepts)
            && self.confirms.is_same(&other.confirms)
    }

    fn has_same_ballots(&self, other: &Votes) -> bool
        ensures { IsTrue result ↔ (self.now.ballot ≡ other.now.ballot) × (self.now.prepared ≡ other.now.prepared) × (self.now.confirmed_prepared ≡ other.now.confirmed_prepared) × (self.now.commit ≡ other.now.commit) }
    {
        is_same(&self.ballot, &other.ballot)
            && is_same(&self.prepared, &other.prepared)
            && is_same(&self.confirmed_prepared, &other.confirmed_prepared)
            && is_same(&self.commit, &other.commit)
    }

    /// Whether the phase and the counters are the same.
    fn has_same_counters(&self, other: &Votes) -> bool
        ensures { IsTrue result ↔ (self.now.phase ≡ other.now.phase) × (self.now.aborted ≡ other.now.aborted) × (self.now.low ≡ other.now.low) × (self.now.high ≡ other.now.high) × (self.now.armed ≡ other.now.armed) }
    {
        self.phase == other.phase
            && self.aborted == other.aborted
            && self.low == other.low
            && self.high == other.high
            && self.armed == other.armed
    }
}
