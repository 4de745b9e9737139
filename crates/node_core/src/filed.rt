//! Events and outs whose envelopes lie in an archive.

use node_store::Filed;
use scp_types::{Nested, Out, Value};

/// What happens to one node at one slot.
#[derive(Drop)]
pub enum FiledEvent {
    /// The node is to propose a value.
    Propose(Value),
    /// An envelope reaches it.
    Take(Filed),
    /// The nomination timer of this round fires.
    NominationTimer(u32),
    /// The ballot timer that was armed for this counter fires.
    BallotTimer(u32),
    /// Its slices are these from now on.
    Reslice(Nested),
}

/// What one node at one slot gives out.
#[derive(Drop)]
pub enum FiledOut {
    /// The nomination timer is to be armed for this round.
    ArmNomination(u32),
    /// The ballot timer is to be armed for this counter.
    ArmBallot(u32),
    /// This envelope is to be sent.
    Emit(Filed),
    /// This value is what the slot decides.
    Externalized(Value),
}

/// What one event of one node gave out.
#[derive(Drop)]
pub struct GivenOut {
    /// What is given out, in order, filed; there are at most five.
    pub filed: Vec<FiledOut>,
    /// What is given out, in order, with each envelope whole.
    pub outs: Vec<Out>,
}
