//! How far a node is, in words.

ghost use Rattle.std.specs.Prelude.{◌≡◌, ◌++◌, OnOk, string_bytes};
ghost use Rattle.line_script.specs.Printed.{text_of_optional};
ghost use Rattle.live_network.specs.State.{ballot_of_counter, text_of_commit, text_of_committed, text_of_interval, text_of_phase, text_of_prepared, text_of_state, text_of_timers};

use line_script::{push_ballot, push_value};
use node_core::Node;
use scp_types::{Ballot, Phase, Votes};
use std::alloc::AllocError;
use std::fmt::Write;

/// Adds how far a node is: its phase and ballots, its round of nomination, and its ballot timers.
pub(crate) fn push_state_words(text: &mut String, node: &Node) -> Result<(), AllocError>
    ensures { OnOk result (string_bytes text.new ≡ string_bytes text.old ++ text_of_state node.now.node) }
{
    push_prepared(text, node.votes())?;
    push_committed(text, node.votes())?;
    push_timers(text, node)
}

/// Adds the phase, the ballot, the highest that is accepted as prepared, and below which counter all are aborted.
fn push_prepared(text: &mut String, votes: &Votes) -> Result<(), AllocError>
    ensures { OnOk result (string_bytes text.new ≡ string_bytes text.old ++ text_of_prepared votes.now) }
{
    let aborted = votes.aborted;
    text.push_str("phase ")?;
    push_phase(text, votes.phase)?;
    text.push_str(" ballot ")?;
    push_optional(text, &votes.ballot)?;
    text.push_str(" prepared ")?;
    push_optional(text, &votes.prepared)?;
    write!(text, " aborted {aborted}")
}

/// Adds the highest ballot that is confirmed as prepared, the one from which on commits are voted for, and the
/// interval.
fn push_committed(text: &mut String, votes: &Votes) -> Result<(), AllocError>
    ensures { OnOk result (string_bytes text.new ≡ string_bytes text.old ++ text_of_committed votes.now) }
{
    text.push_str(" high ")?;
    push_optional(text, &votes.confirmed_prepared)?;
    text.push_str(" commit ")?;
    push_commit(text, votes)?;
    text.push_str(" interval ")?;
    push_interval(text, votes)
}

/// Adds the round of nomination, the counter for which the ballot timer was last armed, and how many of these fired.
fn push_timers(text: &mut String, node: &Node) -> Result<(), AllocError>
    ensures { OnOk result (string_bytes text.new ≡ string_bytes text.old ++ text_of_timers node.now.node) }
{
    let round = node.inputs().round;
    let armed = node.votes().armed;
    let fired = node.inputs().ballot_timeouts;
    write!(text, " round {round} armed {armed} fired {fired}")
}

fn push_phase(text: &mut String, phase: Phase) -> Result<(), AllocError>
    ensures { OnOk result (string_bytes text.new ≡ string_bytes text.old ++ text_of_phase phase) }
{
    match phase {
        Phase::Preparing => text.push_str("prepare"),
        Phase::Committing => text.push_str("commit"),
        Phase::Externalized => text.push_str("externalize"),
    }
}

/// Adds a ballot, or `-` if there is none.
fn push_optional(text: &mut String, ballot: &Option<Ballot>) -> Result<(), AllocError>
    ensures { OnOk result (string_bytes text.new ≡ string_bytes text.old ++ text_of_optional ballot.now) }
{
    match ballot {
        None => text.push('-'),
        Some(ballot) => push_ballot(text, ballot),
    }
}

/// Adds the ballot from which on commits are voted for or, once it is externalized, that of the least counter of the
/// interval.
fn push_commit(text: &mut String, votes: &Votes) -> Result<(), AllocError>
    ensures { OnOk result (string_bytes text.new ≡ string_bytes text.old ++ text_of_commit votes.now.phase votes.now) }
{
    match votes.phase {
        Phase::Preparing | Phase::Committing => push_optional(text, &votes.commit),
        Phase::Externalized => push_with_counter(text, votes.low, &votes.ballot),
    }
}

/// Adds the ballot of a counter and of the value of a ballot, or `-` if there is none.
fn push_with_counter(
    text: &mut String,
    counter: u32,
    ballot: &Option<Ballot>,
) -> Result<(), AllocError>
    ensures { OnOk result (string_bytes text.new ≡ string_bytes text.old ++ text_of_optional (ballot_of_counter counter ballot.now)) }
{
    match ballot {
        None => text.push('-'),
        Some(ballot) => {
            write!(text, "{counter}:")?;
            push_value(text, &ballot.value)
        }
    }
}

/// Adds the interval of counters that is accepted or confirmed as committed; `-` as long as there is none.
fn push_interval(text: &mut String, votes: &Votes) -> Result<(), AllocError>
    ensures { OnOk result (string_bytes text.new ≡ string_bytes text.old ++ text_of_interval votes.now.phase votes.now) }
{
    let low = votes.low;
    let high = votes.high;
    match votes.phase {
        Phase::Preparing => text.push('-'),
        Phase::Committing | Phase::Externalized => write!(text, "{low}-{high}"),
    }
}
