//! The line of a slot that has settled.

ghost use Rattle.std.specs.Prelude.{◌≡◌, ◌++◌, OnOk, option_map, string_bytes};
ghost use Rattle.scp_spec.specs.Runs.{state_of};
ghost use Rattle.line_run.specs.SettledLines.{text_of_decided, text_of_decider, text_of_deciders};

use host_config::HostedNode;
use host_journal::{Journal, Keeping};
use line_script::{push_name, push_value};
use node_store::BoxShelf;
use scp_types::Value;
use std::alloc::AllocError;

/// Adds for each of these nodes, in order, ` NAME=VALUE` with what it has externalized at a slot, or ` NAME=-`.
pub(crate) fn push_deciders<K: Keeping>(
    text: &mut String,
    journal: &Journal<BoxShelf, K>,
    slot: u64,
    nodes: &[HostedNode],
) -> Result<(), AllocError>
    ensures { OnOk result (string_bytes text.new ≡ string_bytes text.old ++ text_of_deciders (state_of journal.now.config journal.now.entries) slot nodes.now) }
{
    for hosted in nodes {
        push_decider(text, journal, slot, hosted)?;
    }
    Ok(())
}

/// Adds a space, the name of a hosted node, `=`, and what it has externalized at a slot, or `-`.
fn push_decider<K: Keeping>(
    text: &mut String,
    journal: &Journal<BoxShelf, K>,
    slot: u64,
    hosted: &HostedNode,
) -> Result<(), AllocError>
    ensures { OnOk result (string_bytes text.new ≡ string_bytes text.old ++ text_of_decider (state_of journal.now.config journal.now.entries) slot hosted.now) }
{
    text.push(' ')?;
    push_name(text, hosted.name())?;
    text.push('=')?;
    push_value_or_none(text, journal.externalized(slot, hosted.name()))
}

/// Adds a value, or `-` if there is none.
fn push_value_or_none(text: &mut String, decided: Option<&Value>) -> Result<(), AllocError>
    ensures { OnOk result (string_bytes text.new ≡ string_bytes text.old ++ text_of_decided (option_map (λ v. v.now) decided.entry)) }
{
    match decided {
        None => text.push('-'),
        Some(value) => push_value(text, value),
    }
}
