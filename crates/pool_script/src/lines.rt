//! What is printed of the journals of a pool.

ghost use Rattle.std.specs.Prelude.{◌≡◌, ◌++◌, OnOk, length, string_bytes};
ghost use Rattle.std.specs.List.{flat_map};
ghost use Rattle.line_script.specs.Script.{Bytes};
ghost use Rattle.pool_script.specs.PoolLines.{AreDecidedLines, decided_line, length_line, report_line};

use crate::decided::{ExternalizedValue, decided_in};
use host_journal::Journal;
use line_script::{push_name, push_value};
use node_store::Shelf;
use pool_workers::Report;
use std::alloc::{AllocError, Global};
use std::fmt::Write;

/// Adds a line for each node that has externalized at an open slot, ascending by slot and then by name. A line has
/// `decided`, the number of the network, the slot, the name and the value. If it is out of memory, a part may have been
/// added.
pub fn push_decided<S: Shelf>(
    alloc: Global,
    text: &mut String,
    journal: &Journal<S>,
) -> Result<(), AllocError>
    ensures { OnOk result ((lines : Bytes) × AreDecidedLines journal.now lines × (string_bytes text.new ≡ string_bytes text.old ++ lines)) }
{
    let number = journal.config().number();
    let decided = decided_in(alloc, journal)?;
    push_all(text, number, &decided)
}

fn push_all(text: &mut String, number: u32, decided: &[ExternalizedValue]) -> Result<(), AllocError>
    ensures { OnOk result (string_bytes text.new ≡ string_bytes text.old ++ flat_map (decided_line number) decided.now) }
{
    for one in decided {
        push_one(text, number, one)?;
    }
    Ok(())
}

fn push_one(text: &mut String, number: u32, decided: &ExternalizedValue) -> Result<(), AllocError>
    ensures { OnOk result (string_bytes text.new ≡ string_bytes text.old ++ decided_line number decided.now) }
{
    let slot = decided.slot;
    write!(text, "decided {number} {slot} ")?;
    push_name(text, &decided.node)?;
    text.push(' ')?;
    push_value(text, &decided.value)?;
    text.push('\n')
}

/// Adds the line of a journal: `journal`, the number of its network, and how many entries it has. If it is out of
/// memory, a part may have been added.
pub fn push_length<S: Shelf>(text: &mut String, journal: &Journal<S>) -> Result<(), AllocError>
    ensures { OnOk result (string_bytes text.new ≡ string_bytes text.old ++ length_line journal.now.config.number (length journal.now.entries)) }
{
    let number = journal.config().number();
    let entries = journal.len();
    write!(text, "journal {number} {entries}\n")
}

/// Adds the line of how many jobs were applied, refused and not run. If it is out of memory, a part may have been
/// added.
pub fn push_report(text: &mut String, report: Report) -> Result<(), AllocError>
    ensures { OnOk result (string_bytes text.new ≡ string_bytes text.old ++ report_line report.applied report.refused report.unrun) }
{
    let Report {
        applied,
        refused,
        unrun,
    } = report;
    write!(text, "applied {applied} refused {refused} unrun {unrun}\n")
}
