//! The report of a closure after a script.

ghost use Rattle.std.specs.Prelude.{◌≡◌, IfOk, string_bytes};
ghost use Rattle.host_world.specs.Worlds.{log_at};
ghost use Rattle.line_report.specs.Texts.{text_of_report};
ghost use Rattle.scphost.specs.Reporting.{IsReport, IsReportOf};

use line_report::{ClosureReport, NoNetwork, push_dot, push_svg, push_text, report_of};
use line_run::{Answer, FinishedScript};
use scp_types::Subject;
use scphost_words::Format;
use std::alloc::{AllocError, Global};

/// Whom the subject depends on after a script, in a form. In a network that no line declares that is only the node. An
/// error says that it is out of memory.
pub fn answer_closure(
    alloc: Global,
    script: &FinishedScript,
    subject: &Subject,
    format: Format,
) -> Result<Answer, AllocError>
    ensures { IfOk result (IsReport format subject.now script.now.run.hosting.logs) }
{
    let report = report_after(alloc, script, subject)?;
    let written = format_report(alloc, &report, format);
    drop(report);
    Ok(Answer {
        differs: false,
        text: written?,
    })
}

fn report_after(
    alloc: Global,
    script: &FinishedScript,
    subject: &Subject,
) -> Result<ClosureReport, AllocError>
    ensures { IfOk result (IsReportOf (log_at script.now.run.hosting.logs subject.now.net) subject.now.slot subject.now.node) }
{
    match script.run().world().journal(subject.net) {
        Some(journal) => report_of(alloc, journal, subject.slot, &subject.node),
        None => report_of(alloc, &NoNetwork, subject.slot, &subject.node),
    }
}

fn format_report(
    alloc: Global,
    report: &ClosureReport,
    format: Format,
) -> Result<String, AllocError>
    ensures { IfOk result (λ text. format ≡ Format.Text → string_bytes text ≡ text_of_report report.now) }
{
    let mut text = String::new(alloc);
    match format {
        Format::Text => push_text(&mut text, report),
        Format::Dot => push_dot(&mut text, report),
        Format::Svg => push_svg(alloc, &mut text, report),
    }?;
    Ok(text)
}
