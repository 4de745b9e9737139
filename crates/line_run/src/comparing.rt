//! Two scripts side by side.

ghost use Rattle.std.specs.Prelude.{◌≡◌, ◌++◌, ◌∷◌, ◌&&◌, [], IfOk, OnOk, codes, string_bytes};
ghost use Rattle.std.specs.List.{flat_map};
ghost use Rattle.line_script.specs.Names.{text_of_name};
ghost use Rattle.line_run.specs.Comparisons.{IsComparison, IsExplained, is_difference, line_of_member, text_of_verdict};

use crate::answer::Answer;
use crate::explaining::{push_nodes, push_steps};
use crate::finished_script::FinishedScript;
use host_compare::{MemberOuts, Verdict, compare};
use line_request::push_outs;
use line_script::push_name;
use scp_types::{NodeId, Subject};
use std::alloc::{AllocError, Global};

/// A script that has been run, and the name of its file.
#[derive(Clone, Copy)]
pub struct Side<'a> {
    /// The name of the file.
    pub file: &'a str,
    /// What became of the networks.
    pub script: &'a FinishedScript,
}

/// Two scripts that have been run.
#[derive(Clone, Copy)]
pub struct Sides<'a> {
    /// The first one.
    pub one: Side<'a>,
    /// The second one.
    pub other: Side<'a>,
}

/// Compares what concerns the subject in two scripts; if `explain` asks for it, a difference is explained. An error
/// says that it is out of memory.
///
/// The journals of the scripts are those of two histories of hosts, between which the verdict is right. Let both host
/// the members of the closure of the node alike, and let the steps that concern them be the same in order. Then each
/// hosted member gives out the same in both.
pub fn answer_compare(
    alloc: Global,
    sides: &Sides<'_>,
    subject: &Subject,
    explain: bool,
) -> Result<Answer, AllocError>
    ensures { IfOk result (IsComparison sides.now.one.script.now.run.hosting.logs sides.now.other.script.now.run.hosting.logs subject.now.net subject.now.slot subject.now.node explain) }
{
    let one = sides.one.script.run().world();
    let other = sides.other.script.run().world();
    let verdict = compare(alloc, one, other, subject)?;
    let text = text_of_comparison(alloc, sides, subject, explain, &verdict)?;
    let differs = is_difference(&verdict);
    Ok(Answer { differs, text })
}

fn is_difference(verdict: &Verdict) -> bool
    ensures { result ≡ is_difference verdict.now }
{
    match verdict {
        Verdict::CastDiffers(_) | Verdict::InputsDiffer(_) => true,
        Verdict::Same(_) => false,
    }
}

/// The lines of a verdict, and behind them what explains a difference, if it is asked for.
#[tactic(auto, using(crate::proofs::ExplainedTexts::with_explanation, crate::proofs::ExplainedTexts::without_explanation))]
fn text_of_comparison(
    alloc: Global,
    sides: &Sides<'_>,
    subject: &Subject,
    explain: bool,
    verdict: &Verdict,
) -> Result<String, AllocError>
    ensures { IfOk result (λ text. IsExplained explain verdict.now (string_bytes text)) }
{
    let mut text = text_of_verdict(alloc, verdict)?;
    if explain && is_difference(verdict) {
        let explanation = explanation_of(alloc, sides, subject, verdict)?;
        text.push_str(explanation.as_str())?;
    }
    Ok(text)
}

/// Both sides of a difference.
fn explanation_of(
    alloc: Global,
    sides: &Sides<'_>,
    subject: &Subject,
    verdict: &Verdict,
) -> Result<String, AllocError> {
    let mut text = String::new(alloc);
    match verdict {
        Verdict::Same(_) => {}
        Verdict::CastDiffers(node) => push_nodes(&mut text, sides, subject.net, node)?,
        Verdict::InputsDiffer(place) => push_steps(alloc, &mut text, sides, subject, *place)?,
    }
    Ok(text)
}

fn text_of_verdict(alloc: Global, verdict: &Verdict) -> Result<String, AllocError>
    ensures { IfOk result (λ text. string_bytes text ≡ text_of_verdict verdict.now) }
{
    match verdict {
        Verdict::CastDiffers(node) => text_of_cast_difference(alloc, node),
        Verdict::InputsDiffer(place) => format!(in alloc; "inputs differ at {place}\n"),
        Verdict::Same(members) => text_of_same_outs(alloc, members.as_slice()),
    }
}

/// Nothing differs: what each hosted member gave out.
fn text_of_same_outs(alloc: Global, members: &[MemberOuts]) -> Result<String, AllocError>
    ensures { IfOk result (λ text. string_bytes text ≡ codes "same" ++ 10 ∷ flat_map line_of_member members.now) }
{
    let mut text = String::from_str(alloc, "same\n")?;
    push_members(&mut text, members)?;
    Ok(text)
}

fn push_members(text: &mut String, members: &[MemberOuts]) -> Result<(), AllocError>
    ensures { OnOk result (string_bytes text.new ≡ string_bytes text.old ++ flat_map line_of_member members.now) }
{
    for member in members {
        push_member(text, member)?;
    }
    Ok(())
}

fn push_member(text: &mut String, member: &MemberOuts) -> Result<(), AllocError>
    ensures { OnOk result (string_bytes text.new ≡ string_bytes text.old ++ line_of_member member.now) }
{
    push_name(text, member.name())?;
    push_outs(text, member.outs())?;
    text.push('\n')?;
    Ok(())
}

/// A node is hosted in only one of them, or with other slices.
fn text_of_cast_difference(alloc: Global, node: &NodeId) -> Result<String, AllocError>
    ensures { IfOk result (λ text. string_bytes text ≡ codes "cast differs at " ++ (text_of_name node.now ++ 10 ∷ [])) }
{
    let mut text = String::from_str(alloc, "cast differs at ")?;
    push_name(&mut text, node)?;
    text.push('\n')?;
    Ok(text)
}
