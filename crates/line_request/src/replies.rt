//! What is printed of the answer to an event.

ghost use Rattle.std.specs.Prelude.{◌≡◌, ◌++◌, IfOk, OnOk, codes, string_bytes};
ghost use Rattle.std.specs.List.{flat_map};
ghost use Rattle.line_request.specs.Replies.{behind_space, refusal_text, text_of_out};

use crate::refusals::{name_of, number_of};
use line_script::{push_statement, push_value};
use scp_types::{Out, Refusal};
use std::alloc::{AllocError, Global};

/// The line of what an event gives out.
pub fn line_of_outs(alloc: Global, outs: &[Out]) -> Result<String, AllocError>
    ensures { IfOk result (λ text. string_bytes text ≡ codes "ok" ++ flat_map behind_space outs.now) }
{
    let mut text = String::from_str(alloc, "ok")?;
    push_outs(&mut text, outs)?;
    Ok(text)
}

/// Adds what is given out, with a space before each. If it is out of memory, a part may have been added.
pub fn push_outs(text: &mut String, outs: &[Out]) -> Result<(), AllocError>
    ensures { OnOk result (string_bytes text.new ≡ string_bytes text.old ++ flat_map behind_space outs.now) }
{
    for out in outs {
        text.push(' ')?;
        push_out(text, out)?;
    }
    Ok(())
}

/// Adds what is given out. If it is out of memory, a part may have been added.
pub fn push_out(text: &mut String, out: &Out) -> Result<(), AllocError>
    ensures { OnOk result (string_bytes text.new ≡ string_bytes text.old ++ text_of_out out.now) }
{
    match out {
        Out::ArmNomination(round) => write!(text, "arm-nomination {round}"),
        Out::ArmBallot(counter) => write!(text, "arm-ballot {counter}"),
        Out::Emit(envelope) => {
            text.push_str("emit ")?;
            push_statement(text, envelope.body())
        }
        Out::Externalized(value) => {
            text.push_str("externalized ")?;
            push_value(text, value)
        }
    }
}

/// The line of a refusal: `refused`, its number, its name, and the number of the fault if bytes are no envelope.
pub fn line_of_refusal(alloc: Global, refusal: Refusal) -> Result<String, AllocError>
    ensures { IfOk result (λ text. string_bytes text ≡ refusal_text refusal) }
{
    let mut text = String::new(alloc);
    push_refusal(&mut text, refusal)?;
    Ok(text)
}

/// Adds the line of a refusal. If it is out of memory, a part may have been added.
pub fn push_refusal(text: &mut String, refusal: Refusal) -> Result<(), AllocError>
    ensures { OnOk result (string_bytes text.new ≡ string_bytes text.old ++ refusal_text refusal) }
{
    let number = number_of(refusal);
    let name = name_of(refusal);
    match refusal {
        Refusal::BadEnvelope(fault) => write!(text, "refused {number} {name} {fault}"),
        _ => write!(text, "refused {number} {name}"),
    }
}
