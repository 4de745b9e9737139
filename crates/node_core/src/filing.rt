//! What a node gives out is filed.
//!
//! An error of a function here says that it is out of memory, or that a value or slices have too many owners.

ghost use Rattle.std.specs.Prelude.{[], ◌≡◌, IfOk, List};
ghost use Rattle.node_store.specs.Archives.{Keeps};
ghost use Rattle.scp_spec.specs.Nodes.{outs};
ghost use Rattle.node_core.specs.Filings.{AreFiledOuts, IsFiledOut, out_of, whole_outs};
ghost use Rattle.node_core.specs.NodeParts.{SendWellFormed, node_from_parts};
ghost use Rattle.scp_types.specs.Statements.{Sent};

use crate::answering::State;
use crate::filed::{FiledOut, GivenOut};
use crate::outs::outs;
use node_store::{Archive, Shelf};
use node_view::Configured;
use scp_types::Out;
use std::alloc::{AllocError, Global};

/// Copies of the outs, each emitted envelope filed. After an error some envelopes may be filed.
fn file_all<S: Shelf>(
    alloc: Global,
    archive: &mut Archive<S>,
    outs: &[Out],
) -> Result<Vec<FiledOut>, AllocError>
    ensures outs { IfOk result (λ v. whole_outs v.items ≡ outs.now) }
    ensures filed { IfOk result (λ v. AreFiledOuts archive.new v.items) }
    ensures kept { Keeps archive.old archive.new }
{
    let mut filed = Vec::with_capacity(alloc, outs.len())?;
    for out in outs {
        filed.push(file(alloc, archive, out)?)?;
    }
    Ok(filed)
}

/// A copy of the out, its envelope filed if it emits one.
fn file<S: Shelf>(
    alloc: Global,
    archive: &mut Archive<S>,
    out: &Out,
) -> Result<FiledOut, AllocError>
    ensures out { IfOk result (λ o. out_of o ≡ out.now) }
    ensures filed { IfOk result (λ o. IsFiledOut archive.new o) }
    ensures kept { Keeps archive.old archive.new }
{
    match out {
        Out::ArmNomination(round) => Ok(FiledOut::ArmNomination(*round)),
        Out::ArmBallot(counter) => Ok(FiledOut::ArmBallot(*counter)),
        Out::Emit(envelope) => {
            let copy = envelope.try_copy(alloc)?;
            // A law of its type: it keeps its widths and its rules.
            let _sender = copy.sender();
            Ok(FiledOut::Emit(archive.put(copy)?))
        }
        Out::Externalized(value) => Ok(FiledOut::Externalized(value.try_copy()?)),
    }
}

/// What is given out if an event led from one state to another, whole, and with each emitted envelope filed. After an
/// error some envelopes may be filed.
pub(crate) fn give_out<S: Shelf>(
    alloc: Global,
    archive: &mut Archive<S>,
    configured: &Configured,
    old: &State<'_>,
    new: &State<'_>,
) -> Result<GivenOut, AllocError>
    requires { SendWellFormed new.now.votes.now }
    ensures outs { IfOk result (λ v. (before after : List Sent) → v.outs.items ≡ outs (node_from_parts configured.now old.now.inputs.now old.now.votes.now before) (node_from_parts configured.now new.now.inputs.now new.now.votes.now after)) }
    ensures whole { IfOk result (λ v. whole_outs v.filed.items ≡ v.outs.items) }
    ensures filed { IfOk result (λ v. AreFiledOuts archive.new v.filed.items) }
    ensures kept { Keeps archive.old archive.new }
{
    let outs = outs(alloc, configured, old, new)?;
    let filed = file_all(alloc, archive, &outs)?;
    Ok(GivenOut { filed, outs })
}

/// Nothing is given out. It takes no memory.
pub(crate) fn nothing(alloc: Global) -> GivenOut
    ensures filed { result.filed.items ≡ [] }
    ensures outs { result.outs.items ≡ [] }
{
    GivenOut {
        filed: Vec::new(alloc),
        outs: Vec::new(alloc),
    }
}
