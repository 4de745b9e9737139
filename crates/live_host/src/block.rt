//! What is printed of a line. If it is out of memory, a part may have been added.

ghost use Rattle.std.specs.Prelude.{◌≡◌, ◌++◌, OnOk, codes, map, string_bytes};
ghost use Rattle.std.specs.List.{flat_map};
ghost use Rattle.scp_codec.specs.Spelling.{spelling};
ghost use Rattle.hex.specs.Hex.{encode_lower};
ghost use Rattle.scp_spec.specs.Networks.Reply.{Refused};
ghost use Rattle.live_network.specs.Telling.{ending_of, reply_of_step, telling_of, tellings_of};
ghost use Rattle.live_host.specs.Blocks.{behind_space_as, block_of, closing_line, closing_of, front_of_line, line_of_telling, text_of_closing, text_of_out_as, text_of_reply};

use line_request::{push_out, push_refusal};
use line_script::push_name;
use live_network::{Served, Told};
use scp_codec::encode;
use scp_types::{Envelope, NodeId, Out, Refusal};
use std::alloc::AllocError;

/// How the answer to a line ends.
#[derive(Clone, Copy)]
pub(crate) enum Closing {
    /// `ok`: it was taken.
    Taken,
    /// `stale`: it was applied, and nothing changed.
    Stale,
    /// `refused`: it was refused, for this reason.
    Refused(Refusal),
    /// `bad`: it is no line of a live host, or asks for what is not allowed.
    Bad,
}

/// Where an event was served: the number of the line, and of the network; and whether envelopes are printed as bytes.
#[derive(Clone, Copy)]
pub(crate) struct Place {
    pub line: u64,
    pub network: u32,
    pub bytes: bool,
}

/// Adds the block of an event of a network.
pub(crate) fn push_served(
    text: &mut String,
    place: Place,
    served: &Served,
) -> Result<(), AllocError>
    ensures { OnOk result (string_bytes text.new ≡ string_bytes text.old ++ block_of place.bytes place.line place.network served.now.slot (tellings_of served.now.told.items) (ending_of served.now)) }
{
    push_told(text, place, served.slot, &served.told)?;
    push_closing(text, place.line, ending(served))
}

/// How the answer to an event ends.
pub(crate) fn ending(served: &Served) -> Closing
    ensures { result ≡ closing_of (ending_of served.now) }
{
    match served.refused {
        Some(refusal) => Closing::Refused(refusal),
        None if served.stale => Closing::Stale,
        None => Closing::Taken,
    }
}

/// Adds a line for each step that was told.
pub(crate) fn push_told(
    text: &mut String,
    place: Place,
    slot: u64,
    told: &[Told],
) -> Result<(), AllocError>
    ensures { OnOk result (string_bytes text.new ≡ string_bytes text.old ++ flat_map (line_of_telling place.bytes place.line place.network slot) (tellings_of told.now)) }
{
    for one in told {
        push_one(text, place, slot, one)?;
    }
    Ok(())
}

/// Adds the line of a node that was refused.
pub(crate) fn push_refused(
    text: &mut String,
    place: Place,
    slot: u64,
    node: &NodeId,
    refusal: Refusal,
) -> Result<(), AllocError>
    ensures { OnOk result (string_bytes text.new ≡ string_bytes text.old ++ line_of_telling place.bytes place.line place.network slot (record { node = node.now; reply = Refused refusal })) }
{
    push_front(text, place, slot, node)?;
    text.push(' ')?;
    push_refusal(text, refusal)?;
    text.push('\n')
}

/// Adds what a line on a step of a node begins with.
fn push_front(text: &mut String, place: Place, slot: u64, node: &NodeId) -> Result<(), AllocError>
    ensures { OnOk result (string_bytes text.new ≡ string_bytes text.old ++ front_of_line place.line place.network slot node.now) }
{
    let Place { line, network, .. } = place;
    write!(text, "{line} {network} {slot} ")?;
    push_name(text, node)
}

/// Adds the line of a step that was told.
fn push_one(text: &mut String, place: Place, slot: u64, told: &Told) -> Result<(), AllocError>
    ensures { OnOk result (string_bytes text.new ≡ string_bytes text.old ++ line_of_telling place.bytes place.line place.network slot (telling_of told.now)) }
{
    push_front(text, place, slot, &told.node)?;
    push_reply(text, place.bytes, &told.answer)?;
    text.push('\n')
}

/// Adds what a step gave out, or why it was refused, behind a space.
fn push_reply(
    text: &mut String,
    bytes: bool,
    answer: &Result<Vec<Out>, Refusal>,
) -> Result<(), AllocError>
    ensures { OnOk result (string_bytes text.new ≡ string_bytes text.old ++ text_of_reply bytes (reply_of_step answer.now)) }
{
    match answer {
        Ok(outs) => push_outs_as(text, bytes, outs),
        Err(refusal) => {
            text.push(' ')?;
            push_refusal(text, *refusal)
        }
    }
}

/// Adds what is given out, a space before each.
fn push_outs_as(text: &mut String, bytes: bool, outs: &[Out]) -> Result<(), AllocError>
    ensures { OnOk result (string_bytes text.new ≡ string_bytes text.old ++ flat_map (behind_space_as bytes) outs.now) }
{
    for out in outs {
        text.push(' ')?;
        push_out_as(text, bytes, out)?;
    }
    Ok(())
}

/// Adds what is given out, an envelope as its bytes if that is asked for.
fn push_out_as(text: &mut String, bytes: bool, out: &Out) -> Result<(), AllocError>
    ensures { OnOk result (string_bytes text.new ≡ string_bytes text.old ++ text_of_out_as bytes out.now) }
{
    match out {
        Out::Emit(envelope) if bytes => push_spelling(text, envelope),
        _ => push_out(text, out),
    }
}

/// Adds that an envelope is emitted, as its bytes in lower-case hexadecimal.
fn push_spelling(text: &mut String, envelope: &Envelope) -> Result<(), AllocError>
    ensures { OnOk result (string_bytes text.new ≡ string_bytes text.old ++ (codes "emit " ++ encode_lower (spelling envelope.now))) }
{
    let alloc = *text.allocator();
    let spelled = encode(alloc, envelope)?;
    let digits = hex::encode(alloc, spelled)?;
    text.push_str("emit ")?;
    text.push_str(digits.as_str())
}

/// Adds the line that closes a block.
pub(crate) fn push_closing(text: &mut String, line: u64, closing: Closing) -> Result<(), AllocError>
    ensures { OnOk result (string_bytes text.new ≡ string_bytes text.old ++ closing_line line closing) }
{
    write!(text, "{line} ")?;
    push_word(text, closing)?;
    text.push('\n')
}

/// Adds how the answer to a line ends.
fn push_word(text: &mut String, closing: Closing) -> Result<(), AllocError>
    ensures { OnOk result (string_bytes text.new ≡ string_bytes text.old ++ text_of_closing closing) }
{
    match closing {
        Closing::Taken => text.push_str("ok"),
        Closing::Stale => text.push_str("stale"),
        Closing::Refused(refusal) => push_refusal(text, refusal),
        Closing::Bad => text.push_str("bad"),
    }
}
