//! Entries of a journal as they are kept, in places of its archive.
//!
//! An error of a function here says that it is out of memory, or that a value or slices have too many owners.

ghost use Rattle.std.specs.Prelude.{◌≡◌, ◌++◌, IfOk, IfSome, List, OnErr, OnOk, false, length, option_map, slice_get, take};
ghost use Rattle.scp_codec.specs.Steps.{IsBytes};
ghost use Rattle.node_store.specs.Archives.{Archived, IsFiled, sent_of};
ghost use Rattle.scp_spec.specs.Networks.{HostedNode};
ghost use Rattle.scp_spec.specs.Networks.Reading.{Read};
ghost use Rattle.scp_spec.specs.Networks.Step.{Delivers};
ghost use Rattle.node_core.specs.Filings.{AreFiledOuts, IsFiledOut, out_of, whole_outs};
ghost use Rattle.host_network.specs.Answers.{delivered_of};
ghost use Rattle.host_network.specs.Decoding.{reading, step_of};
ghost use Rattle.host_journal.specs.Hosting.{IsNodePlace, NamesNodes, node_name};
ghost use Rattle.host_journal.specs.Boxing.{HasBoxFor, is_large, is_wide};
ghost use Rattle.host_journal.specs.Keeping.{AreKept, IsLentEntry, IsKeptEvent, IsReadable, entry_of, lent_entry, spelled_size, step_in};

use crate::event_room::{EventRoom, is_large};
use crate::node_place::NodePlace;
use crate::outs_list::{EntryOuts, KeptOuts, outs_of_entry};
use host_config::NetConfig;
use host_network::Network;
use node_core::FiledOut;
use node_store::{Filed, Shelf};
use scp_codec::encode;
use scp_types::{Bytes, Event, Kind, Out};
use std::alloc::{AllocError, Global};

/// An applied event, as it is kept, in sixteen bytes. What was delivered lies in the archive of the network, and a
/// large event lies in a box. Nodes are named by their places among the hosted ones. Small fields come first, since
/// fields lie as they are written here.
#[derive(Drop)]
pub(crate) enum KeptEvent {
    /// The slot was opened.
    OpenSlot {
        slot: u64,
    },
    /// The slot was closed.
    CloseSlot {
        slot: u64,
    },
    /// The envelope that the bytes were, and how many they were.
    Deliver {
        node: NodePlace,
        size: u32,
        envelope: Filed,
    },
    /// A hosted node heard an emission of another one, named by its kind and number; neither the number nor the slot is
    /// wide.
    Hear {
        node: NodePlace,
        from: NodePlace,
        kind: Kind,
        slot: u32,
        number: u32,
    },
    /// The nomination timer of this round fired.
    NominationTimer {
        node: NodePlace,
        round: u32,
        slot: u64,
    },
    /// The ballot timer for this counter fired.
    BallotTimer {
        node: NodePlace,
        counter: u32,
        slot: u64,
    },
    /// A proposal, new slices, or a hearing with a wide number, as it came.
    Large(Box<Event>),
}

/// An applied event, and in contracts what it gave out.
#[derive(Drop)]
pub(crate) struct StoredEntry {
    pub event: KeptEvent,
    pub outs: KeptOuts,
}

/// An entry of a journal, read in place.
#[derive(Clone, Copy)]
pub(crate) struct LentEntry<'a> {
    pub event: &'a KeptEvent,
    pub outs: &'a [FiledOut],
}

/// Where the nodes of the next event are looked for first: its node, and if it is a hearing, who is heard. They need
/// not stand there.
#[derive(Clone, Copy)]
pub(crate) struct Near {
    node: usize,
    from: usize,
}

/// Behind the node that heard last, and at the one that it heard, since nodes hear an emission in their order.
pub(crate) fn near_last(entries: &[StoredEntry]) -> Near {
    match entries.last() {
        Some(last) => match &last.event {
            KeptEvent::Hear { node, from, .. } => Near {
                node: node.at().saturating_add(1),
                from: from.at(),
            },
            _ => Near { node: 0, from: 0 },
        },
        None => Near { node: 0, from: 0 },
    }
}

/// The entry of this number, read in place; `None` past the last. It takes no memory.
pub(crate) fn entry_at<'a, S: Shelf>(
    network: &Network<S>,
    lists: &'a Vec<EntryOuts>,
    entries: &'a Vec<StoredEntry>,
    number: usize,
) -> Option<LentEntry<'a>>
    requires { AreKept network.now.config.nodes network.now.archive lists.now.items entries.now.items }
    ensures at { option_map lent_entry result ≡ option_map entry_of (slice_get entries.now.items number) }
    ensures kept { IfSome result (IsLentEntry network.now.config.nodes network.now.archive) }
{
    match entries.get(number) {
        None => None,
        Some(kept) => Some(LentEntry {
            event: &kept.event,
            outs: outs_of_entry(lists, number),
        }),
    }
}

/// An event as it is kept, a large one in the box that was made for it. The place of the filed envelope stands for the
/// bytes of a delivery. It takes no memory. Wherever its nodes are looked for first, the answer is the same.
pub(crate) fn kept_event(
    config: &NetConfig,
    near: Near,
    room: &mut EventRoom,
    event: Event,
    delivered: Option<Filed>,
) -> KeptEvent
    requires room { HasBoxFor event room.old }
    requires hosted { NamesNodes config.now.nodes (step_of event) }
    requires delivered { option_map sent_of delivered ≡ delivered_of (step_of event) }
    requires readable { IsReadable (step_of event) }
    ensures step { step_in result ≡ step_of event }
    ensures filed { (archive : Archived) → IfSome delivered (IsFiled archive) → IsKeptEvent config.now.nodes archive result }
{
    if is_large(&event) {
        return KeptEvent::Large(room.fill(event));
    }
    let kept = kept_small(config, near, &event, delivered);
    drop(event);
    kept
}

fn kept_small(config: &NetConfig, near: Near, event: &Event, delivered: Option<Filed>) -> KeptEvent
    requires small { is_large event.now ≡ false }
    requires hosted { NamesNodes config.now.nodes (step_of event.now) }
    requires delivered { option_map sent_of delivered ≡ delivered_of (step_of event.now) }
    requires readable { IsReadable (step_of event.now) }
    ensures step { step_in result ≡ step_of event.now }
    ensures filed { (archive : Archived) → IfSome delivered (IsFiled archive) → IsKeptEvent config.now.nodes archive result }
{
    match event {
        Event::OpenSlot { slot } => KeptEvent::OpenSlot { slot: *slot },
        Event::CloseSlot { slot } => KeptEvent::CloseSlot { slot: *slot },
        Event::Deliver { node, bytes } => {
            kept_delivery(NodePlace::of(config, near.node, node), bytes, delivered)
        }
        Event::Hear {
            slot,
            node,
            from,
            kind,
            number,
        } => KeptEvent::Hear {
            node: NodePlace::of(config, near.node, node),
            from: NodePlace::of(config, near.from, from),
            kind: *kind,
            slot: narrow(*slot),
            number: narrow(*number),
        },
        Event::NominationTimer { slot, node, round } => KeptEvent::NominationTimer {
            node: NodePlace::of(config, near.node, node),
            round: *round,
            slot: *slot,
        },
        Event::BallotTimer {
            slot,
            node,
            counter,
        } => KeptEvent::BallotTimer {
            node: NodePlace::of(config, near.node, node),
            counter: *counter,
            slot: *slot,
        },
        Event::Propose { .. } | Event::Reslice { .. } => unreachable!(),
    }
}

/// A delivery as it is kept, of bytes that are an envelope.
fn kept_delivery(node: NodePlace, bytes: &Bytes, delivered: Option<Filed>) -> KeptEvent
    requires delivered { option_map sent_of delivered ≡ delivered_of (Delivers (node_name node) (length bytes.now) (reading bytes.now)) }
    requires readable { IsReadable (Delivers (node_name node) (length bytes.now) (reading bytes.now)) }
    ensures step { step_in result ≡ Delivers (node_name node) (length bytes.now) (reading bytes.now) }
    ensures filed { (nodes : List HostedNode) (archive : Archived) → IsNodePlace nodes node → IfSome delivered (IsFiled archive) → IsKeptEvent nodes archive result }
{
    let Some(envelope) = delivered else {
        unreachable!()
    };
    let size = narrow(count_bytes(bytes.as_slice()));
    KeptEvent::Deliver {
        node,
        size,
        envelope,
    }
}

fn count_bytes(bytes: &[u8]) -> u64
    ensures count { result ≡ length bytes.now }
    ensures bytes { IsBytes bytes.now }
{
    bytes.len() as u64
}

fn narrow(number: u64) -> u32
    requires { is_wide number ≡ false }
    ensures { result ≡ number }
{
    number as u32
}

/// The event as it came. A delivery has its bytes, since they are the one spelling of its envelope.
pub(crate) fn whole_event<S: Shelf>(
    alloc: Global,
    network: &Network<S>,
    event: &KeptEvent,
) -> Result<Event, AllocError>
    requires { IsKeptEvent network.now.config.nodes network.now.archive event.now }
    ensures { IfOk result (λ e. step_of e ≡ step_in event.now) }
{
    match event {
        KeptEvent::OpenSlot { slot } => Ok(Event::OpenSlot { slot: *slot }),
        KeptEvent::CloseSlot { slot } => Ok(Event::CloseSlot { slot: *slot }),
        KeptEvent::Deliver { node, envelope, .. } => Ok(Event::Deliver {
            node: node.name(network.config()),
            bytes: whole_bytes(alloc, network, envelope)?,
        }),
        KeptEvent::Hear {
            node,
            from,
            kind,
            slot,
            number,
        } => Ok(Event::Hear {
            slot: *slot as u64,
            node: node.name(network.config()),
            from: from.name(network.config()),
            kind: *kind,
            number: *number as u64,
        }),
        KeptEvent::NominationTimer { node, round, slot } => Ok(Event::NominationTimer {
            slot: *slot,
            node: node.name(network.config()),
            round: *round,
        }),
        KeptEvent::BallotTimer {
            node,
            counter,
            slot,
        } => Ok(Event::BallotTimer {
            slot: *slot,
            node: node.name(network.config()),
            counter: *counter,
        }),
        KeptEvent::Large(event) => event.try_copy(alloc),
    }
}

/// The bytes of an envelope that was filed.
fn whole_bytes<S: Shelf>(
    alloc: Global,
    network: &Network<S>,
    envelope: &Filed,
) -> Result<Bytes, AllocError>
    requires { IsFiled network.now.archive envelope.now }
    ensures count { IfOk result (λ b. length b ≡ spelled_size (sent_of envelope.now)) }
    ensures says { IfOk result (λ b. reading b ≡ Read (sent_of envelope.now)) }
{
    let bytes = encode(alloc, network.read(envelope))?;
    Ok(Bytes::new(bytes))
}

/// Appends what was given out, with whole envelopes. After an error, what was there still stands in front of what was
/// appended.
pub(crate) fn push_whole_outs<S: Shelf>(
    alloc: Global,
    network: &Network<S>,
    outs: &[FiledOut],
    whole: &mut Vec<Out>,
) -> Result<(), AllocError>
    requires { AreFiledOuts network.now.archive outs.now }
    ensures ok { OnOk result (whole.new.items ≡ whole.old.items ++ whole_outs outs.now) }
    ensures err { OnErr result (take (length whole.old.items) whole.new.items ≡ whole.old.items) }
{
    for out in outs {
        whole.push(whole_out(alloc, network, out)?)?;
    }
    Ok(())
}

fn whole_out<S: Shelf>(
    alloc: Global,
    network: &Network<S>,
    out: &FiledOut,
) -> Result<Out, AllocError>
    requires { IsFiledOut network.now.archive out.now }
    ensures { IfOk result (λ o. o ≡ out_of out.now) }
{
    match out {
        FiledOut::ArmNomination(round) => Ok(Out::ArmNomination(*round)),
        FiledOut::ArmBallot(counter) => Ok(Out::ArmBallot(*counter)),
        FiledOut::Emit(envelope) => Ok(Out::Emit(network.read(envelope).try_copy(alloc)?)),
        FiledOut::Externalized(value) => Ok(Out::Externalized(value.try_copy()?)),
    }
}
