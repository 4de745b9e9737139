//! Entries that can be read again.

use crate::event_room::EventRoom;
use crate::keeping::Keeping;
use crate::kept::{StoredEntry, kept_event, near_last};
use crate::outs_list::{EntryOuts, KeptOuts};
use host_config::NetConfig;
use host_network::Network;
use node_core::FiledOut;
use node_store::{Filed, Shelf};
use scp_types::Event;
use std::alloc::{AllocError, Global};

/// Entries that are kept to be read again, in sixteen bytes each. Their envelopes stay in the archive of the network.
#[derive(Drop)]
pub struct Kept {
    pub(crate) entries: Vec<StoredEntry>,
    /// What was given out, a list for each entry that gave anything out, ascending by entry.
    pub(crate) given: Vec<EntryOuts>,
    room: EventRoom,
}

impl Keeping for Kept {
    ghost use Rattle.std.specs.Prelude.{◌<◌, map, vec_capacity, vec_len};
    ghost use Rattle.host_journal.specs.Boxing.{HasBoxFor};
    ghost use Rattle.host_journal.specs.Keeping.{AreKept, entry_of};
    ghost use Rattle.host_journal.specs.KeptStay.{kept-stay};

    ghost entries = { λ k. map entry_of k.entries.items };

    ghost is_kept = { λ nodes archive k. AreKept nodes archive k.given.items k.entries.items };

    ghost has_room = { λ e k. (vec_len k.entries < vec_capacity k.entries) × (vec_len k.given < vec_capacity k.given) × HasBoxFor e k.room };

    ghost stay = { λ nodes old new k. kept-stay nodes old new k.given.items k.entries.items };

    fn nothing(alloc: Global) -> Kept {
        Kept {
            entries: Vec::new(alloc),
            given: Vec::new(alloc),
            room: EventRoom::nothing(),
        }
    }

    fn make_room(&mut self, alloc: Global, event: &Event) -> Result<(), AllocError> {
        self.entries.reserve(1)?;
        self.given.reserve(1)?;
        self.room.make(alloc, event)
    }

    fn enter(
        &mut self,
        config: &NetConfig,
        event: Event,
        filed: Vec<FiledOut>,
        delivered: Option<Filed>,
    ) {
        let near = near_last(&self.entries);
        let event = kept_event(config, near, &mut self.room, event, delivered);
        let outs = KeptOuts::put(&mut self.given, self.entries.len(), filed);
        self.entries.push_reserved(StoredEntry { event, outs });
    }

    /// All that was given out may be read again, at closed slots too, so nothing is let go.
    fn tidy<S: Shelf>(&self, network: &mut Network<S>) {
        let _ = network;
    }
}
