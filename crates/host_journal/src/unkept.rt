//! Entries that only contracts know.

use crate::keeping::Keeping;
use host_config::NetConfig;
use host_network::Network;
use node_core::FiledOut;
use node_store::{Filed, Shelf};
use scp_types::Event;
use std::alloc::{AllocError, Global};
use std::snapshot::Snapshot;

/// Entries that nobody reads again: contracts know them, and they take no bytes.
#[derive(Drop)]
pub struct Unkept {
    entries: Vec<PastEntry>,
}

/// An applied event and what it gave out, as contracts know them. It takes no bytes.
#[derive(Drop)]
pub(crate) struct PastEntry {
    event: Snapshot<Event>,
    outs: Snapshot<Vec<FiledOut>>,
}

impl Keeping for Unkept {
    ghost use Rattle.std.specs.Prelude.{◌<◌, map, vec_capacity, vec_len, ⊤};
    ghost use Rattle.host_journal.specs.Past.{past_entry};

    ghost entries = { λ k. map past_entry k.entries.items };

    ghost is_kept = { λ nodes archive k. ⊤ };

    ghost has_room = { λ e k. vec_len k.entries < vec_capacity k.entries };

    ghost stay = { λ nodes old new k keeps kept. tt };

    fn nothing(alloc: Global) -> Unkept {
        Unkept {
            entries: Vec::new(alloc),
        }
    }

    fn make_room(&mut self, _alloc: Global, _event: &Event) -> Result<(), AllocError> {
        self.entries.reserve(1)
    }

    fn enter(
        &mut self,
        _config: &NetConfig,
        event: Event,
        filed: Vec<FiledOut>,
        delivered: Option<Filed>,
    ) {
        let entry = PastEntry {
            event: Snapshot::of(&event),
            outs: Snapshot::of(&filed),
        };
        drop(event);
        drop(filed);
        drop(delivered);
        self.entries.push_reserved(entry);
    }

    fn tidy<S: Shelf>(&self, network: &mut Network<S>) {
        network.forget_unheld();
    }
}
