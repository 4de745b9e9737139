//! A cell: one network under its lock.

use crate::rule::Lock;
use host_config::NetConfig;
use node_store::Shelf;
use std::marker::Model;
use std::sync::Wait;

pub mod acts;

/// One network under its lock. Threads use it by its seats.
///
/// Contracts see which cell it is, the configuration of its network, and how many seats it has.
///
/// Its lock has one place, and it has one seat at least. If it has two, the thread of the one may have to wait while
/// that of the other applies an event.
#[derive(Drop)]
pub struct Cell<S: Shelf, H: Wait + Drop> {
    lock: Lock<S, H>,
    config: NetConfig,
    seats: u64,
}

impl<S: Shelf, H: Wait + Drop> Model for Cell<S, H> {
    ghost use Rattle.std.specs.Prelude.{◌≡◌, ◌<◌};
    ghost use Rattle.std.specs.Coded.{codes};
    ghost use Rattle.crossbeam_queue.specs.Passes.{ruled_capacity};
    ghost use Rattle.scp_types.specs.Trees.{members_code};
    ghost use Rattle.pool_cell.specs.Sights.{CellSight};

    ghost Value = { CellSight };

    ghost coded = { Prim.hlevel (codes, members_code) };

    ghost view = { λ c. record { cell = c.lock.table.shared.table_id; config = c.config; seats = c.seats } };

    ghost invariant = { λ c. (ruled_capacity c.lock ≡ 1) × (0 < c.seats) };
}
