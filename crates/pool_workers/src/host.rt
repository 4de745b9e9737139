//! The networks of one host.

ghost use Rattle.std.specs.Prelude.{◌≡◌, ◌<◌, ◌≤◌, [], ◌∷◌, ◌++◌, IfErr, IfSome, IfNone, OnOk, length, Err};
ghost use Rattle.pool_workers.specs.Spares.{HasAllSeats};
ghost use Rattle.pool_workers.specs.NetSights.{NetSight};
ghost use Rattle.pool_workers.specs.Joining.{IsWhyNotJoined};
ghost use Rattle.pool_workers.specs.Nets.{IsClosedNet, IsLeastNumber, NoNet, nets_with};

use crate::deal::SpareSeats;
use crate::host_state::HostState;
use crate::not_joined::NotJoined;
use crate::shared::Shared;
use host_journal::Journal;
use node_store::Shelf;
use pool_cell::{Cell, Seat};
use std::alloc::Global;
use std::marker::Model;
use std::sync::Wait;

/// The most networks of a host (this host's profile).
pub const MAX_NETWORKS: usize = 4096;

/// The networks of a host, up to 4,096, ascending by number: of each its cell and all its seats.
///
/// Contracts see the list of the networks, each as what is seen of its cell and of its seats.
///
/// For example, networks that joined as 7, 3 and 5 stand as 3, 5, 7.
#[derive(Drop)]
pub struct Host<S: Shelf, H: Wait + Drop> {
    pub(crate) host_state: HostState<S, H>,
    // Whether the lists of the state stand turned around, the least number last, as when networks are closed.
    pub(crate) is_turned: bool,
}

impl<S: Shelf, H: Wait + Drop> Model for Host<S, H> {
    ghost use Rattle.std.specs.Coded.{codes};
    ghost use Rattle.std.specs.Prelude.{List};
    ghost use Rattle.scp_types.specs.Trees.{members_code};
    ghost use Rattle.pool_workers.specs.NetSights.{NetSight};

    ghost Value = { List NetSight };

    ghost coded = { Prim.hlevel (codes, members_code) };

    ghost use Rattle.pool_workers.specs.Nets.{IsKeptState, nets_in};

    ghost view = { λ h. nets_in h.is_turned h.host_state };

    ghost invariant = { λ h. IsKeptState h.is_turned h.host_state };
}

impl<S: Shelf + Drop, H: Wait + Drop> Host<S, H> {
    /// A host without networks. It takes no memory.
    pub fn new(alloc: Global) -> Host<S, H>
        ensures { result ≡ [] }
    {
        Host {
            host_state: HostState {
                shared: Shared {
                    numbers: Vec::new(alloc),
                    cells: Vec::new(alloc),
                    queue: None,
                },
                spares: Vec::new(alloc),
            },
            is_turned: false,
        }
    }

    /// How many networks there are.
    pub fn len(&self) -> usize
        ensures { result ≡ length self.now }
    {
        self.host_state.shared.cells.len()
    }

    /// Takes a network in, given by its cell and all its seats, in the place of its number.
    ///
    /// An error says why not, and hands the cell and the seats back: a network of this number is there, or 4,096
    /// networks are. It says that it is out of memory only if neither is so. The host is then as it was.
    pub fn add(
        &mut self,
        cell: Cell<S, H>,
        seats: Vec<Seat<S, H>>,
    ) -> Result<(), (NotJoined, Cell<S, H>, Vec<Seat<S, H>>)>
        requires { HasAllSeats cell seats.items }
        ensures ok { OnOk result (self.new ≡ nets_with (record { cell = cell; seats = seats.items }) self.old) }
        ensures fresh { OnOk result (NoNet self.old cell.config.number × (length self.old < 4096)) }
        ensures why { IfErr result (λ r. IsWhyNotJoined self.old cell.config.number r.0) }
        ensures back { IfErr result (λ r. (r.1 ≡ cell) × (r.2 ≡ seats)) }
        ensures same { IfErr result (λ _. self.new ≡ self.old) }
    {
        self.host_state.turn_to(self.is_turned, false);
        self.is_turned = false;
        let number = cell.config().number();
        match self.host_state.shared.numbers.binary_search(&number) {
            Ok(_) => Err((NotJoined::NumberThere, cell, seats)),
            Err(place) => {
                if self.host_state.shared.numbers.len() >= MAX_NETWORKS {
                    return Err((NotJoined::TooManyNetworks, cell, seats));
                }
                if !self.host_state.reserve() {
                    // Memory: one of the lists has no room.
                    return Err((NotJoined::NoMemory, cell, seats));
                }
                self.host_state.put_at(place, cell, seats);
                Ok(())
            }
        }
    }

    /// Takes out the network with the least number, closes its cell, and hands over its journal and its seats,
    /// which have ended: together one history of one thread. `None` says that there is no network left.
    ///
    /// It takes no memory, and only as much time as the seats of this network ask for, however many others the host
    /// has. But the first of such calls turns the networks around, and a run or `add` behind it turns them back.
    pub fn close_next<R: Wait>(&mut self, rt: &R) -> Option<(Journal<S>, Vec<Seat<S, H>>)>
        ensures none { IfNone result ((self.old ≡ []) × (self.new ≡ [])) }
        ensures closed { IfSome result (λ r. (net : NetSight) × (self.old ≡ net ∷ self.new) × IsLeastNumber net self.new × IsClosedNet net r.0 r.1.items) }
    {
        self.host_state.turn_to(self.is_turned, true);
        self.is_turned = true;
        if self.host_state.shared.cells.is_empty() {
            return None;
        }
        let (cell, seats) = self.host_state.remove_last();
        match cell.close(rt, seats) {
            Ok(done) => Some(done),
            // All seats are there.
            Err(_) => unreachable!(),
        }
    }
}
