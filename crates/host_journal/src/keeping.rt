//! How a journal keeps its entries.

ghost use Rattle.std.specs.Prelude.{◌≡◌, ◌++◌, ◌∷◌, [], IfSome, OnOk, option_map};
ghost use Rattle.node_store.specs.Archives.{IsFiled, Keeps, sent_of};
ghost use Rattle.node_core.specs.Filings.{AreFiledOuts, whole_outs};
ghost use Rattle.host_network.specs.Answers.{delivered_of};
ghost use Rattle.host_network.specs.Decoding.{step_of};
ghost use Rattle.host_network.specs.Standing.{machine_of};
ghost use Rattle.host_journal.specs.Hosting.{NamesNodes};
ghost use Rattle.host_journal.specs.Keeping.{IsReadable};

use host_config::NetConfig;
use host_network::Network;
use node_core::FiledOut;
use node_store::{Filed, Shelf};
use scp_types::Event;
use std::alloc::{AllocError, Global};

/// How the entries of a journal are kept: so that they can be read again ([`crate::Kept`]), or so that only contracts
/// know them ([`crate::Unkept`]).
pub trait Keeping: Drop {
    ghost use Rattle.std.specs.Prelude.{List};
    ghost use Rattle.node_store.specs.Archives.{Archived};
    ghost use Rattle.scp_spec.specs.Hosts.{Entry};
    ghost use Rattle.scp_spec.specs.Networks.{HostedNode};
    ghost use Rattle.scp_types.specs.declared.event.Event.{Event};

    /// The entries, with whole envelopes and with names.
    ghost entries: { Self → List Entry };

    /// A network with these nodes and this archive has what the entries refer to.
    ghost is_kept: { List HostedNode → Archived → Self → Type 0 };

    /// There is room for an event.
    ghost has_room: { Event → Self → Type 0 };

    /// No entries. It takes no memory.
    fn nothing(alloc: Global) -> Self
        ensures entries { entries result ≡ [] }
        ensures kept { (nodes : List HostedNode) (archive : Archived) → is_kept nodes archive result };

    /// Makes room for an event. An error says that it is out of memory. The entries stay.
    fn make_room(&mut self, alloc: Global, event: &Event) -> Result<(), AllocError>
        ensures entries { entries self.new ≡ entries self.old }
        ensures kept { (nodes : List HostedNode) (archive : Archived) → is_kept nodes archive self.old → is_kept nodes archive self.new }
        ensures room { OnOk result (has_room event.now self.new) };

    /// Enters an event that was applied to a network of this configuration, with what it filed and gave out. It takes
    /// no memory.
    fn enter(
        &mut self,
        config: &NetConfig,
        event: Event,
        filed: Vec<FiledOut>,
        delivered: Option<Filed>,
    )
        requires room { has_room event self.old }
        requires hosted { NamesNodes config.now.nodes (step_of event) }
        requires delivered { option_map sent_of delivered ≡ delivered_of (step_of event) }
        requires readable { IsReadable (step_of event) }
        ensures entered { entries self.new ≡ entries self.old ++ record { event = step_of event; outs = whole_outs filed.items } ∷ [] }
        ensures kept { (archive : Archived) → IfSome delivered (IsFiled archive) → AreFiledOuts archive filed.items → is_kept config.now.nodes archive self.old → is_kept config.now.nodes archive self.new };

    /// Has a network let go of envelopes that neither it nor the entries need any more, if that is due. It cannot fail.
    fn tidy<S: Shelf>(&self, network: &mut Network<S>)
        ensures state { machine_of network.new ≡ machine_of network.old }
        ensures config { network.new.config ≡ network.old.config }
        ensures kept { (nodes : List HostedNode) → is_kept nodes network.old.archive self.now → is_kept nodes network.new.archive self.now };

    /// A law: entries are kept still if the archive has more.
    ghost stay: { (nodes : List HostedNode) (old new : Archived) (kept : Self) → Keeps old new → is_kept nodes old kept → is_kept nodes new kept };
}
