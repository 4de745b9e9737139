//! The networks of a script, by number: what their lines have declared, and how far they are.

ghost use Rattle.std.specs.Prelude.{◌≡◌, [], Err, IfOk, None, OnOk, false, true};
ghost use Rattle.line_request.specs.Outlines.{IsRevised, bare_outline, waiting_at, waiting_with, waiting_without, with_node, with_roster};
ghost use Rattle.line_run.specs.Joining.{HasJoined, HaveJoined, NetworkIsNamed, IsConfigTaken};
ghost use Rattle.line_request.specs.Naming.{IsForgotten, is_in, named_with, new_named, served_with};
ghost use Rattle.line_request.specs.Preparing.{Prepares};
ghost use Rattle.line_request.specs.Taking.{is_declared, takes};
ghost use Rattle.line_request.specs.declared.request.Declaration.TheVariants.{Net, Node, Roster};
ghost use Rattle.line_request.specs.Telling.{HasNoNode, is_unserved};

use crate::networks::JoinsNetworks;
use host_config::{Budgets, NetConfig, Reservation};
use line_request::{Declaration, Named, Outline, Waiting};
use line_script::LineError;
use scp_types::{Nested, NodeId};
use std::alloc::{AllocError, Global};

/// The most networks that lines may have declared at a time (this host's profile).
const MAX_NETWORKS: usize = 4096;

/// The networks of a script: those that wait for an event that names them, and those that one has named.
#[derive(Drop)]
pub(crate) struct Nets {
    alloc: Global,
    pub waiting: Waiting,
    pub named: Named,
}

impl Nets {
    /// No network has been declared or named. It takes no memory.
    pub fn none(alloc: Global) -> Nets
        ensures waiting { result.waiting ≡ [] }
        ensures named { result.named ≡ new_named }
    {
        Nets {
            alloc,
            waiting: Waiting::none(alloc),
            named: Named::none(alloc),
        }
    }

    /// A line declares this, of the network of a number. It is a bad line exactly if that is not taken.
    pub fn prepare(&mut self, number: u32, declaration: Declaration) -> Result<(), LineError>
        ensures prepared { OnOk result (Prepares number declaration self.old.waiting self.new.waiting) }
        ensures taken { OnOk result (takes self.old.waiting self.old.named number declaration ≡ true) }
        ensures bad { result ≡ Err LineError.Bad → takes self.old.waiting self.old.named number declaration ≡ false }
        ensures named { self.new.named ≡ self.old.named }
    {
        match declaration {
            Declaration::Net(budgets) => self.declare(number, budgets),
            Declaration::Node(name, slices) => self.host(number, name, slices),
            Declaration::Roster(roster) => self.reserve(number, roster),
        }
    }

    /// Declares a network with its budgets. It is a bad line if one of that number is declared, or if 4,096 networks
    /// are.
    fn declare(&mut self, number: u32, budgets: Budgets) -> Result<(), LineError>
        ensures absent { OnOk result (waiting_at self.old.waiting number ≡ None) }
        ensures declared { OnOk result (self.new.waiting ≡ waiting_with self.old.waiting number (bare_outline budgets)) }
        ensures taken { OnOk result (takes self.old.waiting self.old.named number (Net budgets) ≡ true) }
        ensures bad { result ≡ Err LineError.Bad → takes self.old.waiting self.old.named number (Net budgets) ≡ false }
        ensures named { self.new.named ≡ self.old.named }
    {
        if self.waiting.count() + self.named.count() >= MAX_NETWORKS
            || self.named.is_running(number)
        {
            return Err(LineError::Bad);
        }
        self.waiting.declare(number, budgets)
    }

    /// Declares a network with its budgets as served. It is a bad line if one of that number is declared, or if 4,096
    /// networks are.
    pub fn serve(&mut self, number: u32, budgets: Budgets) -> Result<(), LineError>
        ensures prepared { OnOk result (Prepares number (Net budgets) self.old.waiting self.new.waiting) }
        ensures taken { OnOk result (takes self.old.waiting self.old.named number (Net budgets) ≡ true) }
        ensures bad { result ≡ Err LineError.Bad → takes self.old.waiting self.old.named number (Net budgets) ≡ false }
        ensures named { OnOk result (self.new.named ≡ served_with number self.old.named) }
    {
        self.declare(number, budgets)?;
        self.named.serve(number)?;
        Ok(())
    }

    /// Whether a line has declared the network of a number.
    pub fn is_declared(&self, number: u32) -> bool
        ensures { result ≡ is_declared self.now.waiting self.now.named number }
    {
        self.waiting.has(number) || self.named.is_running(number)
    }

    /// Whether the network of a number was declared as served.
    pub fn is_served(&self, number: u32) -> bool
        ensures { result ≡ is_in self.now.named.served number }
    {
        self.named.is_served(number)
    }

    /// Whether a line has declared the network of a number, and not as served.
    pub fn is_unserved(&self, number: u32) -> bool
        ensures { result ≡ is_unserved self.now.waiting self.now.named number }
    {
        self.is_declared(number) && !self.is_served(number)
    }

    /// The network of a number is taken back, and it is as if no line had named the number.
    pub fn forget(&mut self, number: u32)
        ensures waiting { self.new.waiting ≡ waiting_without self.old.waiting number }
        ensures named { IsForgotten number self.old.named self.new.named }
    {
        let _outline = self.waiting.take(number);
        self.named.forget(number);
    }

    /// Adds a node to a network. It is a bad line if the network is not declared, or has a node of that name or 256
    /// nodes. So it is if an event has named the number, be it before the network was declared.
    fn host(&mut self, number: u32, name: NodeId, slices: Nested) -> Result<(), LineError>
        ensures hosted { OnOk result (IsRevised number (λ d. with_node d name slices) self.old.waiting self.new.waiting) }
        ensures taken { OnOk result (takes self.old.waiting self.old.named number (Node name slices) ≡ true) }
        ensures bad { result ≡ Err LineError.Bad → takes self.old.waiting self.old.named number (Node name slices) ≡ false }
        ensures named { self.new.named ≡ self.old.named }
    {
        if self.named.has(number) {
            return Err(LineError::Bad);
        }
        self.waiting.host(number, name, slices)
    }

    /// Gives a network its roster. It is a bad line if the network is not declared or has a roster, or if the
    /// configuration refuses this one. So it is if an event has named the number, be it before the network was
    /// declared.
    fn reserve(&mut self, number: u32, roster: Reservation) -> Result<(), LineError>
        ensures reserved { OnOk result
            (IsRevised number (λ d. with_roster d roster.names.items roster.shares) self.old.waiting self.new.waiting) }
        ensures taken { OnOk result (takes self.old.waiting self.old.named number (Roster roster) ≡ true) }
        ensures bad { result ≡ Err LineError.Bad → takes self.old.waiting self.old.named number (Roster roster) ≡ false }
        ensures named { self.new.named ≡ self.old.named }
    {
        if self.named.has(number) {
            return Err(LineError::Bad);
        }
        self.waiting.reserve(number, roster)
    }

    /// An event names a network. If it is the first and the network is declared, the network is complete and
    /// joins. It is a bad line if the network has no node.
    pub fn begin<N: JoinsNetworks>(
        &mut self,
        networks: &mut N,
        number: u32,
    ) -> Result<(), LineError>
        ensures named { OnOk result (NetworkIsNamed N.joins number self.old.waiting self.new.waiting networks.old networks.new
            × (self.new.named ≡ named_with number (waiting_at self.old.waiting number) self.old.named)) }
        ensures bad { result ≡ Err LineError.Bad → HasNoNode self.old.waiting number }
    {
        let Some(config) = self.name(number)? else {
            return Ok(());
        };
        networks.join(self.alloc, config)?;
        Ok(())
    }

    /// No line follows: the networks that are declared with nodes, and that no event has named, join in the
    /// order of their numbers. An error says that it is out of memory.
    pub fn finish<N: JoinsNetworks>(&mut self, networks: &mut N) -> Result<(), AllocError>
        ensures { OnOk result (HaveJoined N.joins self.old.waiting networks.old networks.new) }
    {
        let Some((number, outline)) = self.waiting.take_first() else {
            return Ok(());
        };
        join_complete(self.alloc, networks, number, outline)?;
        self.finish(networks)
    }

    /// An event names a network. Its configuration is answered if the network waited.
    fn name(&mut self, number: u32) -> Result<Option<NetConfig>, LineError>
        ensures taken { IfOk result (λ named.
            IsConfigTaken number (waiting_at self.old.waiting number) named self.old.waiting self.new.waiting) }
        ensures named { OnOk result (self.new.named ≡ named_with number (waiting_at self.old.waiting number) self.old.named) }
        ensures bad { result ≡ Err LineError.Bad → HasNoNode self.old.waiting number }
    {
        match self.waiting.take(number) {
            Some(outline) => match outline.config(number) {
                Ok(config) => {
                    self.named.run(number)?;
                    Ok(Some(config))
                }
                Err(error) => Err(error),
            },
            None => {
                self.named.name(number)?;
                Ok(None)
            }
        }
    }
}

/// What lines have declared of the network of a number joins, if it has nodes.
fn join_complete<N: JoinsNetworks>(
    alloc: Global,
    networks: &mut N,
    number: u32,
    outline: Outline,
) -> Result<(), AllocError>
    ensures { OnOk result (HasJoined N.joins number outline networks.old networks.new) }
{
    match outline.config(number) {
        Ok(config) => networks.join(alloc, config),
        Err(LineError::Bad) => Ok(()),
        // Memory: the configuration has none.
        Err(LineError::NoMemory) => Err(AllocError),
    }
}
