//! The senders of a table, one after another.

ghost use Rattle.std.specs.Prelude.{◌≡◌};

use crate::places::RowPlaces;
use scp_types::NodeId;
use std::collections::btree_map::Keys;
use std::marker::Model;

/// The senders of a table that are still to come, in ascending order.
///
/// Contracts see it as the list of their names. It takes no memory.
#[derive(Drop)]
pub struct SenderNames<'a> {
    names: Keys<'a, NodeId, RowPlaces>,
}

impl<'a> Model for SenderNames<'a> {
    ghost use Rattle.std.specs.Prelude.{List, ℕ};

    ghost Value = { List ℕ };

    ghost view = { λ a. a.names };
}

impl<'a> SenderNames<'a> {
    /// The names that these keys give.
    pub(crate) fn of(names: Keys<'a, NodeId, RowPlaces>) -> SenderNames<'a>
        ensures { result ≡ names.entry }
    {
        SenderNames { names }
    }
}

impl<'a> Iterator for SenderNames<'a> {
    ghost use Rattle.std.specs.Prelude.{length};
    ghost use Rattle.std.specs.Iterator.{at_most};
    ghost use Rattle.std.specs.Map.Iter.{TakesFirst, deref};

    type Item = &'a NodeId;

    ghost next_gives = { TakesFirst deref };

    ghost remaining = { λ s. at_most (length s) };

    fn next(&mut self) -> Option<&'a NodeId> {
        self.names.next()
    }

    fn size_hint(&self) -> (usize, Option<usize>) {
        self.names.size_hint()
    }
}
