//! A shelf of many owners, on any threads.

ghost use Rattle.std.specs.Prelude.{◌≡◌, IfErr, IfOk};
ghost use Rattle.boxcar.specs.Table.{Shows, Where};
ghost use Rattle.scp_types.specs.Statements.{Sent};

use crate::shelf::{Places, Shelf};
use boxcar::Pushed;
use scp_types::Envelope;
use std::alloc::{AllocError, Global};
use std::marker::Model;
use std::sync::{Arc, Wait};

/// A handle on one store that only grows. What is put by one handle stays where it is, and is read by
/// any other without waiting.
///
/// Contracts see it as the identity of its store, by which places are told apart: equal handles are
/// handles on one store, and a place of the one is a place of the other.
#[derive(Drop)]
pub struct SharedHandle<R> {
    rt: R,
    store: Arc<boxcar::Vec<Envelope>, Global>,
}

impl<R> Model for SharedHandle<R> {
    ghost use Rattle.boxcar.specs.Table.{Shelves, shelves_coded};
    ghost use Rattle.std.specs.Arc.{arc_value};

    ghost Value = { Shelves };

    ghost coded = { shelves_coded };

    ghost view = { λ h. arc_value h.store };
}

impl<R: Copy> SharedHandle<R> {
    /// A handle on a store of its own. An error says that it is out of memory.
    pub fn new(alloc: Global, rt: R) -> Result<SharedHandle<R>, AllocError> {
        let store = Arc::new(alloc, boxcar::Vec::new(alloc)?)?;
        Ok(SharedHandle { rt, store })
    }

    /// Another handle on the same store. An error says that there are as many as can be counted.
    pub fn try_copy(&self) -> Result<SharedHandle<R>, AllocError>
        ensures { IfOk result (λ h. h ≡ self.now) }
    {
        let store = Arc::try_clone(&self.store)?;
        Ok(SharedHandle { rt: self.rt, store })
    }
}

impl<R> Places for SharedHandle<R> {
    ghost use Rattle.boxcar.specs.Table.{Shows};

    type Place = Pushed<Envelope>;

    ghost is_of = { λ h p. Shows h p };

    ghost put_there = { λ p. p.value };

    fn read<'a>(&'a self, place: &'a Pushed<Envelope>) -> &'a Envelope {
        self.store.value(place)
    }
}

impl<R: Wait> Shelf for SharedHandle<R> {
    /// As of every shelf; and the handle is on the same store as before, so each handle on it reads what
    /// was put. It may wait for a put of another thread.
    fn put(&mut self, envelope: Envelope) -> Result<Pushed<Envelope>, Envelope>
        ensures put { IfOk result (λ p. Shows self.new p × (p.value ≡ envelope)) }
        ensures kept { (p : Where Sent) → Shows self.old p → Shows self.new p }
        ensures err { IfErr result (λ e. e ≡ envelope) }
        ensures same { self.new ≡ self.old }
    {
        self.store.push_shown(&self.rt, envelope)
    }
}
