//! One store, in which four threads put at once.

ghost use Rattle.std.specs.Prelude.{◌≡◌, IfOk};
ghost use Rattle.std.specs.List.{All};

use crate::fixtures::{name, slices};
use boxcar::Pushed;
use node_store::{Places, SharedHandle, Shelf};
use scp_types::{Ballot, Envelope, Statement, Value};
use std::alloc::{AllocError, Global};
use std::marker::Model;
use std::sync::Wait;
use std::test::Fail;
use std::thread;
use std::thread::Threads;

/// How many envelopes each thread puts.
const EACH: u64 = 40;

/// What one thread puts, by a handle of its own: the envelopes of one sender, one for each slot. And whether it has
/// read all of them back, by the handle of another.
///
/// Contracts see only the store.
///
/// Each place is one of that store: after two envelopes there are two.
#[derive(Drop)]
struct Run<R> {
    handle: SharedHandle<R>,
    sender: u64,
    places: Vec<Pushed<Envelope>>,
    is_read: bool,
}

impl<R> Model for Run<R> {
    ghost use Rattle.std.specs.List.{All};
    ghost use Rattle.boxcar.specs.Table.{Shelves, Shows, shelves_coded};

    ghost Value = { Shelves };

    ghost coded = { shelves_coded };

    ghost view = { λ r. r.handle };

    ghost invariant = { λ r. All (Shows r.handle) r.places.items };
}

impl<R: Wait> Run<R> {
    /// Puts an envelope, and keeps its place.
    fn put(&mut self, envelope: Envelope) -> Result<(), AllocError>
        ensures { self.new ≡ self.old }
    {
        self.places.reserve(1)?;
        let place = self.handle.put(envelope).map_err(|_| AllocError)?;
        self.places.push_reserved(place);
        Ok(())
    }

    /// Puts the envelopes of the sender, as long as there is memory.
    fn put_all(&mut self, alloc: Global) -> Option<()>
        ensures { self.new ≡ self.old }
    {
        for slot in 0..EACH {
            self.put(envelope(alloc, self.sender, slot)?).ok()?;
        }
        Some(())
    }

    /// Puts them, and reads them back by another handle, while other threads put.
    fn put_and_read(&mut self, alloc: Global, reader: &SharedHandle<R>)
        requires { self.old ≡ reader.now }
        ensures { self.new ≡ reader.now }
    {
        if self.put_all(alloc).is_some() {
            self.is_read = self.reads_back(reader);
        }
    }
}

impl<R> Run<R> {
    /// Whether all that was to be put is read, by this handle on the same store.
    fn reads_back(&self, reader: &SharedHandle<R>) -> bool
        requires { reader.now ≡ self.now }
    {
        let mut slot = 0u64;
        for place in &self.places {
            let envelope = reader.read(place);
            if envelope.slot() != slot || !envelope.sender().is_same(&name(self.sender)) {
                return false;
            }
            slot = slot.wrapping_add(1);
        }
        slot == EACH
    }
}

/// The envelope that a sender puts for a slot.
fn envelope(alloc: Global, sender: u64, slot: u64) -> Option<Envelope> {
    let slices = slices(alloc, 1)?;
    let commit = Ballot {
        counter: 1,
        value: Value::of(alloc, &[b'x']).ok()?,
    };
    let body = Statement::Externalize {
        commit,
        high_counter: 1,
    };
    Envelope::new(name(sender), slot, slices, body)
}

/// Four runs with handles on this store, which have put nothing.
fn runs_of<R: Copy>(alloc: Global, store: &SharedHandle<R>) -> Result<Vec<Run<R>>, AllocError>
    ensures { IfOk result (λ v. All (λ r. r ≡ store.now) v.items) }
{
    let mut runs = Vec::new(alloc);
    for sender in 0..4 {
        runs.push(Run {
            handle: store.try_copy()?,
            sender,
            places: Vec::new(alloc),
            is_read: false,
        })?;
    }
    Ok(runs)
}

/// Each run in a thread of its own.
fn put_at_once<R: Threads + Wait + Sync + Send>(
    rt: &R,
    alloc: Global,
    store: &SharedHandle<R>,
    runs: &mut [Run<R>],
)
    requires { All (λ r. r ≡ store.now) runs.old }
    ensures { All (λ r. r ≡ store.now) runs.new }
{
    thread::for_each_mut(
        rt,
        runs,
        4,
        &|_, run: &mut Run<R>|
            requires { run.old ≡ store.now }
            ensures { run.new ≡ store.entry.now }
        { run.put_and_read(alloc, store) },
    );
}

/// Whether each thread has read back what it put, and this one reads it too.
fn all_read_back<R>(store: &SharedHandle<R>, runs: &[Run<R>]) -> bool
    requires { All (λ r. r ≡ store.now) runs.now }
{
    for run in runs {
        if !run.is_read || !run.reads_back(store) {
            return false;
        }
    }
    true
}

#[test]
fn four_threads_put_and_each_place_reads_back(rt: HostRuntime) -> Result<(), Fail> {
    let alloc = rt.alloc();
    let store = SharedHandle::new(alloc, rt)?;
    let mut runs = runs_of(alloc, &store)?;
    put_at_once(&rt, alloc, &store, runs.as_mut_slice());
    assert!(rt; all_read_back(&store, runs.as_slice()));
    Ok(())
}
