//! A desk in memory, which keeps what it has done and fails when it is told to.

ghost use Rattle.std.specs.Prelude.{◌≡◌, ◌++◌, ◌∷◌, []};

use crate::deeds::Deed;
use live_feed::Desk;
use std::alloc::Global;
use std::process::Abort;

/// Keeps what was done, and what was told of it. One of its calls fails: then half a line is written, or nothing is on
/// the disk, or nothing is told. If it is out of memory it aborts.
#[derive(Drop)]
pub struct MemoryDesk<R: Abort + Drop> {
    /// What was done, one after the other.
    pub deeds: Vec<Deed>,
    /// What was told.
    pub told: Vec<u8>,
    rt: R,
    alloc: Global,
    calls: u32,
    fails_at: u32,
}

impl<R: Abort + Drop> MemoryDesk<R> {
    /// Nothing has been done; call number `fails_at` fails, or none at 0.
    pub fn new(rt: R, alloc: Global, fails_at: u32) -> MemoryDesk<R> {
        MemoryDesk {
            deeds: Vec::new(alloc),
            told: Vec::new(alloc),
            rt,
            alloc,
            calls: 0,
            fails_at,
        }
    }

    /// Counts a call, and answers whether it is to fail.
    fn fails(&mut self) -> bool
        ensures { (self.new.deeds ≡ self.old.deeds) × (self.new.told ≡ self.old.told) }
    {
        self.calls = self.calls.saturating_add(1);
        self.calls == self.fails_at
    }

    /// A copy of these bytes.
    fn copy_of(&self, bytes: &[u8]) -> Vec<u8>
        ensures { result.items ≡ bytes.now }
    {
        let mut copy = Vec::new(self.alloc);
        copy.extend_from_slice(bytes).expect(&self.rt, "memory");
        copy
    }

    /// Keeps what was done.
    fn note(&mut self, deed: Deed)
        ensures { (self.new.deeds.items ≡ self.old.deeds.items ++ deed ∷ []) × (self.new.told ≡ self.old.told) }
    {
        self.deeds.push(deed).expect(&self.rt, "memory");
    }
}

impl<R: Abort + Drop> Desk for MemoryDesk<R> {
    ghost use Rattle.std.specs.Prelude.{Some};
    ghost use Rattle.tests_values.specs.Deeds.{acts_of};

    ghost acts = { λ desk. Some (acts_of desk.deeds.items) };

    ghost told = { λ desk. Some desk.told.items };

    fn append(&mut self, line: &[u8]) -> bool {
        if self.fails() {
            let part = self.copy_of(&line[..line.len() / 2]);
            self.note(Deed::Wrote(part));
            return false;
        }
        let mut whole = self.copy_of(line);
        whole.push(b'\n').expect(&self.rt, "memory");
        self.note(Deed::Wrote(whole));
        true
    }

    fn sync(&mut self) -> bool {
        if self.fails() {
            return false;
        }
        self.note(Deed::Synced);
        true
    }

    fn tell(&mut self, text: &[u8]) -> bool {
        let fails = self.fails();
        let copy = self.copy_of(text);
        self.note(Deed::Told(copy));
        if fails {
            return false;
        }
        self.told.extend_from_slice(text).expect(&self.rt, "memory");
        true
    }

    fn explain(&mut self, _number: u64, _line: Option<&[u8]>, _waiting: &[u8]) {}
}
