//! Which numbers of an archive are held.

ghost use Rattle.std.specs.Prelude.{◌≡◌, get_or, slice_set, true};

use crate::filed::Filed;
use std::marker::Model;

/// Which numbers of an archive are held: what lies there stays if others are let go. A mark for each number, a byte.
///
/// Contracts see the marks. What stands behind the last mark is held, so what an archive files later stays too.
#[derive(Drop)]
pub struct Held {
    pub(crate) marks: Vec<bool>,
}

impl Model for Held {
    ghost use Rattle.std.specs.Prelude.{Bool, List};

    ghost Value = { List Bool };

    ghost view = { λ h. h.marks.items };
}

impl Held {
    /// Holds the number of what was filed, beside those that are held. It takes no memory.
    pub fn hold(&mut self, filed: &Filed)
        ensures { self.new ≡ slice_set self.old filed.now.number true }
    {
        if filed.number < self.marks.len() {
            self.marks[filed.number] = true;
        }
    }

    /// Whether a number is held.
    pub(crate) fn has(&self, number: usize) -> bool
        ensures { result ≡ get_or self.now number true }
    {
        self.marks.get(number).copied().unwrap_or(true)
    }
}
