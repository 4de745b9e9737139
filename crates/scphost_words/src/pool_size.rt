//! How many workers a pool has.

use std::marker::Model;

/// The most workers of a pool (this host's profile).
pub const MAX_WORKERS: u64 = 64;

/// A number of workers, 1 to 64.
///
/// For example, 1 and 64 are such numbers, 0 and 65 are none.
#[derive(Clone, Copy)]
pub struct PoolSize {
    workers: u64,
}

impl Model for PoolSize {
    ghost use Rattle.std.specs.Prelude.{◌<◌, ◌≤◌, ℕ};

    ghost Value = { ℕ };

    ghost view = { λ p. p.workers };

    ghost invariant = { λ p. (0 < p.workers) × (p.workers ≤ 64) };

    ghost inverse = { λ n. record { workers = n } };
}

impl PoolSize {
    ghost use Rattle.std.specs.Prelude.{◌≡◌, ◌<◌, ◌≤◌};
    ghost use Rattle.scphost_words.specs.Options.{worker_count};

    /// This number of workers; `None` for 0 and above 64.
    pub fn new(workers: u64) -> Option<PoolSize>
        ensures { result ≡ worker_count workers }
    {
        if 0 < workers && workers <= MAX_WORKERS {
            Some(PoolSize { workers })
        } else {
            None
        }
    }

    /// How many there are.
    pub fn workers(&self) -> u64
        ensures value { result ≡ self.now }
        ensures some { 0 < result }
        ensures few { result ≤ 64 }
    {
        self.workers
    }
}
