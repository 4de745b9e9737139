//! Lines that are dealt to shards.

ghost use Rattle.std.specs.Prelude.{◌≡◌, ◌+◌, ◌<◌, ◌^◌, length};

use live_feed::KeptLine;
use std::alloc::Global;

/// Lines that came together, and to which shard each of them goes. `count` lines stand before them.
#[derive(Clone, Copy)]
pub(crate) struct Batch<'a> {
    pub alloc: Global,
    pub count: u64,
    pub lines: &'a [KeptLine],
    pub places: &'a [usize],
    pub ghost long: { length places.now ≡ length lines.now },
    pub ghost numbers: { count + length lines.now < 2 ^ 64 },
}
