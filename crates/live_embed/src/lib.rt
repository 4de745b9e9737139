//! A live host for programs in C or Rust: a static library, whose header is `scp_host.h`.
//!
//! What C holds of a host is a [`ScpHost`], a pointer that is null if there is none. It hands one line at a time to
//! [`scp_host_line`], which answers a status, and then takes the block of that line by [`scp_host_block`]. The lines,
//! their numbers and their blocks are those of `scphost serve`. The library keeps no journal; it says which lines one
//! keeps.
//!
//! Nothing checks C. What it owes stands in the header.
#![tactic(auto)]

mod embedded;
mod handle;
mod parts;
mod status;

ghost use Rattle.std.specs.Prelude.{◌≡◌, None, length};
ghost use Rattle.live_embed.specs.Embedding.{HasLine, HasMade, code_of, filled, last_block};
ghost use Rattle.live_embed.specs.declared.status.Status.{Status};

pub use handle::ScpHost;
use std::alloc::Global;

/// Makes a host without networks, which prints envelopes as bytes if that is asked for. What the handle held before is
/// let go. The status is 0; or 2 if it is out of memory, and then the handle holds what it held.
#[unsafe(no_mangle)]
pub extern "C" fn scp_host_new(alloc: Global, host: &mut ScpHost, bytes: bool) -> u32
    ensures { (status : Status) × (result ≡ code_of status) × HasMade status bytes host.old.kept host.new.kept }
{
    host.make(alloc, bytes).code()
}

/// Has the host answer a line, given without its line feed. Lines are numbered from 1, empty ones and comments too.
///
/// The status is 0 if the line is answered, and 1 if it is answered, and a journal keeps it. It is 2 if it is out of
/// memory, and then the host is let go. It is 3 if the handle holds no host. It is 4 if no number is left for the line,
/// and then nothing changes.
#[unsafe(no_mangle)]
pub extern "C" fn scp_host_line(alloc: Global, host: &mut ScpHost, line: &[u8]) -> u32
    ensures { (status : Status) × (result ≡ code_of status) × HasLine status line.now host.old.kept host.new.kept }
{
    host.line(alloc, line).code()
}

/// How long the block of the last line is, in bytes; 0 without a host. It is copied to the front of the room if it
/// fits, and else nothing is.
#[unsafe(no_mangle)]
pub extern "C" fn scp_host_block(alloc: Global, host: &mut ScpHost, room: &mut [u8]) -> usize
    ensures length { result ≡ length (last_block host.old.kept) }
    ensures room { room.new ≡ filled (last_block host.old.kept) room.old }
    ensures host { host.new.kept ≡ host.old.kept }
{
    host.block(alloc, room)
}

/// Lets the host go, if the handle holds one.
#[unsafe(no_mangle)]
pub extern "C" fn scp_host_free(alloc: Global, host: &mut ScpHost)
    ensures { host.new.kept ≡ None }
{
    host.free(alloc);
}
