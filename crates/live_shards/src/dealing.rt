//! To which shard a line goes.

ghost use Rattle.std.specs.Prelude.{◌≡◌, ◌<◌, IfOk, option_map, slice_get, true};
ghost use Rattle.live_feed.specs.Served.{reply_of};
ghost use Rattle.live_shards.specs.Asked.{cut_at_spaces, is_net, network_in};
ghost use Rattle.live_shards.specs.Dealing.{IsAnsweredInVain, IsDealt, IsNetLine};

use line_request::ask_of;
use line_script::{LineError, counter_of, fields_of};
use live_feed::{Answer, LineServer};
use live_host::LiveHost;
use std::alloc::{AllocError, Global};

/// To which shard a line goes, and whether it may declare a network.
#[derive(Clone, Copy)]
pub(crate) struct Dealt {
    pub place: usize,
    pub declares: bool,
}

/// To which of `count` shards a line goes: that of the network that it names, or the first if it names none or is too
/// long. Only its first two fields are looked at, since the shard reads the line as a whole.
pub(crate) fn deal(line: Option<&[u8]>, count: usize) -> Dealt
    requires { 0 < count }
    ensures dealt { IsDealt count (option_map (λ bytes. bytes.now) line.entry) result }
    ensures net { result.declares ≡ true → IsNetLine (option_map (λ bytes. bytes.now) line.entry) }
{
    match line {
        Some(line) => Dealt {
            place: network_in(line).unwrap_or(0) as usize % count,
            declares: is_net(line),
        },
        None => Dealt {
            place: 0,
            declares: false,
        },
    }
}

/// The number of the network that is named.
fn network_in(line: &[u8]) -> Option<u32>
    ensures { result ≡ network_in (cut_at_spaces line.now) }
{
    counter_of(field_at(line, 1)?)
}

/// Whether the first field is `net`.
fn is_net(line: &[u8]) -> bool
    ensures { result ≡ is_net (cut_at_spaces line.now) }
{
    match field_at(line, 0) {
        Some(word) => word == b"net".as_slice(),
        None => false,
    }
}

/// What stands at a place between the spaces of a line.
fn field_at(line: &[u8], place: usize) -> Option<&[u8]>
    ensures { option_map (λ field. field.now) result ≡ slice_get (cut_at_spaces line.now) place }
{
    line.split(|byte| *byte == b' ').nth(place)
}

/// The answer to a line that begins with `net` if as many networks are declared as may be: it is bad, whatever it asks
/// for. What it asks for is read only because the contract speaks of that. Each bad line is answered as one that is too
/// long, by whatever host. An error says that it is out of memory.
pub(crate) fn answer_in_vain(
    alloc: Global,
    number: u64,
    line: Option<&[u8]>,
) -> Result<Option<Answer>, AllocError>
    requires { IsNetLine (option_map (λ bytes. bytes.now) line) }
    ensures { IfOk result (λ answer. IsAnsweredInVain number (option_map (λ bytes. bytes.now) line.entry) (reply_of answer)) }
{
    let Some(line) = line else { unreachable!() };
    match fields_of(alloc, line) {
        Ok(Some(fields)) => {
            let asked = ask_of(alloc, fields.as_slice());
            drop(fields);
            drop(asked?);
            LiveHost::new(alloc, false).serve(alloc, number, None)
        }
        Ok(None) => unreachable!(),
        Err(LineError::Bad) => LiveHost::new(alloc, false).serve(alloc, number, None),
        Err(LineError::NoMemory) => Err(AllocError),
    }
}
