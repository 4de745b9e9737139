//! A live host whose networks are shared out among workers (this host's profile).
//!
//! A [`ShardedHost`] has one shard, or sixteen for each of several workers. Each is a live host, and has those networks
//! whose number leaves its place as remainder. Lines that come together are dealt by the networks that they name. The
//! workers take one shard after the other, and answer its lines in their order. Then the answers are gathered in the
//! order of the lines. Few lines are answered in turn, and so are those up to the last that may declare a network. So
//! what is answered is what one host answers to these lines, however many workers there are.
#![tactic(auto)]

mod batch;
mod dealing;
mod laws;
mod shard;
mod sharded_host;

pub use laws::{lines_name_their_networks, parts_answer_for_the_whole};
pub use sharded_host::ShardedHost;
