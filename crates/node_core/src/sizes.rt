//! How many bytes a node, its votes, an event and an out take in place. So a field that grows by a buffer is seen here,
//! and not only as time and memory of large networks. These bounds are this host's profile; no contract speaks of them.

use crate::filed::{FiledEvent, FiledOut};
use crate::node::Node;
use node_table::Table;
use scp_types::Votes;
use std::mem::size_of;

const _: () = prove!(size_of::<Node>() - size_of::<Table>() <= 352);

const _: () = prove!(size_of::<Votes>() <= 176);

const _: () = prove!(size_of::<FiledEvent>() <= 40);

const _: () = prove!(size_of::<FiledOut>() <= 16);
