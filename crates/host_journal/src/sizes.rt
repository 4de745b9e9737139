//! How many bytes an entry of a journal takes in place, apart from a list of what it gave out. So a field that grows by
//! a buffer is seen here, and not only as memory of long journals. These bounds are this host's profile; no contract
//! speaks of them.

use crate::kept::{KeptEvent, StoredEntry};
use crate::unkept::PastEntry;
use std::mem::size_of;

const _: () = prove!(size_of::<KeptEvent>() <= 16);

const _: () = prove!(size_of::<StoredEntry>() <= 16);

const _: () = prove!(size_of::<PastEntry>() == 0);
