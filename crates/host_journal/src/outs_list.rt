//! What the entries of a journal gave out, by the numbers of the entries.

ghost use Rattle.std.specs.Prelude.{◌≡◌, ◌<◌, map, vec_capacity, vec_len};
ghost use Rattle.host_journal.specs.Giving.{IsFoundAt, entry_number, kept_outs, listed_at, with_outs};
ghost use Rattle.scp_spec.specs.Sets.{IsAscending};

use node_core::FiledOut;
use std::snapshot::Snapshot;

/// What the entry of this number gave out, if it gave out anything, which most do not.
#[derive(Drop)]
pub(crate) struct EntryOuts {
    entry: usize,
    outs: Vec<FiledOut>,
}

/// What an entry gave out, as contracts know it. It takes no bytes: the list stands among those of the journal, where
/// it is found by the number of the entry.
#[derive(Drop)]
pub(crate) struct KeptOuts {
    outs: Snapshot<Vec<FiledOut>>,
}

impl KeptOuts {
    /// Puts what the entry of this number gave out behind that of earlier entries. It takes no memory.
    pub(crate) fn put(lists: &mut Vec<EntryOuts>, entry: usize, outs: Vec<FiledOut>) -> KeptOuts
        requires room { vec_len lists.old < vec_capacity lists.old }
        ensures outs { kept_outs result ≡ outs.items }
        ensures put { lists.new.items ≡ with_outs entry outs lists.old.items }
    {
        let given = Snapshot::of(&outs);
        if !outs.is_empty() {
            lists.push_reserved(EntryOuts { entry, outs });
        }
        KeptOuts { outs: given }
    }
}

/// What the entry of this number gave out, found by a binary search.
pub(crate) fn outs_of_entry(lists: &[EntryOuts], entry: usize) -> &[FiledOut]
    requires { IsAscending (map entry_number lists.now) }
    ensures { result.now ≡ listed_at lists.now entry }
{
    match find(lists, entry) {
        Ok(at) => lists[at].outs.as_slice(),
        Err(_) => &[],
    }
}

/// Where the list of an entry stands, if it has one.
fn find(lists: &[EntryOuts], entry: usize) -> Result<usize, usize>
    requires { IsAscending (map entry_number lists.now) }
    ensures { IsFoundAt lists.now entry result }
{
    lists.binary_search_by_key(&entry, |given| given.entry)
}
