//! What watches are shown of the decisions of a journal.

ghost use Rattle.std.specs.Prelude.{◌≡◌, ◌+◌, ◌++◌, ◌<◌, ◌≤◌, IfSome, IsTrue, false, length};
ghost use Rattle.host_journal.specs.Deciding.{decisions_from};
ghost use Rattle.pool_cell.specs.Publishing.{IsPublished};

use crate::{Decision, Publisher};
use host_journal::Journal;
use node_store::Shelf;
use std::sync::Wait;

/// Appends what the entry of this number decided to the publisher. False if it is out of memory.
fn append_one<S: Shelf, H: Wait + Drop>(
    journal: &Journal<S>,
    publisher: &mut Publisher<H>,
    number: usize,
) -> bool
    requires before { IsPublished journal.now.entries number publisher.old }
    requires within { number < length journal.now.entries }
    ensures done { IsTrue result → IsPublished journal.now.entries (number + 1) publisher.new }
    ensures left { result ≡ false → IsPublished journal.now.entries number publisher.new }
{
    match journal.decision(number) {
        None => true,
        Some(decision) => match decision.value.try_copy() {
            Ok(value) => publisher
                .append(Decision {
                    slot: decision.slot,
                    node: decision.node,
                    value,
                })
                .is_ok(),
            Err(_) => false,
        },
    }
}

/// Appends what the entries from this number on decided, as far as there is memory, and answers from which number
/// on it did not.
fn append_all<S: Shelf, H: Wait + Drop>(
    journal: &Journal<S>,
    publisher: &mut Publisher<H>,
    from: usize,
) -> usize
    requires { IsPublished journal.now.entries from publisher.old }
    ensures { IsPublished journal.now.entries result publisher.new }
{
    for number in from..journal.len() {
        if !append_one(journal, publisher, number) {
            return number;
        }
    }
    journal.len()
}

/// Publishes what waits, if there is any and there is memory.
fn publish_waiting<H: Wait + Drop>(publisher: Publisher<H>) -> Publisher<H>
    ensures { result.0 ++ result.1 ≡ publisher.0 ++ publisher.1 }
{
    if publisher.pending_count() == 0 {
        return publisher;
    }
    let (publisher, _answer) = publisher.publish();
    publisher
}

/// Publishes what the entries from this number on decided, as far as there is memory, and answers from which number on
/// it did not append. Without a publisher nothing is done, and that is the number itself.
pub(crate) fn publish_all<S: Shelf, H: Wait + Drop>(
    journal: &Journal<S>,
    publisher: Option<Publisher<H>>,
    from: usize,
) -> (Option<Publisher<H>>, usize)
    requires { IfSome publisher (IsPublished journal.now.entries from) }
    ensures { IfSome result.0 (IsPublished journal.now.entries result.1) }
{
    match publisher {
        None => (None, from),
        Some(mut publisher) => {
            let next = append_all(journal, &mut publisher, from);
            (Some(publish_waiting(publisher)), next)
        }
    }
}

/// `before`, and how many decisions the entries from this number on made.
pub(crate) fn count_decisions<S: Shelf>(journal: &Journal<S>, from: usize, before: usize) -> usize
    requires within { from ≤ length journal.now.entries }
    requires few { before + length (decisions_from journal.now.entries from) ≤ length journal.now.entries }
    ensures { result ≡ before + length (decisions_from journal.now.entries from) }
{
    let mut count = before;
    for number in from..journal.len() {
        count += journal.decision(number).is_some() as usize;
    }
    count
}
