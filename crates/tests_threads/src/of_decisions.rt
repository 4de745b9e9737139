//! Watches beside a publisher.

use pool_cell::{Decision, Publisher, Watch};
use scp_types::{NodeId, Value};
use std::alloc::{AllocError, Global};
use std::sync::Wait;
use std::test::Fail;
use std::thread;
use std::thread::Threads;

/// How many decisions are published beside a reader.
const MANY: u64 = 50;

/// How often it reads meanwhile.
const READS: u32 = 20_000;

/// Node 1 decides `x` for a slot.
fn decision(alloc: Global, slot: u64) -> Result<Decision, AllocError> {
    let value = Value::of(alloc, &[b'x'])?;
    Ok(Decision {
        slot,
        node: NodeId::from_words(0, 0, 0, 1),
        value,
    })
}

/// Publishes a decision for a slot, if there is memory.
fn publish<R: Wait + Drop>(alloc: Global, publisher: Publisher<R>, slot: u64) -> Publisher<R> {
    let mut publisher = publisher;
    if let Ok(decision) = decision(alloc, slot) {
        let _appended = publisher.append(decision);
    }
    let (publisher, _published) = publisher.publish();
    publisher
}

/// Publishes a decision for each slot.
fn publish_many<R: Wait + Drop>(alloc: Global, publisher: Publisher<R>) -> Publisher<R> {
    let mut publisher = publisher;
    for slot in 0..MANY {
        publisher = publish(alloc, publisher, slot);
    }
    publisher
}

/// How many decisions there are, if each stands at the place of its slot.
fn count_in_order(decisions: &[Decision]) -> Option<usize> {
    for (place, decision) in decisions.iter().enumerate() {
        if decision.slot != place as u64 {
            return None;
        }
    }
    Some(decisions.len())
}

/// How many are read, in order. Nothing is read if the publisher is gone.
fn read(watch: &mut Watch) -> Option<usize> {
    watch.read(|decisions: &[Decision]| count_in_order(decisions))?
}

/// How many of many reads were wrong: of a list that lacks a decision, or that is shorter than one before.
fn read_often(watch: &mut Watch) -> u32 {
    let mut most = 0;
    let mut wrong = 0u32;
    for _ in 0..READS {
        match read(watch) {
            Some(number) if number >= most => most = number,
            _ => wrong = wrong.wrapping_add(1),
        }
    }
    wrong
}

/// One thread reads while another one publishes. How many reads were wrong.
fn race<R: Threads + Wait + Sync + Drop + Send>(
    rt: &R,
    alloc: Global,
    publisher: Publisher<R>,
    watch: &mut Watch,
) -> (Publisher<R>, u32) {
    thread::join(
        rt,
        move || publish_many(alloc, publisher),
        move || read_often(watch),
    )
}

/// How many reads were wrong, and how many decisions there are in the end, if the watch is told of them. Last comes
/// what is read when the publisher has given them up.
fn read_and_take<R: Threads + Wait + Sync + Drop + Send + Copy>(
    rt: &R,
    alloc: Global,
) -> Option<(u32, Option<usize>, Option<usize>)> {
    let publisher = Publisher::new(alloc, *rt, 1).ok()?;
    let mut watch = publisher.watch().ok()?;
    let (publisher, wrong) = race(rt, alloc, publisher, &mut watch);
    let is_told = publisher.tell(&mut watch);
    let board = publisher.take();
    let count = if is_told {
        count_in_order(board.as_slice())
    } else {
        None
    };
    Some((wrong, count, read(&mut watch)))
}

#[test]
fn a_thread_reads_while_one_publishes(rt: HostRuntime) -> Result<(), Fail> {
    let said = read_and_take(&rt, rt.alloc());
    assert_eq!(rt; said, Some((0, Some(50), None)));
    Ok(())
}

/// Whether there is room for two watches, and no more.
fn has_room_for_two<R: Wait + Drop>(publisher: &Publisher<R>) -> bool {
    let one = publisher.watch();
    let other = publisher.watch();
    one.is_ok() && other.is_ok() && publisher.watch().is_err()
}

/// Of a publisher with room for two watches: whether it has that room, also when two were let go, and what is read
/// before and after the publisher is let go.
fn read_and_drop<R: Wait + Drop + Copy>(
    rt: &R,
    alloc: Global,
) -> Option<(bool, Option<usize>, Option<usize>)> {
    let publisher = Publisher::new(alloc, *rt, 2).ok()?;
    let has_room = has_room_for_two(&publisher) && has_room_for_two(&publisher);
    let mut watch = publisher.watch().ok()?;
    let before = read(&mut watch);
    drop(publisher);
    Some((has_room, before, read(&mut watch)))
}

#[test]
fn there_are_as_many_watches_as_there_is_room_for(rt: HostRuntime) -> Result<(), Fail> {
    let said = read_and_drop(&rt, rt.alloc());
    assert_eq!(rt; said, Some((true, Some(0), None)));
    Ok(())
}
