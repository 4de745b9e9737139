//! Hashes and leaders that were worked out elsewhere, by tools/leaders.

use crate::draw::{Draw, Purpose};
use crate::{Draws, leader};
use scp_types::{Member, Nested, NodeId, SliceSet};
use std::alloc::{AllocError, Global};
use std::process::Abort;
use std::test::Fail;

// Slot, tag, round, name, and the hash, by the command sha256sum.
const HASHES: [(u64, u8, u32, u8, u64); 8] = [
    (0, 1, 0, b'B', 0x49020f6bc9b0e7da),
    (0, 2, 0, b'B', 0x6de9efff0e10b540),
    (1, 1, 1, b'B', 0xf6299ef0f248e396),
    (1, 2, 1, b'B', 0x8006b44a1edf277f),
    (1, 1, 2, b'B', 0xee2a03cb3bb9323d),
    (1, 2, 2, b'B', 0x2254e60467a26f31),
    (
        18446744073709551615,
        1,
        4294967295,
        b'B',
        0x8d7d861421a9d2b1,
    ),
    (
        18446744073709551615,
        2,
        4294967295,
        b'B',
        0x81ef4d971c318cc9,
    ),
];

// Slot, round, node, the number of its slices, and the leader.
const LEADERS: [(u64, u32, u8, usize, u8); 60] = [
    (0, 0, b'A', 0, b'C'),
    (0, 0, b'A', 1, b'C'),
    (0, 0, b'A', 2, b'C'),
    (0, 0, b'A', 3, b'S'),
    (0, 0, b'A', 4, b'C'),
    (0, 0, b'D', 0, b'C'),
    (0, 0, b'D', 1, b'C'),
    (0, 0, b'D', 2, b'C'),
    (0, 0, b'D', 3, b'S'),
    (0, 0, b'D', 4, b'C'),
    (0, 0, b'Z', 0, b'Z'),
    (0, 0, b'Z', 1, b'Z'),
    (0, 0, b'Z', 2, b'Z'),
    (0, 0, b'Z', 3, b'Z'),
    (0, 0, b'Z', 4, b'Z'),
    (1, 1, b'A', 0, b'C'),
    (1, 1, b'A', 1, b'C'),
    (1, 1, b'A', 2, b'C'),
    (1, 1, b'A', 3, b'A'),
    (1, 1, b'A', 4, b'C'),
    (1, 1, b'D', 0, b'C'),
    (1, 1, b'D', 1, b'C'),
    (1, 1, b'D', 2, b'C'),
    (1, 1, b'D', 3, b'D'),
    (1, 1, b'D', 4, b'C'),
    (1, 1, b'Z', 0, b'C'),
    (1, 1, b'Z', 1, b'C'),
    (1, 1, b'Z', 2, b'C'),
    (1, 1, b'Z', 3, b'Z'),
    (1, 1, b'Z', 4, b'C'),
    (1, 2, b'A', 0, b'E'),
    (1, 2, b'A', 1, b'C'),
    (1, 2, b'A', 2, b'A'),
    (1, 2, b'A', 3, b'L'),
    (1, 2, b'A', 4, b'C'),
    (1, 2, b'D', 0, b'E'),
    (1, 2, b'D', 1, b'C'),
    (1, 2, b'D', 2, b'D'),
    (1, 2, b'D', 3, b'D'),
    (1, 2, b'D', 4, b'C'),
    (1, 2, b'Z', 0, b'E'),
    (1, 2, b'Z', 1, b'C'),
    (1, 2, b'Z', 2, b'Z'),
    (1, 2, b'Z', 3, b'Z'),
    (1, 2, b'Z', 4, b'C'),
    (18446744073709551615, 4294967295, b'A', 0, b'E'),
    (18446744073709551615, 4294967295, b'A', 1, b'B'),
    (18446744073709551615, 4294967295, b'A', 2, b'A'),
    (18446744073709551615, 4294967295, b'A', 3, b'A'),
    (18446744073709551615, 4294967295, b'A', 4, b'A'),
    (18446744073709551615, 4294967295, b'D', 0, b'E'),
    (18446744073709551615, 4294967295, b'D', 1, b'B'),
    (18446744073709551615, 4294967295, b'D', 2, b'D'),
    (18446744073709551615, 4294967295, b'D', 3, b'D'),
    (18446744073709551615, 4294967295, b'D', 4, b'D'),
    (18446744073709551615, 4294967295, b'Z', 0, b'E'),
    (18446744073709551615, 4294967295, b'Z', 1, b'B'),
    (18446744073709551615, 4294967295, b'Z', 2, b'Z'),
    (18446744073709551615, 4294967295, b'Z', 3, b'Z'),
    (18446744073709551615, 4294967295, b'Z', 4, b'Z'),
];

/// The name that is one letter.
fn name(letter: u8) -> NodeId {
    NodeId::from_words((letter as u64) * (1 << 56), 0, 0, 0)
}

/// A set of names, and of inner sets after them.
fn set(
    alloc: Global,
    threshold: u8,
    letters: &[u8],
    inner: Vec<SliceSet>,
) -> Result<SliceSet, AllocError> {
    let mut members = Vec::new(alloc);
    for letter in letters {
        members.push(Member::Node(name(*letter)))?;
    }
    for set in inner {
        members.push(Member::Set(set))?;
    }
    Ok(SliceSet::new(threshold, members))
}

/// A set of nodes that are named by letters.
fn flat(alloc: Global, threshold: u8, letters: &[u8]) -> Result<SliceSet, AllocError> {
    set(alloc, threshold, letters, Vec::new(alloc))
}

/// The slices of the table, by their numbers.
fn tree(alloc: Global, number: usize) -> Result<SliceSet, AllocError> {
    match number {
        0 => {
            let first = flat(alloc, 1, b"CD")?;
            let second = flat(alloc, 2, b"EF")?;
            set(alloc, 2, b"B", vec![in alloc; first, second]?)
        }
        1 => flat(alloc, 3, b"ABCD"),
        2 => {
            let innermost = flat(alloc, 1, b"FGHI")?;
            let middle = set(alloc, 2, b"DE", vec![in alloc; innermost]?)?;
            set(alloc, 1, b"BC", vec![in alloc; middle]?)
        }
        3 => flat(alloc, 1, b"BCDEFGHIJKLMNOPQRSTUVWXY"),
        _ => {
            let first = set(alloc, 1, b"C", vec![in alloc; flat(alloc, 1, b"AB")?]?)?;
            let second = set(alloc, 1, b"D", vec![in alloc; flat(alloc, 1, b"EFG")?]?)?;
            set(alloc, 2, b"", vec![in alloc; first, second]?)
        }
    }
}

#[test]
fn hashes(rt: HostRuntime) {
    for (slot, tag, round, letter, hash) in HASHES.iter().copied() {
        let purpose = if tag == 1 {
            Purpose::Neighbour
        } else {
            Purpose::Priority
        };
        let draw = Draw { slot, round };
        assert_eq!(rt; draw.hash(purpose, &name(letter)), hash);
    }
}

#[test]
fn leaders(rt: HostRuntime) -> Result<(), Fail> {
    let alloc = rt.alloc();
    let mut draws = Draws::new(alloc);
    for (slot, round, letter, number, expected) in LEADERS.iter().copied() {
        let slices = Nested::new(alloc, tree(alloc, number)?)?.expect(
            &rt,
            "slices that keep the rules",
        );
        assert_eq!(rt;
            leader(&mut draws, slot, round, &name(letter), &slices),
            name(expected)
        );
    }
    Ok(())
}

#[test]
fn a_node_that_names_itself_alone_leads_each_round(rt: HostRuntime) -> Result<(), Fail> {
    let alloc = rt.alloc();
    let slices = Nested::new(alloc, flat(alloc, 1, b"A")?)?.expect(
        &rt,
        "slices that keep the rules",
    );
    let mut draws = Draws::new(alloc);
    for round in [1u32, 2, 3, 4, 5, 6, 7, 8, 9, 10, 4294967295] {
        assert_eq!(rt;
            leader(&mut draws, 1, round, &name(b'A'), &slices),
            name(b'A')
        );
    }
    Ok(())
}
