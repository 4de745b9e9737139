use scp_codec::*;
use scp_types::{Ballot, Envelope, Member, Nested, NodeId, SliceSet, Statement, Value};
use std::alloc::Global;
use std::process::Abort;
use std::test::*;

// What no clause says: that the calls answer if there is memory, and the texts of the errors. What each kind of bytes
// is answered with, cut, lengthened and changed, stands under `cases/table`, and at its limits in `tools/limits`.

// The envelope of a PREPARE by the node whose name begins with `B`: slot 1, one of itself, ballot 9:m,
// prepared 9:m, all below 6 aborted, nothing confirmed. Worked out by hand from the format.
const FIRST: &[u8] = &[
    1, 2, // version, kind
    0x42, 0, 0, 0, 0, 0, 0, 0, 0, 0, 0, 0, 0, 0, 0, 0, 0, 0, 0, 0, 0, 0, 0, 0, 0, 0, 0, 0, 0, 0, 0,
    0, 0, 0, 0, 0, 0, 0, 0, 1, // slot
    1, 1, 0, // one of one, a name
    0x42, 0, 0, 0, 0, 0, 0, 0, 0, 0, 0, 0, 0, 0, 0, 0, 0, 0, 0, 0, 0, 0, 0, 0, 0, 0, 0, 0, 0, 0, 0,
    0, 0, 0, 0, 9, 0, 1, 0x6d, // ballot
    1, 0, 0, 0, 9, 0, 1, 0x6d, // prepared
    0, 0, 0, 6, 0, 0, 0, 0, 0, 0, 0, 0, // counters
];

/// The envelope of `FIRST`, of its parts.
fn first_of_parts(alloc: Global) -> Result<Envelope, Fail> {
    let name = NodeId::from_words(0x42 << 56, 0, 0, 0);
    let mut members = Vec::new(alloc);
    members.push(Member::Node(name))?;
    let slices = Nested::new(alloc, SliceSet::new(1, members))?.ok_or("they keep the rules")?;
    let ballot = Ballot {
        counter: 9,
        value: Value::new(alloc, b"m")?.ok_or("it is a value")?,
    };
    let prepared = ballot.try_copy()?;
    let body = Statement::Prepare {
        ballot,
        prepared: Some(prepared),
        aborted_counter: 6,
        high_counter: 0,
        commit_counter: 0,
    };
    Ok(Envelope::new(name, 1, slices, body).ok_or("it is well formed")?)
}

#[test]
fn encoded_where_there_is_memory(rt: HostRuntime) -> Result<(), Fail> {
    let alloc = rt.alloc();
    let envelope = first_of_parts(alloc)?;
    assert_eq!(rt; encode(alloc, &envelope)?.as_slice(), FIRST);
    Ok(())
}

#[test]
fn decoded_where_there_is_memory(rt: HostRuntime) -> Result<(), Fail> {
    let alloc = rt.alloc();
    let envelope = decode(alloc, FIRST).ok().ok_or("it is an envelope")?;
    assert_eq!(rt; encode(alloc, &envelope)?.as_slice(), FIRST);
    Ok(())
}

#[test]
fn round_where_there_is_memory(rt: HostRuntime) -> Result<(), Fail> {
    let alloc = rt.alloc();
    let envelope = first_of_parts(alloc)?;
    let decoded = round_trip(alloc, &envelope).ok().ok_or("there is memory")?;
    assert_eq!(rt; encode(alloc, &decoded)?.as_slice(), FIRST);
    Ok(())
}

#[test]
fn printed_errors(rt: HostRuntime) -> Result<(), Fail> {
    let alloc = rt.alloc();
    let cases = [
        (
            CodecError::Fault(Fault::Truncated),
            1,
            "the bytes end inside an envelope",
        ),
        (
            CodecError::Fault(Fault::TrailingBytes),
            2,
            "there are bytes after the envelope",
        ),
        (
            CodecError::Fault(Fault::Version),
            3,
            "the version is neither 1 nor 2",
        ),
        (
            CodecError::Fault(Fault::Kind),
            4,
            "the kind of statement is not 1 to 4",
        ),
        (
            CodecError::Fault(Fault::Limit),
            5,
            "something is longer than its limit",
        ),
        (
            CodecError::Fault(Fault::BadSlices),
            6,
            "the slices break a rule",
        ),
        (
            CodecError::Fault(Fault::BadStatement),
            7,
            "the statement breaks a rule of its kind",
        ),
        (CodecError::NoMemory, 8, "memory is wanting"),
        (
            CodecError::Fault(Fault::SpareVersion),
            9,
            "the slices are spelled in version 1",
        ),
    ];
    for (error, number, text) in cases {
        assert_eq!(rt; error.number(), number);
        assert_eq!(rt; format!(in alloc; "{error}")?.as_str(), text);
    }
    Ok(())
}
