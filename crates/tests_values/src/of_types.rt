//! Values and ballots, made and copied.

use scp_types::{Ballot, LentBallot, LentStatement, Statement, Value, copy_of, statement_of};
use std::alloc::Global;
use std::process::Abort;
use std::test::Fail;

/// The value of these bytes.
fn value(alloc: Global, bytes: &[u8]) -> Result<Value, Fail> {
    Ok(Value::new(alloc, bytes)?.ok_or("value")?)
}

#[test]
fn values_have_1_to_256_bytes(rt: HostRuntime) -> Result<(), Fail> {
    let alloc = rt.alloc();
    let bytes = [7u8; 257];
    assert!(rt; Value::new(alloc, &[])?.is_none());
    assert!(rt; Value::new(alloc, &bytes)?.is_none());
    let longest = value(alloc, &bytes[..256])?;
    assert!(rt; longest.as_bytes() == &bytes[..256]);
    Ok(())
}

#[test]
fn copies_share_a_value(rt: HostRuntime) -> Result<(), Fail> {
    let alloc = rt.alloc();
    let ballot = Ballot {
        counter: 3,
        value: value(alloc, b"x")?,
    };
    let copy = ballot.try_copy()?;
    assert!(rt; copy.is_same(&ballot));
    let next = ballot.at(4)?;
    assert!(rt; next.counter == 4 && next.value.as_bytes() == b"x".as_slice());
    assert!(rt; copy_of(&None)?.is_none());
    assert!(rt; copy_of(&Some(next))?.is_some());
    Ok(())
}

#[test]
fn lent_statements_are_copied(rt: HostRuntime) -> Result<(), Fail> {
    let alloc = rt.alloc();
    let ballot = Ballot {
        counter: 3,
        value: value(alloc, b"x")?,
    };
    let lent = LentStatement::externalize(LentBallot::of(&ballot), 5);
    let copy = statement_of(&Some(lent))?.ok_or("statement")?;
    let expected = Statement::Externalize {
        commit: ballot.try_copy()?,
        high_counter: 5,
    };
    assert!(rt; copy.is_same(&expected));
    Ok(())
}
