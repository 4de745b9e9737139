use line_script::*;
use scp_types::Bytes;
use std::alloc::{AllocError, Global};
use std::process::Abort;
use std::test::Fail;

/// A word, read as a name and printed.
fn printed_name(alloc: Global, word: &[u8]) -> Result<Option<String>, AllocError> {
    let Some(name) = name_of(word) else {
        return Ok(None);
    };
    let mut text = String::new(alloc);
    push_name(&mut text, &name)?;
    Ok(Some(text))
}

/// A word, read as a value and printed.
fn printed_value(alloc: Global, word: &[u8]) -> Result<Option<String>, AllocError> {
    let Some(value) = value_of(alloc, word)? else {
        return Ok(None);
    };
    let mut text = String::new(alloc);
    push_value(&mut text, &value)?;
    Ok(Some(text))
}

/// A word, read as a ballot and printed.
fn printed_ballot(alloc: Global, word: &[u8]) -> Result<Option<String>, AllocError> {
    let Some(ballot) = ballot_of(alloc, word)? else {
        return Ok(None);
    };
    let mut text = String::new(alloc);
    push_ballot(&mut text, &ballot)?;
    Ok(Some(text))
}

/// A word, read as slices and printed.
fn printed_slices(alloc: Global, word: &[u8]) -> Result<Option<String>, AllocError> {
    let Some(slices) = slices_of(alloc, word)? else {
        return Ok(None);
    };
    let mut text = String::new(alloc);
    push_slices(&mut text, &slices)?;
    Ok(Some(text))
}

/// A word, read as a statement and printed.
fn printed_statement(alloc: Global, word: &[u8]) -> Result<Option<String>, AllocError> {
    let Some(statement) = statement_of(alloc, word)? else {
        return Ok(None);
    };
    let mut text = String::new(alloc);
    push_statement(&mut text, &statement)?;
    Ok(Some(text))
}

/// Tests what a word that was read is printed as: `wanted` is empty if it is no such word.
fn answers(
    rt: &impl Abort,
    printed: Result<Option<String>, AllocError>,
    wanted: &str,
) -> Result<(), Fail> {
    match printed? {
        Some(text) => assert_eq!(rt; text.as_str(), wanted),
        None => assert_eq!(rt; "", wanted),
    }
    Ok(())
}

#[test]
fn numbers(rt: HostRuntime) {
    for (word, wanted) in [
        (b"0".as_slice(), Some(0)),
        (b"7".as_slice(), Some(7)),
        (b"4294967295".as_slice(), Some(4294967295)),
        (b"4294967296".as_slice(), Some(4294967296)),
        (
            b"18446744073709551615".as_slice(),
            Some(18446744073709551615),
        ),
        (b"18446744073709551616".as_slice(), None),
        (b"".as_slice(), None),
        (b"00".as_slice(), None),
        (b"03".as_slice(), None),
        (b"+3".as_slice(), None),
        (b"3 ".as_slice(), None),
        (b"3a".as_slice(), None),
    ] {
        assert_eq!(rt; number_of(word), wanted);
    }
    assert_eq!(rt; counter_of(b"4294967295"), Some(4294967295));
    assert_eq!(rt; counter_of(b"4294967296"), None);
}

#[test]
fn names(rt: HostRuntime) -> Result<(), Fail> {
    let a = b"4100000000000000000000000000000000000000000000000000000000000000";
    let zeros = b"0000000000000000000000000000000000000000000000000000000000000000";
    for (word, wanted) in [
        (b"A".as_slice(), "A"),
        (b"a1Z".as_slice(), "a1Z"),
        (b"0".as_slice(), "0"),
        (
            b"01234567890123456789012345678901".as_slice(),
            "01234567890123456789012345678901",
        ),
        (b"012345678901234567890123456789012".as_slice(), ""),
        (b"".as_slice(), ""),
        (b"A-".as_slice(), ""),
        (a.as_slice(), "A"),
        (
            zeros.as_slice(),
            "0000000000000000000000000000000000000000000000000000000000000000",
        ),
        (
            b"4100420000000000000000000000000000000000000000000000000000000000".as_slice(),
            "4100420000000000000000000000000000000000000000000000000000000000",
        ),
        (
            b"41004200000000000000000000000000000000000000000000000000000000FF".as_slice(),
            "",
        ),
    ] {
        answers(&rt, printed_name(rt.alloc(), word), wanted)?;
    }
    assert_eq!(rt; name_of(b"A"), name_of(a));
    Ok(())
}

#[test]
fn values_and_ballots(rt: HostRuntime) -> Result<(), Fail> {
    for (word, wanted) in [
        (b"x".as_slice(), "x"),
        (b"#78".as_slice(), "x"),
        (b"#00ff".as_slice(), "#00ff"),
        (b"#".as_slice(), ""),
        (b"#7".as_slice(), ""),
        (b"#7G".as_slice(), ""),
        (b"#AB".as_slice(), ""),
        (b"".as_slice(), ""),
        (b"x_y".as_slice(), ""),
        ([b'v'; 257].as_slice(), ""),
    ] {
        answers(&rt, printed_value(rt.alloc(), word), wanted)?;
    }
    for (word, wanted) in [
        (b"9:m".as_slice(), "9:m"),
        (b"0:#6d".as_slice(), "0:m"),
        (b"4294967295:x".as_slice(), "4294967295:x"),
        (b"4294967296:x".as_slice(), ""),
        (b"09:m".as_slice(), ""),
        (b"9".as_slice(), ""),
        (b"9:".as_slice(), ""),
        (b":m".as_slice(), ""),
        (b"9:m:m".as_slice(), ""),
    ] {
        answers(&rt, printed_ballot(rt.alloc(), word), wanted)?;
    }
    Ok(())
}

#[test]
fn words_of_slices(rt: HostRuntime) -> Result<(), Fail> {
    for (word, wanted) in [
        (b"1[A]".as_slice(), "1[A]"),
        (b"2[B,1[C,D],2[E,F]]".as_slice(), "2[B,1[C,D],2[E,F]]"),
        (b"1[1[1[A]]]".as_slice(), "1[1[1[A]]]"),
        (b"1[1[1[1[A]]]]".as_slice(), "1[1[1[1[A]]]]"),
        (
            b"1[1[1[1[1[1[1[1[1[A]]]]]]]]]".as_slice(),
            "1[1[1[1[1[1[1[1[1[A]]]]]]]]]",
        ),
        (b"1[1[1[1[1[1[1[1[1[1[A]]]]]]]]]]".as_slice(), ""),
        (b"0[A]".as_slice(), ""),
        (b"2[A]".as_slice(), ""),
        (b"1[A,A]".as_slice(), ""),
        (b"1[]".as_slice(), ""),
        (b"1[A".as_slice(), ""),
        (b"1[A]]".as_slice(), ""),
        (b"1[A,]".as_slice(), ""),
        (b"01[A]".as_slice(), ""),
        (b"257[A]".as_slice(), ""),
        (b"A".as_slice(), ""),
        (b"".as_slice(), ""),
    ] {
        answers(&rt, printed_slices(rt.alloc(), word), wanted)?;
    }
    Ok(())
}

#[test]
fn words_of_statements(rt: HostRuntime) -> Result<(), Fail> {
    for word in [
        "nom(x+y|x)",
        "nom(|x)",
        "nom(|)",
        "prep(9:m,9:m,6,0,0)",
        "prep(8:k,-,0,0,0)",
        "comm(7:x,7,3,1)",
        "ext(3:x,3)",
    ] {
        answers(&rt, printed_statement(rt.alloc(), word.as_bytes()), word)?;
    }
    for word in [
        "",
        "nom(x)",
        "nom(x|y|z)",
        "nom(x+|)",
        "prep(9:m,9:m,6,0)",
        "prep(9:m,9:m,6,0,0,0)",
        "prep(9:m,,6,0,0)",
        "comm(7:x,7,3)",
        "ext(3:x)",
        "ext(3:x,3",
        "EXT(3:x,3)",
        "prep(9:m,-,06,0,0)",
    ] {
        answers(&rt, printed_statement(rt.alloc(), word.as_bytes()), "")?;
    }
    Ok(())
}

#[test]
fn bytes(rt: HostRuntime) -> Result<(), Fail> {
    for (word, wanted) in [
        (b"-".as_slice(), Some(b"".as_slice())),
        (b"00ff".as_slice(), Some([0u8, 255].as_slice())),
        (b"".as_slice(), None),
        (b"0".as_slice(), None),
        (b"0F".as_slice(), None),
        (b"0g".as_slice(), None),
    ] {
        let read = bytes_of(rt.alloc(), word)?;
        match read {
            Some(bytes) => {
                let copy = Bytes::new(bytes).try_copy(rt.alloc())?;
                assert_eq!(rt; Some(copy.as_slice()) == wanted, true)
            }
            None => assert_eq!(rt; wanted.is_none(), true),
        }
    }
    Ok(())
}
