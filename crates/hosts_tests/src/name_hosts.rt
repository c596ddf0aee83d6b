//! Making a name host, and what it answers.

use super::samples::{Made, check_answers, made};
use hosts::NameHost;
use std::alloc::{AllocError, Global};
use std::process::Abort;
use std::test::Fail;

/// Makes the name host of a file, and answers how many names it has.
fn make(file: &[u8]) -> Made {
    made(NameHost::make(file).map(|(host, place)| (place, host.names())))
}

/// Checks that the name host of a file holds so many names, declares the first and not the others, whatever their references are, and knows no type.
fn check_names(
    rt: &impl Abort,
    file: &[u8],
    count: usize,
    declared: &[&str],
    others: &[&[u8]],
) -> Result<(), Fail> {
    let (host, _) = NameHost::make(file)?;
    assert_eq!(rt; host.names(), count);
    for reference in [0u16, 1, 256, 65_535] {
        for name in declared {
            check_answers(rt, &host, &[(name.as_bytes(), reference, (false, 0))]);
        }
        for name in others {
            check_answers(rt, &host, &[(name, reference, (true, 0))]);
        }
    }
    Ok(())
}

#[test]
fn declared_names(rt: HostRuntime) -> Result<(), Fail> {
    // no fields, a node alone
    let files: [&[u8]; 2] = [b"", b"\x01\x00\x00"];
    for file in files {
        assert_eq!(rt; make(file), (0, 0, 0));
        check_names(&rt, file, 0, &[], &[b"", b"a", b"Object"])?;
    }
    // what begins or ends like `abc`, or is written another way, is not declared
    let others: [&[u8]; 8] = [b"", b"a", b"ab", b"abcd", b"bc", b"c", b"Abc", b"abc\x00"];
    check_names(&rt, b"\x04\x00\x03abc", 1, &["abc"], &others)?;
    // `ab`, `b`, a switch, and `ab` again
    let file = b"\x04\x00\x02ab\x04\x00\x01b\x03\x00\x01\x02\x04\x00\x02ab";
    let others: [&[u8]; 5] = [b"", b"a", b"abb", b"bab", b"\x04\x00\x01b"];
    assert_eq!(rt; make(file), (0, 18, 3));
    check_names(&rt, file, 3, &["ab", "b"], &others)?;
    // a name of one zero byte
    check_names(
        &rt,
        b"\x04\x00\x01\x00",
        1,
        &["\0"],
        &[b"", b"\x00\x00", b"0"],
    )
}

#[test]
fn names_behind_the_first_node(rt: HostRuntime) -> Result<(), Fail> {
    // `x`; a node whose text is the field of a name `y`; a name `z`
    let hook = b"\x04\x00\x01x\x01\x00\x0a\x05\x00\x00\x00\x00\x00\x04\x00\x01y\x04\x00\x01z";
    check_names(&rt, hook, 1, &["x"], &[b"y", b"z", b""])?;
    // `x`; a node of too few bytes; `y`, names that are refused before a node, a cut field
    let faults = b"\x04\x00\x01x\x01\x00\x01\x1f\x04\x00\x01y\x04\x00\x00\x04\x00\x01\xff\x04";
    check_names(&rt, faults, 1, &["x"], &[b"y", b"", b"\xff"])?;
    assert_eq!(rt; (make(hook), make(faults)), ((0, 4, 1), (0, 4, 1)));
    Ok(())
}

/// A file that declares these names, each of at most 65,535 bytes.
fn file_of(heap: Global, names: &[&str]) -> Result<Vec<u8>, AllocError> {
    let mut file = Vec::new(heap);
    for name in names {
        let [high, low] = u16::try_from(name.len()).unwrap_or(u16::MAX).to_be_bytes();
        file.extend_from_slice(&[4, high, low])?;
        file.extend_from_slice(name.as_bytes())?;
    }
    Ok(file)
}

#[test]
fn names_of_several_bytes(rt: HostRuntime) -> Result<(), Fail> {
    let names = [
        "é",
        "ñ",
        "日本",
        "日",
        "𝒳y",
        "\u{7ff}",
        "\u{d7ff}",
        "\u{e000}",
        "\u{10ffff}",
    ];
    // the first byte of `é`, `日` without its last byte, other names
    let others: [&[u8]; 4] = [b"\xc3", b"\xe6\x97", b"e", b"\xc3\xa8"];
    let file = file_of(rt.alloc(), &names)?;
    check_names(&rt, &file, 9, &names, &others)
}
