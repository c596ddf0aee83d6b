//! The longest files and the largest drafts.

use super::samples::{HOLE, next_place, record, strange, told};
use drafts::{Draft, Record, add, line_count, open, open_all};
use std::alloc::{AllocError, Global};
use std::process::Abort;
use std::test::Fail;

/// A file of 65,535 bytes: one string node, whose text ends with the field of a hole.
fn longest_file(heap: Global) -> Result<Vec<u8>, AllocError> {
    let mut file = Vec::from_slice(heap, b"\x01\xff\xfc\x05\x00\x00\x00\x00\x00")?;
    for _ in 0..65_517u16 {
        file.push(b'a')?;
    }
    file.extend_from_slice(HOLE)?;
    Ok(file)
}

#[test]
fn the_longest_file(rt: HostRuntime) -> Result<(), Fail> {
    let file = longest_file(rt.alloc())?;
    assert_eq!(rt; told(next_place(&file, 0)), (0, 65_535));
    let mut table = [strange(); 3];
    let mut draft = open_all(&file, &mut table, 0).draft;
    assert_eq!(rt; draft.nodes(), 1);
    assert_eq!(rt;
        told(add(&file, &mut draft, &mut table, 65_526)),
        (0, 65_535)
    );
    assert_eq!(rt;
        told(add(&file, &mut draft, &mut table, 65_535)),
        (1, 65_535)
    );
    assert_eq!(rt; told(line_count(&file, &draft, &table)), (0, 2));
    assert!(rt; table == [record(0, 5, 0, 1), record(65_526, 31, 0, 1), strange()]);
    Ok(())
}

/// Checks that each call refuses the file by 7 at 65535, before it looks at the table or the place.
fn check_too_long(
    rt: &impl Abort,
    file: &[u8],
    draft: &mut Draft,
    table: &mut [Record],
    place: usize,
) -> Result<(), Fail> {
    assert_eq!(rt; told(next_place(file, place)), (7, 65_535));
    assert_eq!(rt; told(add(file, draft, table, place)), (7, 65_535));
    assert_eq!(rt; told(line_count(file, draft, table)), (7, 65_535));
    let opened = open_all(file, table, place);
    assert_eq!(rt; told(opened.outcome.map(|()| 0)), (7, 65_535));
    assert_eq!(rt; (opened.draft.nodes(), opened.place), (0, place));
    Ok(())
}

#[test]
fn a_file_that_is_too_long(rt: HostRuntime) -> Result<(), Fail> {
    let mut file = longest_file(rt.alloc())?;
    let mut table = [strange(); 2];
    let mut draft = open_all(&file, &mut table, 0).draft;
    file.push(b'a')?;
    for place in [0usize, 9, 65_535, 65_536, usize::MAX] {
        check_too_long(&rt, &file, &mut draft, &mut [], place)?;
    }
    check_too_long(&rt, &file, &mut draft, &mut table, 0)?;
    assert!(rt; table == [record(0, 5, 0, 1), strange()]);
    assert_eq!(rt; draft.nodes(), 1);
    Ok(())
}

/// Adds the field at 0, a hole, so many times, and then the one at 9, a call that takes them all; there is no room for more.
fn check_large(rt: &impl Abort, file: &[u8], table: &mut [Record], holes: u16) -> Result<(), Fail> {
    let mut draft = open();
    for _ in 0..holes {
        assert_eq!(rt; told(add(file, &mut draft, table, 0)), (0, 9));
    }
    assert_eq!(rt; told(line_count(file, &draft, table)), (0, holes as usize));
    assert_eq!(rt; told(add(file, &mut draft, table, 9)), (0, 18));
    assert_eq!(rt; told(line_count(file, &draft, table)), (0, 1));
    assert_eq!(rt; told(add(file, &mut draft, table, 0)), (7, 0));
    assert_eq!(rt; told(add(file, &mut draft, table, 18)), (1, 18));
    let Some(call) = table.get(holes as usize) else {
        return Err(Fail::new("no record of the call"));
    };
    assert_eq!(rt; (call.place, call.kind, call.count), (9, 23, holes));
    assert_eq!(rt; call.span, draft.nodes());
    Ok(())
}

/// It takes some half a minute, since each `add` looks at all nodes before it.
#[test]
fn the_largest_draft(rt: HostRuntime) -> Result<(), Fail> {
    let file = b"\x01\x00\x06\x1f\x00\x00\x00\x00\x00\x01\x00\x06\x17\x00\xff\xfe\x00\x00";
    let mut table = vec![in rt.alloc(); Record::default(); 65_537]?;
    check_large(&rt, file, &mut table, 65_534)
}
