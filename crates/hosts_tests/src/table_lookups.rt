//! What a table host answers by its scope records.

use super::samples::{Row, ask, memory, scope_field};
use hosts::TableHost;
use std::alloc::{AllocError, Global};
use std::process::Abort;
use std::test::Fail;

/// A file of scope records.
fn file_of(heap: Global, rows: &[Row]) -> Result<Vec<u8>, AllocError> {
    let mut file = Vec::new(heap);
    for row in rows {
        file.extend_from_slice(&scope_field(*row))?;
    }
    Ok(file)
}

/// Checks what a table host answers of each reference, whatever the name is.
fn check_asked(rt: &impl Abort, host: &TableHost, asked: &[Row]) {
    for (reference, outer, number) in asked {
        for name in ["", "x", "Object"] {
            let found = ask(host, name.as_bytes(), *reference);
            assert_eq!(rt; found, (*outer, *number), "reference {reference}");
        }
    }
}

/// Makes the table host of these records, and checks what it answers of each reference.
fn check_rows(rt: &impl Abort, heap: Global, rows: &[Row], asked: &[Row]) -> Result<(), Fail> {
    let file = file_of(heap, rows)?;
    let (host, place) = TableHost::make(&file, memory(heap, rows.len())?)?;
    assert_eq!(rt; (place, host.records()), (file.len(), rows.len()));
    check_asked(rt, &host, asked);
    Ok(())
}

#[test]
fn few_records(rt: HostRuntime) -> Result<(), Fail> {
    let heap = rt.alloc();
    let asked = [
        (0, true, 0),
        (1, true, 0),
        (256, true, 0),
        (65_535, true, 0),
    ];
    check_rows(&rt, heap, &[], &asked)?;
    let asked = [
        (0, true, 0),
        (1, true, 0),
        (257, true, 0),
        (258, false, 3),
        (259, true, 0),
        (513, true, 0),
        (65_535, true, 0),
    ];
    check_rows(&rt, heap, &[(258, false, 3)], &asked)?;
    let asked = [
        (0, true, 0),
        (1, false, 1),
        (2, true, 0),
        (256, true, 0),
        (65_534, true, 0),
        (65_535, true, 2),
    ];
    check_rows(&rt, heap, &[(1, false, 1), (65_535, true, 2)], &asked)?;
    let asked = [
        (0, true, 0),
        (6, true, 0),
        (7, true, 8),
        (8, false, 0),
        (9, true, 0),
    ];
    check_rows(&rt, heap, &[(7, true, 8), (8, false, 0)], &asked)
}

#[test]
fn gaps_between_records(rt: HostRuntime) -> Result<(), Fail> {
    let rows = [
        (3, false, 1),
        (4, true, 7),
        (300, false, 5),
        (301, true, 2),
        (40_000, false, 8),
    ];
    let asked = [
        (0, true, 0),
        (1, true, 0),
        (2, true, 0),
        (3, false, 1),
        (4, true, 7),
        (5, true, 0),
        (44, true, 0),
        (299, true, 0),
        (300, false, 5),
        (301, true, 2),
        (302, true, 0),
        (39_999, true, 0),
        (40_000, false, 8),
        (40_001, true, 0),
        (65_535, true, 0),
    ];
    check_rows(&rt, rt.alloc(), &rows, &asked)
}

#[test]
fn each_type(rt: HostRuntime) -> Result<(), Fail> {
    for outer in [false, true] {
        for number in 0..=8u8 {
            let asked = [(8, true, 0), (9, outer, number), (10, true, 0)];
            check_rows(&rt, rt.alloc(), &[(9, outer, number)], &asked)?;
        }
    }
    Ok(())
}

/// What a file with a record for each multiple of 7 says of a reference.
fn row_by_sevens(reference: u16) -> Row {
    if reference == 0 || reference % 7 != 0 {
        return (reference, true, 0);
    }
    (reference, reference % 2 == 0, (reference % 9) as u8)
}

/// A file with a record for each multiple of 7: 9,362 records, of 65,534 bytes.
fn file_by_sevens(heap: Global) -> Result<Vec<u8>, AllocError> {
    let mut file = Vec::new(heap);
    for i in 1..=9_362u16 {
        file.extend_from_slice(&scope_field(row_by_sevens(i.wrapping_mul(7))))?;
    }
    Ok(file)
}

#[test]
fn every_reference_of_a_long_table(rt: HostRuntime) -> Result<(), Fail> {
    let heap = rt.alloc();
    let file = file_by_sevens(heap)?;
    let (host, place) = TableHost::make(&file, memory(heap, 9_362)?)?;
    assert_eq!(rt; (place, host.records()), (65_534, 9_362));
    for reference in 0..=u16::MAX {
        check_asked(&rt, &host, &[row_by_sevens(reference)]);
    }
    Ok(())
}
