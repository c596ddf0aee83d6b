//! Tables that are not the draft's own.

use super::samples::{FAULTS, HOLE, HOOK, check_refused, hook_table, record, strange, told};
use drafts::{Record, add, line_count, open_all};

/// Two holes.
const HOLES: &[u8; 18] =
    b"\x01\x00\x06\x1f\x00\x00\x00\x00\x00\x01\x00\x06\x1f\x00\x00\x00\x00\x00";

/// What `add` at 0 and `line_count` tell of the hook's draft, with this file and these records.
fn lent(file: &[u8], records: &mut [Record]) -> ((u8, usize), (u8, usize)) {
    let mut own = [strange(); 8];
    let mut draft = open_all(HOOK, &mut own, 0).draft;
    let lines = told(line_count(file, &draft, records));
    (told(add(file, &mut draft, records, 0)), lines)
}

/// Whether both refuse them by 8 and leave the records as they are.
fn is_foreign(file: &[u8], records: [Record; 8]) -> bool {
    let mut table = records;
    lent(file, &mut table) == ((8, 0), (8, file.len())) && table == records
}

#[test]
fn other_files(rt: HostRuntime) {
    assert_eq!(rt; lent(HOOK, &mut hook_table()), ((0, 17), (0, 2)));
    assert_eq!(rt; lent(FAULTS, &mut hook_table()), ((0, 17), (0, 2)));
    assert!(rt; is_foreign(HOLE, hook_table()));
    assert!(rt; is_foreign(b"", hook_table()));
    for at in 0..54usize {
        let mut file = *HOOK;
        file[at] ^= 1;
        // no record depends on which number it is, or which name
        let is_text = (9..=16).contains(&at) || at == 35;
        assert_eq!(rt; is_foreign(&file, hook_table()), !is_text, "byte {at}");
    }
}

#[test]
fn one_number_of_a_record(rt: HostRuntime) {
    for node in 0..5usize {
        for field in 0..6u8 {
            let mut table = hook_table();
            // one arm for each field: six closures in an array would be as long
            match field {
                0 => table[node].place = 1,
                1 => table[node].kind ^= 1,
                2 => table[node].detail = 1,
                3 => table[node].count ^= 1,
                4 => table[node].reference = 1,
                _ => table[node].span ^= 2,
            }
            assert!(rt; is_foreign(HOOK, table), "node {node}, field {field}");
        }
    }
}

#[test]
fn other_places(rt: HostRuntime) {
    for place in [9u16, 17, 26, 54, 55, 65_535] {
        let mut table = hook_table();
        table[0].place = place;
        assert!(rt; is_foreign(HOOK, table));
    }
    // the statements at 17 and at 45 are written alike, so that either may have come from the other's place
    let mut table = hook_table();
    table[1].place = 45;
    table[4].place = 17;
    assert_eq!(rt; lent(HOOK, &mut table), ((0, 17), (0, 2)));
}

#[test]
fn swapped_records(rt: HostRuntime) {
    for (a, b) in [
        (0usize, 1usize),
        (0, 2),
        (1, 2),
        (2, 3),
        (3, 4),
        (0, 4),
        (4, 5),
    ] {
        let mut table = hook_table();
        if a < 8 && b < 8 {
            table.swap(a, b);
        }
        assert!(rt; is_foreign(HOOK, table), "records {a} and {b}");
    }
}

#[test]
fn holes_in_any_order(rt: HostRuntime) {
    for (first, second) in [(0u16, 9u16), (9, 0), (9, 9), (0, 0)] {
        let mut own = [strange(); 2];
        let mut draft = open_all(HOLES, &mut own, 0).draft;
        let mut table = [record(first, 31, 0, 1), record(second, 31, 0, 1), strange()];
        assert_eq!(rt; told(add(HOLES, &mut draft, &mut table, 9)), (0, 18));
    }
}

#[test]
fn short_tables(rt: HostRuntime) {
    for length in 0..5usize {
        assert_eq!(rt; lent(HOOK, &mut hook_table()[0..length]), ((8, 0), (8, 54)));
    }
    assert_eq!(rt; lent(HOOK, &mut hook_table()[0..5]), ((7, 0), (0, 2)));
    assert_eq!(rt; lent(HOOK, &mut hook_table()[0..6]), ((0, 17), (0, 2)));
}

#[test]
fn a_foreign_table_comes_before_a_fault(rt: HostRuntime) {
    let cases = [
        (8, 0),
        (8, 36),
        (8, 54),
        (8, 57),
        (8, 65),
        (8, 74),
        (8, 83),
        (8, 92),
        (8, 101),
        (8, usize::MAX),
    ];
    let mut own = [strange(); 8];
    let mut draft = open_all(FAULTS, &mut own, 0).draft;
    let mut table = hook_table();
    table[3].span = 1;
    let records = table;
    check_refused(&rt, FAULTS, &mut draft, &mut table, &records, &cases);
}
