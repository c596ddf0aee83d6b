//! `open_all`, and `line_count` behind it.

use super::samples::{FAULTS, HOLE, HOOK, hook_table, record, strange, told};
use drafts::{Opened, Record, add, line_count, open_all};
use std::process::Abort;

/// How many nodes were added, the place where it ended, and the refusal's number and place, twice 0 for none; see `told`.
type End = (u16, usize, (u8, usize));

/// Opens a draft of the fields from `place` on, and answers how it ended.
fn opened(file: &[u8], table: &mut [Record], place: usize) -> End {
    let Opened {
        draft,
        place,
        outcome,
    } = open_all(file, table, place);
    (draft.nodes(), place, told(outcome.map(|()| 0)))
}

/// Checks how `open_all` ends from each of these places, and what the table holds in the end.
fn check_ends(
    rt: &impl Abort,
    file: &[u8],
    table: &mut [Record],
    cases: &[(usize, End)],
    records: &[Record],
) {
    for (place, end) in cases {
        assert_eq!(rt; opened(file, table, *place), *end);
    }
    assert!(rt; *table == *records);
}

#[test]
fn from_each_place(rt: HostRuntime) {
    let cases = [
        (54, (0, 54, (0, 0))),
        (10, (0, 10, (2, 10))),
        (17, (0, 17, (6, 17))),
        (36, (0, 36, (6, 36))),
        (52, (0, 52, (1, 52))),
        (55, (0, 55, (1, 55))),
        (65_536, (0, 65_536, (1, 65_536))),
        (usize::MAX, (0, usize::MAX, (1, usize::MAX))),
        (26, (3, 54, (0, 0))),
    ];
    let records = [
        record(26, 1, 0, 1),
        record(36, 8, 1, 2),
        record(45, 51, 1, 3),
        strange(),
    ];
    check_ends(&rt, HOOK, &mut [strange(); 4], &cases, &records);
    check_ends(
        &rt,
        HOOK,
        &mut [strange(); 8],
        &[(0, (5, 54, (0, 0)))],
        &hook_table(),
    );
}

#[test]
fn a_refusal_keeps_what_was_added(rt: HostRuntime) {
    let cases = [
        (0, (5, 54, (2, 54))),
        (57, (0, 57, (3, 57))),
        (65, (0, 65, (4, 65))),
        (74, (0, 74, (5, 74))),
        (83, (0, 83, (6, 83))),
        (92, (0, 92, (1, 92))),
        (101, (0, 101, (0, 0))),
    ];
    check_ends(&rt, FAULTS, &mut [strange(); 8], &cases, &hook_table());
}

#[test]
fn a_full_table_stops_it(rt: HostRuntime) {
    let [a, b, c, d, e, ..] = hook_table();
    let cases = [(26, (2, 45, (7, 45))), (0, (2, 26, (7, 26)))];
    check_ends(&rt, HOOK, &mut [strange(); 2], &cases, &[a, b]);
    let cases = [(0, (5, 54, (2, 54)))];
    check_ends(&rt, FAULTS, &mut [strange(); 5], &cases, &[a, b, c, d, e]);
    check_ends(
        &rt,
        HOLE,
        &mut [],
        &[(0, (0, 0, (7, 0))), (9, (0, 9, (0, 0)))],
        &[],
    );
    check_ends(
        &rt,
        b"",
        &mut [],
        &[(0, (0, 0, (0, 0))), (1, (0, 1, (1, 1)))],
        &[],
    );
}

#[test]
fn single_adds_go_on(rt: HostRuntime) {
    let mut table = [strange(); 8];
    let mut draft = open_all(HOOK, &mut table, 26).draft;
    assert_eq!(rt; told(line_count(HOOK, &draft, &table)), (0, 1));
    assert_eq!(rt; told(add(HOOK, &mut draft, &mut table, 0)), (0, 17));
    assert_eq!(rt; told(line_count(HOOK, &draft, &table)), (0, 2));
    assert_eq!(rt; told(add(HOOK, &mut draft, &mut table, 17)), (0, 26));
    assert_eq!(rt; told(line_count(HOOK, &draft, &table)), (0, 2));
    assert_eq!(rt; told(line_count(b"", &draft, &table)), (8, 0));
    assert_eq!(rt; draft.nodes(), 5);
}
