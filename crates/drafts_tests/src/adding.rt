//! Single calls of `add`.

use super::samples::{FAULTS, HOLE, HOOK, check_refused, hook_table, record, strange, told};
use drafts::{Record, add, line_count, open, open_all};
use std::process::Abort;

/// A string field of 18 bytes whose text, at 9, is the field of a hole.
const NESTED: &[u8; 18] =
    b"\x01\x00\x0f\x05\x00\x00\x00\x00\x00\x01\x00\x06\x1f\x00\x00\x00\x00\x00";

/// An identifier with reference 258 at 0, and `~` of it at 10.
const NUMBERED: &[u8; 19] =
    b"\x01\x00\x07\x01\x00\x00\x00\x01\x02\x78\x01\x00\x06\x07\x03\x00\x01\x00\x00";

/// A call of `add`: the place, its answer as `told` has it, and how many nodes and lines there are then.
type Step = (usize, (u8, usize), u16, usize);

/// Opens a draft, takes the steps, and checks what the table then holds.
fn check_steps(
    rt: &impl Abort,
    file: &[u8],
    table: &mut [Record],
    steps: &[Step],
    records: &[Record],
) {
    let mut draft = open();
    for (place, answer, nodes, lines) in steps {
        assert_eq!(rt; told(add(file, &mut draft, table, *place)), *answer);
        assert_eq!(rt; draft.nodes(), *nodes);
        assert_eq!(rt; told(line_count(file, &draft, table)), (0, *lines));
    }
    assert!(rt; *table == *records);
}

#[test]
fn one_field_after_the_other(rt: HostRuntime) {
    let steps = [
        (0, (0, 17), 1, 1),
        (17, (0, 26), 2, 1),
        (26, (0, 36), 3, 2),
        (36, (0, 45), 4, 2),
        (45, (0, 54), 5, 2),
        (54, (1, 54), 5, 2),
        (55, (1, 55), 5, 2),
    ];
    check_steps(&rt, HOOK, &mut [strange(); 8], &steps, &hook_table());
}

#[test]
fn the_same_field_twice(rt: HostRuntime) {
    let steps = [
        (0, (0, 17), 1, 1),
        (0, (0, 17), 2, 2),
        (17, (0, 26), 3, 2),
        (17, (6, 17), 3, 2),
    ];
    let records = [
        record(0, 3, 0, 1),
        record(0, 3, 0, 1),
        record(17, 51, 1, 2),
        strange(),
    ];
    check_steps(&rt, HOOK, &mut [strange(); 4], &steps, &records);
}

#[test]
fn a_field_within_another(rt: HostRuntime) {
    let outer = record(0, 5, 0, 1);
    let inner = record(9, 31, 0, 1);
    let steps = [(0, (0, 18), 1, 1), (9, (0, 18), 2, 2)];
    check_steps(&rt, NESTED, &mut [strange(); 2], &steps, &[outer, inner]);
    let steps = [(9, (0, 18), 1, 1), (0, (0, 18), 2, 2)];
    check_steps(&rt, NESTED, &mut [strange(); 2], &steps, &[inner, outer]);
}

#[test]
fn a_reference_and_a_detail(rt: HostRuntime) {
    let mut operand = record(0, 1, 0, 1);
    operand.reference = 258;
    let mut unary = record(10, 7, 1, 2);
    unary.detail = 3;
    let steps = [(0, (0, 10), 1, 1), (10, (0, 19), 2, 1)];
    check_steps(
        &rt,
        NUMBERED,
        &mut [strange(); 2],
        &steps,
        &[operand, unary],
    );
}

#[test]
fn a_full_table(rt: HostRuntime) {
    let steps = [
        (0, (0, 17), 1, 1),
        (26, (0, 36), 2, 2),
        (0, (7, 0), 2, 2),
        (36, (7, 36), 2, 2),
        (17, (7, 17), 2, 2),
        (10, (2, 10), 2, 2),
        (54, (1, 54), 2, 2),
    ];
    let records = [record(0, 3, 0, 1), record(26, 1, 0, 1)];
    check_steps(&rt, HOOK, &mut [strange(); 2], &steps, &records);
    check_steps(
        &rt,
        HOLE,
        &mut [],
        &[(0, (7, 0), 0, 0), (9, (1, 9), 0, 0)],
        &[],
    );
}

#[test]
fn files_without_fields(rt: HostRuntime) {
    let cases = [(1, 0), (1, 1), (1, 2), (1, 3), (1, 65_535), (1, usize::MAX)];
    check_refused(&rt, b"", &mut open(), &mut [], &[], &cases);
    check_refused(&rt, b"\x01\x00", &mut open(), &mut [], &[], &cases);
}

#[test]
fn a_refused_add_changes_nothing(rt: HostRuntime) {
    let cases = [
        (2, 54),
        (3, 57),
        (4, 65),
        (5, 74),
        (6, 83),
        (1, 92),
        (1, 100),
        (1, 101),
        (1, 102),
        (1, usize::MAX),
    ];
    let mut table = [strange(); 8];
    let mut draft = open_all(FAULTS, &mut table, 0).draft;
    assert_eq!(rt; draft.nodes(), 5);
    check_refused(&rt, FAULTS, &mut draft, &mut table, &hook_table(), &cases);
}

#[test]
fn a_fault_at_a_full_table_keeps_its_number(rt: HostRuntime) {
    let cases = [
        (2, 54),
        (3, 57),
        (4, 65),
        (5, 74),
        (6, 83),
        (1, 92),
        (7, 0),
        (7, 26),
        (6, 36),
    ];
    let mut table = [strange(); 5];
    let mut draft = open_all(FAULTS, &mut table, 0).draft;
    assert_eq!(rt; draft.nodes(), 5);
    let [a, b, c, d, e, ..] = hook_table();
    check_refused(
        &rt,
        FAULTS,
        &mut draft,
        &mut table,
        &[a, b, c, d, e],
        &cases,
    );
}
