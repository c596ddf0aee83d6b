//! Files, records and small functions that the tests share.

use drafts::{Draft, Record, add};
use packed::{Refusal, read_field};
use std::process::Abort;

/// `1; x++;`: five fields, at 0, 17, 26, 36 and 45, and two lines.
pub const HOOK: &[u8; 54] =
    b"\x01\x00\x0e\x03\x00\x00\x00\x00\x00\x3f\xf0\x00\x00\x00\x00\x00\x00\x01\x00\x06\x33\x00\x00\x01\x00\x00\x01\x00\x07\x01\x00\x00\x00\x00\x00\x78\x01\x00\x06\x08\x00\x00\x01\x00\x00\x01\x00\x06\x33\x00\x00\x01\x00\x00";

/// The hook, and behind it a field of tag 2 at 54, a payload of five bytes at 57, kind 70 at 65, an identifier without name at 74, a sequence without children at 83, and a field at 92 that the file's end cuts.
pub const FAULTS: &[u8; 101] =
    b"\x01\x00\x0e\x03\x00\x00\x00\x00\x00\x3f\xf0\x00\x00\x00\x00\x00\x00\x01\x00\x06\x33\x00\x00\x01\x00\x00\x01\x00\x07\x01\x00\x00\x00\x00\x00\x78\x01\x00\x06\x08\x00\x00\x01\x00\x00\x01\x00\x06\x33\x00\x00\x01\x00\x00\x02\x00\x00\x01\x00\x05\x1f\x00\x00\x00\x00\x01\x00\x06\x46\x00\x00\x00\x00\x00\x01\x00\x06\x01\x00\x00\x00\x00\x00\x01\x00\x06\x0d\x00\x00\x00\x00\x00\x01\x00\x07\x1f\x00\x00\x00\x00\x00";

/// A hole: the smallest field that is a node.
pub const HOLE: &[u8; 9] = b"\x01\x00\x06\x1f\x00\x00\x00\x00\x00";

/// A record without detail and reference.
pub fn record(place: u16, kind: u8, count: u16, span: u16) -> Record {
    Record {
        place,
        kind,
        detail: 0,
        count,
        reference: 0,
        span,
    }
}

/// A record that no field makes.
pub fn strange() -> Record {
    Record {
        place: 9,
        kind: 200,
        detail: 7,
        count: 5,
        reference: 3,
        span: 11,
    }
}

/// The hook's five records, and three strange ones behind them.
pub fn hook_table() -> [Record; 8] {
    [
        record(0, 3, 0, 1),
        record(17, 51, 1, 2),
        record(26, 1, 0, 1),
        record(36, 8, 1, 2),
        record(45, 51, 1, 3),
        strange(),
        strange(),
        strange(),
    ]
}

/// 0 and the answer, or the refusal's number and place. `Err(Refusal { reason: Reason::BadChildren, place: 17 })` for `(6, 17)` would make the tables of cases no plainer.
pub fn told(answer: Result<usize, Refusal>) -> (u8, usize) {
    match answer {
        Ok(next) => (0, next),
        Err(refusal) => (refusal.reason.number(), refusal.place),
    }
}

/// The place of the field behind the one at `place`.
pub fn next_place(file: &[u8], place: usize) -> Result<usize, Refusal> {
    let (_, next) = read_field(file, place)?;
    Ok(next)
}

/// Checks that `add` at each of these places is refused by this number, and leaves the draft and these records as they are.
pub fn check_refused(
    rt: &impl Abort,
    file: &[u8],
    draft: &mut Draft,
    table: &mut [Record],
    records: &[Record],
    cases: &[(u8, usize)],
) {
    let nodes = draft.nodes();
    for case in cases {
        assert_eq!(rt; told(add(file, draft, table, case.1)), *case);
        assert!(rt; draft.nodes() == nodes && *table == *records);
    }
}
