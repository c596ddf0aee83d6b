//! Small functions that the tests share.

use hosts::{GlobalContext, MayHaveSideEffectsContext, PropertyReadSideEffects, counted};
use packed::{Refusal, Scope};
use std::alloc::{AllocError, Global};
use std::process::Abort;
use std::test::Fail;

/// What a scope record says: a reference, whether it is outer, and the number of its type, 0 for none.
pub type Row = (u16, bool, u8);

/// A question and its answer: a name and a reference, then whether it is outer, and the number of its type, 0 for none.
pub type Answer<'a> = (&'a [u8], u16, (bool, u8));

/// The field of a scope record.
pub fn scope_field(row: Row) -> [u8; 7] {
    let (reference, outer, number) = row;
    let [high, low] = reference.to_be_bytes();
    [2, 0, 4, high, low, u8::from(outer), number]
}

/// The bytes of both, one behind the other.
pub fn joined(heap: Global, first: &[u8], second: &[u8]) -> Result<Vec<u8>, AllocError> {
    let mut bytes = first.to_vec(heap)?;
    bytes.extend_from_slice(second)?;
    Ok(bytes)
}

/// Memory for so many scope records, and no more.
pub fn memory(heap: Global, records: usize) -> Result<Vec<Scope>, AllocError> {
    let mut memory = Vec::new(heap);
    memory.reserve_exact(records)?;
    Ok(memory)
}

/// The refusal's number and place. `Refusal { reason: Reason::BadScope, place: 7 }` for `(13, 7)` would make the tables of cases no plainer.
pub fn told(refusal: Refusal) -> (u8, usize) {
    (refusal.reason.number(), refusal.place)
}

/// 0, the place answered and how much the host holds; or the refusal's number and place, and 0. They are numbers for the reason that `told` gives.
pub type Made = (u8, usize, usize);

/// What making a host gave: the place answered and how much the host holds, or the refusal.
pub fn made(answer: Result<(usize, usize), Refusal>) -> Made {
    match answer {
        Ok((place, held)) => (0, place, held),
        Err(refusal) => {
            let (number, place) = told(refusal);
            (number, place, 0)
        }
    }
}

/// What a host answers of a name and a reference: whether it is outer, and the number of its type.
pub fn ask<C: GlobalContext>(host: &C, name: &[u8], reference: u16) -> (bool, u8) {
    let outer = host.is_global_reference(name, reference);
    let value_type = host.value_type_for_reference_id(reference);
    (outer, value_type.map_or(0, |value_type| value_type as u8))
}

/// Checks what a host answers to each question.
pub fn check_answers<C: GlobalContext>(rt: &impl Abort, host: &C, answers: &[Answer<'_>]) {
    for (name, reference, answer) in answers {
        let found = ask(host, name, *reference);
        assert_eq!(rt; found, *answer, "{name:?}, reference {reference}");
    }
}

/// Checks which switches a host counts: property reads, property writes and unknown globals. A failure names the step's number, 0 for none.
pub fn check_switches<C: MayHaveSideEffectsContext>(
    rt: &impl Abort,
    host: &C,
    switches: (bool, bool, bool),
    step: u8,
) {
    let reads = host.property_read_side_effects() == PropertyReadSideEffects::All;
    let writes = host.property_write_side_effects();
    let globals = host.unknown_global_side_effects();
    assert_eq!(rt; (reads, writes, globals), switches, "by {step}");
    let all = counted(host);
    assert_eq!(rt;
        (all.reads, all.writes, all.unknown_globals),
        switches,
        "by {step}"
    );
}
