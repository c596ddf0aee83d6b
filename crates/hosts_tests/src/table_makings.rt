//! Making a table host, and how it is refused.

use super::samples::{Made, ask, joined, made, memory};
use hosts::TableHost;
use packed::{Scope, ValueType};
use std::alloc::{AllocError, Global};
use std::process::Abort;
use std::test::Fail;

/// A record of the reference 257.
const RECORD: &[u8; 7] = b"\x02\x00\x04\x01\x01\x00\x00";

/// Records of the references 2, 5 and 9, at 0, 7 and 14.
const THREE: &[u8; 21] =
    b"\x02\x00\x04\x00\x02\x00\x00\x02\x00\x04\x00\x05\x00\x00\x02\x00\x04\x00\x09\x00\x00";

/// Makes the table host of a file, with room for so many records, and answers how many it has.
fn make(heap: Global, file: &[u8], room: usize) -> Result<Made, AllocError> {
    let answer = TableHost::make(file, memory(heap, room)?);
    Ok(made(answer.map(|(host, place)| (place, host.records()))))
}

/// Checks what making a table host of these fields gives, each time with other fields behind them.
fn check_made(
    rt: &impl Abort,
    heap: Global,
    first: &[u8],
    room: usize,
    made: Made,
    others: &[&[u8]],
) -> Result<(), Fail> {
    for more in others {
        let file = joined(heap, first, more)?;
        assert_eq!(rt; make(heap, &file, room)?, made, "room {room}, {more:?}");
    }
    Ok(())
}

#[test]
fn full_tables(rt: HostRuntime) -> Result<(), Fail> {
    let heap = rt.alloc();
    check_made(&rt, heap, THREE, 0, (7, 0, 0), &[b""])?;
    check_made(&rt, heap, THREE, 1, (7, 7, 0), &[b""])?;
    check_made(&rt, heap, THREE, 2, (7, 14, 0), &[b""])?;
    check_made(&rt, heap, THREE, 3, (0, 21, 3), &[b""])?;
    check_made(&rt, heap, THREE, 4, (0, 21, 3), &[b""])?;
    // a fourth record behind a switch, and behind a switch and a node
    let record = b"\x03\x00\x01\x01\x02\x00\x04\x00\x0a\x00\x00";
    check_made(&rt, heap, THREE, 3, (7, 25, 0), &[record])?;
    let record = b"\x03\x00\x01\x01\x01\x00\x00\x02\x00\x04\x00\x0a\x00\x00";
    check_made(&rt, heap, THREE, 3, (0, 25, 3), &[record])
}

/// Memory for two records, which holds two of them.
fn used_memory(heap: Global) -> Result<Vec<Scope>, AllocError> {
    let mut memory = memory(heap, 2)?;
    for reference in [257u16, 6] {
        memory.push(Scope {
            reference,
            outer: false,
            value_type: Some(ValueType::Null),
        })?;
    }
    Ok(memory)
}

#[test]
fn memory_that_was_used(rt: HostRuntime) -> Result<(), Fail> {
    let (host, place) = TableHost::make(RECORD, used_memory(rt.alloc())?)?;
    assert_eq!(rt; (place, host.records()), (7, 1));
    assert_eq!(rt; ask(&host, b"x", 257), (false, 0));
    assert_eq!(rt; ask(&host, b"x", 6), (true, 0));
    Ok(())
}

#[test]
fn files_that_are_too_long(rt: HostRuntime) -> Result<(), Fail> {
    let heap = rt.alloc();
    // whatever stands first, a node or a fault
    for byte in [0u8, 1, 2, 3, 4] {
        let file = vec![in heap; byte; 65_536]?;
        check_made(&rt, heap, &file, 1, (7, 65_535, 0), &[b"", b"\x01"])?;
    }
    Ok(())
}
