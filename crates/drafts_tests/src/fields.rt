//! `read_field`.

use super::samples::{HOOK, next_place, told};
use packed::{Field, read_field};
use std::test::Fail;

/// A name `ab` at 0, a node at 5 and a switch at 16.
const THREE: &[u8; 20] = b"\x04\x00\x02ab\x01\x00\x08\x01\x02\x03\x04\x05\x06hi\x03\x00\x01\x02";

/// Reference, outer and type of the scope record that the file begins with.
fn scope_of(file: &[u8]) -> Option<(u16, bool, u8)> {
    match read_field(file, 0) {
        Ok((Field::Scope(scope), _)) => {
            let number = scope.value_type.map_or(0, |value_type| value_type as u8);
            Some((scope.reference, scope.outer, number))
        }
        _ => None,
    }
}

/// The number of the switch at `place`.
fn switch_at(file: &[u8], place: usize) -> Option<u8> {
    match read_field(file, place) {
        Ok((Field::Switch(switch), _)) => Some(switch as u8),
        _ => None,
    }
}

/// Whether the file begins with this declared name, and the next field is behind it.
fn begins_with_name(file: &[u8], name: &[u8]) -> bool {
    match read_field(file, 0) {
        Ok((Field::Name(found), next)) => found == name && next.checked_sub(3) == Some(name.len()),
        _ => false,
    }
}

/// Whether the file is one field of no known shape: its tag is the first byte, its payload what follows the first three.
fn is_other(file: &[u8]) -> bool {
    let [first, _, _, rest @ ..] = file else {
        return false;
    };
    match read_field(file, 0) {
        Ok((Field::Other { tag, payload }, next)) => {
            tag == *first && payload == rest && next == file.len()
        }
        _ => false,
    }
}

#[test]
fn nodes(rt: HostRuntime) -> Result<(), Fail> {
    let Ok((Field::Node(node), next)) = read_field(THREE, 5) else {
        return Err(Fail::new("no node"));
    };
    assert_eq!(rt; (node.kind, node.detail), (1, 2));
    assert_eq!(rt; (node.count, node.reference), (0x0304, 0x0506));
    assert_eq!(rt; node.text, b"hi".as_slice());
    assert_eq!(rt; next, 16);
    let Ok((Field::Node(node), next)) = read_field(b"\x01\x00\x06\xff\xfe\xff\xfd\xff\xfc", 0)
    else {
        return Err(Fail::new("no node"));
    };
    assert_eq!(rt; (node.kind, node.detail), (255, 254));
    assert_eq!(rt; (node.count, node.reference), (65_533, 65_532));
    assert!(rt; node.text.is_empty());
    assert_eq!(rt; next, 9);
    Ok(())
}

#[test]
fn scope_records(rt: HostRuntime) {
    for number in 0..=8u8 {
        assert_eq!(rt;
            scope_of(&[2, 0, 4, 1, 2, 1, number]),
            Some((258, true, number))
        );
        assert_eq!(rt;
            scope_of(&[2, 0, 4, 255, 254, 0, number]),
            Some((65_534, false, number))
        );
    }
    assert_eq!(rt;
        scope_of(b"\x02\x00\x04\x00\x00\x00\x00"),
        Some((0, false, 0))
    );
    assert_eq!(rt;
        told(next_place(b"\x02\x00\x04\x00\x01\x00\x00\x03", 0)),
        (0, 7)
    );
}

#[test]
fn switches_and_names(rt: HostRuntime) {
    for number in 1..=3u8 {
        assert_eq!(rt; switch_at(&[3, 0, 1, number], 0), Some(number));
    }
    assert_eq!(rt; switch_at(THREE, 16), Some(2));
    assert_eq!(rt; told(next_place(THREE, 16)), (0, 20));
    assert!(rt; begins_with_name(THREE, b"ab"));
    assert!(rt; begins_with_name(b"\x04\x00\x01\xff", b"\xff"));
    assert!(rt; begins_with_name(b"\x04\x00\x00", b""));
}

#[test]
fn fields_of_no_known_shape(rt: HostRuntime) {
    let files: [&[u8]; 18] = [
        // nodes of too few bytes
        b"\x01\x00\x00",
        b"\x01\x00\x01\x1f",
        b"\x01\x00\x05\x1f\x00\x00\x00\x00",
        // a type of 9 and of 255, outer 2 and 255, a byte too few or too many, none
        b"\x02\x00\x04\x01\x02\x01\x09",
        b"\x02\x00\x04\x01\x02\x01\xff",
        b"\x02\x00\x04\x01\x02\x02\x03",
        b"\x02\x00\x04\x01\x02\xff\x03",
        b"\x02\x00\x03\x01\x02\x01",
        b"\x02\x00\x05\x01\x02\x01\x03\x00",
        b"\x02\x00\x00",
        // switches 0, 4 and 255, two bytes, none
        b"\x03\x00\x01\x00",
        b"\x03\x00\x01\x04",
        b"\x03\x00\x01\xff",
        b"\x03\x00\x02\x01\x01",
        b"\x03\x00\x00",
        // unknown tags
        b"\x00\x00\x00",
        b"\x05\x00\x02ab",
        b"\xff\x00\x06\x1f\x00\x00\x00\x00\x00",
    ];
    for (i, file) in files.iter().enumerate() {
        assert!(rt; is_other(file), "file {i}");
    }
}

#[test]
fn places(rt: HostRuntime) {
    // the fields of the hook, and one that begins within the first: a zero tag and a zero length
    for (place, next) in [
        (0usize, 17usize),
        (17, 26),
        (26, 36),
        (36, 45),
        (45, 54),
        (11, 14),
    ] {
        assert_eq!(rt; told(next_place(HOOK, place)), (0, next));
    }
    for place in [52usize, 53, 54, 55, 65_535, 65_536, usize::MAX] {
        assert_eq!(rt; told(next_place(HOOK, place)), (1, place));
    }
    let cut: [&[u8]; 5] = [b"", b"\x01", b"\x01\x00", b"\x01\x00\x01", b"\x09\x01\x00"];
    for file in cut {
        assert_eq!(rt; told(next_place(file, 0)), (1, 0));
    }
}
