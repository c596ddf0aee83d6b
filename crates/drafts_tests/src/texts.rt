//! The text rules.

use text::{
    big_int_index, is_big_int, is_utf8, iteration_steps, number_index, number_literal,
    string_length,
};

#[test]
fn number_literals(rt: HostRuntime) {
    let finite = [
        (0x3ff0_0000_0000_0000u64, 1.0),
        (0x3fb9_9999_9999_999a, 0.1),
        (0x406f_e000_0000_0000, 255.0),
        (0, 0.0),
        (0x7fef_ffff_ffff_ffff, f64::MAX),
        (0x7ff0_0000_0000_0000, f64::INFINITY),
    ];
    for (bits, number) in finite {
        assert_eq!(rt; number_literal(&bits.to_be_bytes()), Some(number));
    }
    for bits in [
        0x7ff0_0000_0000_0001u64,
        0x7ff8_0000_0000_0000,
        0x8000_0000_0000_0000,
        0xbff0_0000_0000_0000,
        0xfff0_0000_0000_0000,
        u64::MAX,
    ] {
        assert_eq!(rt; number_literal(&bits.to_be_bytes()), None);
    }
    assert_eq!(rt; number_literal(&[0; 7]), None);
    assert_eq!(rt; number_literal(&[0; 9]), None);
    assert_eq!(rt; number_literal(b""), None);
}

#[test]
fn big_ints(rt: HostRuntime) {
    for text in ["0", "1", "-1", "9", "10", "-10", "18446744073709551616"] {
        assert!(rt; is_big_int(text.as_bytes()), "{}", text);
    }
    for text in [
        "", "-", "00", "-0", "01", "-01", "+1", "1n", "a", "1a", "--1", "1-", "/", ":",
    ] {
        assert!(rt; !is_big_int(text.as_bytes()), "{}", text);
    }
}

#[test]
fn utf8(rt: HostRuntime) {
    let well_formed: [&[u8]; 4] = [
        b"",
        b"\x00\x7f\xc2\x80\xdf\xbf",
        b"\xe0\xa0\x80\xed\x9f\xbf\xee\x80\x80\xef\xbf\xbf",
        b"\xf0\x90\x80\x80\xf4\x8f\xbf\xbf",
    ];
    for bytes in well_formed {
        assert!(rt; is_utf8(bytes), "{bytes:?}");
    }
    let ill_formed: [&[u8]; 8] = [
        b"\x80",
        b"\xc1\xbf",
        b"\xe0\x9f\xbf",
        b"\xf0\x8f\xbf\xbf",
        b"\xed\xa0\x80",
        b"\xf4\x90\x80\x80",
        b"\xf0\x9f\x98",
        b"a\xff",
    ];
    for bytes in ill_formed {
        assert!(rt; !is_utf8(bytes), "{bytes:?}");
    }
}

#[test]
fn strings(rt: HostRuntime) {
    // the text, its length in code units, and the steps of an iteration
    let cases = [
        ("", 0usize, 0usize),
        ("a", 1, 1),
        ("a\u{1f600}", 3, 2),
        ("\u{ffff}", 1, 1),
        ("\u{10000}", 2, 1),
        ("\u{d7ff}\u{e000}\u{10ffff}", 4, 3),
    ];
    for (text, length, steps) in cases {
        assert_eq!(rt;
            (string_length(text), iteration_steps(text)),
            (length, steps),
            "{}",
            text
        );
    }
}

#[test]
fn indices(rt: HostRuntime) {
    let numbers = [
        (0.0f64, Some(0u32)),
        (1.0, Some(1)),
        (0.5, None),
        (1.5, None),
        (4_294_967_295.0, Some(4_294_967_295)),
        (4_294_967_294.5, None),
        (4_294_967_296.0, None),
        (f64::MAX, None),
        (f64::INFINITY, None),
    ];
    for (number, index) in numbers {
        assert_eq!(rt; number_index(&number.to_bits().to_be_bytes()), index);
    }
    assert_eq!(rt; number_index(b""), None);
    let texts = [
        ("0", Some(0u32)),
        ("10", Some(10)),
        ("4294967295", Some(4_294_967_295)),
        ("4294967296", None),
        ("18446744073709551616", None),
        ("-1", None),
        ("", None),
        ("+1", None),
    ];
    for (text, index) in texts {
        assert_eq!(rt; big_int_index(text), index, "{}", text);
    }
}
