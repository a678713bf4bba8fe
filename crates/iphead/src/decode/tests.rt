use super::*;

// Whether the digits decode to these bytes, or are refused if there are none.
fn decodes_to(digits: &[u8], bytes: Option<&[u8]>) -> bool {
    let mut out = [0xee; 2048];
    if digits.len() > 4096 {
        return false;
    }
    match decode_input(digits, &mut out) {
        Some(len) => out.get(..len) == bytes,
        None => bytes.is_none(),
    }
}

// Digits, and the bytes that they decode to, unless they are refused.
static ROWS: [(&[u8], Option<&[u8]>); 15] = [
    (b"", Some(b"")),
    (
        b"0123456789abcdef",
        Some(b"\x01\x23\x45\x67\x89\xab\xcd\xef"),
    ),
    (b"ABCDEF", Some(b"\xab\xcd\xef")),
    (b"aBCdeF", Some(b"\xab\xcd\xef")),
    (b"6", None),
    (b"600", None),
    (b"6g", None),
    (b"g6", None),
    (b"6 ", None),
    (b"\x006", None),
    (b"`0", None),
    (b"/0", None),
    (b":0", None),
    (b"@0", None),
    (b"G0", None),
];

#[test]
fn digits_of_either_case_decode_and_others_are_refused(rt: HostRuntime) {
    for (digits, bytes) in &ROWS {
        assert!(rt; decodes_to(digits, *bytes), "at {digits:?}");
    }
}
