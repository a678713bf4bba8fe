//! The headers of ICMP and ICMPv6, by `etherparse_icmp`.

use crate::case::Case;
use crate::shown::{Answer, Found, Shown};
use etherparse_icmp::{Icmpv4Header, Icmpv6Header};

/// `icmp.v4 B` and `icmp.v6 SOURCE DESTINATION B`: the header at the front of a message, and the
/// checksum that belongs into it.
pub fn answer(name: &str, case: &mut Case) {
    match name {
        "v4" => write_icmpv4(&case.bytes(), case),
        "v6" => {
            let (source, destination) = (case.array(), case.array());
            write_icmpv6(source, destination, &case.bytes(), case)
        }
        _ => case.refuse(),
    }
}

// A message of ICMP.
fn write_icmpv4(bytes: &[u8], case: &mut Case) {
    let found = Icmpv4Header::from_slice(bytes);
    found.show(&mut case.answer);
    if let Ok((header, payload)) = found {
        case.answer
            .put(" calc=", &header.icmp_type.calc_checksum(payload));
    }
}

// A message of ICMPv6 between these addresses.
fn write_icmpv6(source: [u8; 16], destination: [u8; 16], bytes: &[u8], case: &mut Case) {
    let found = Icmpv6Header::from_slice(bytes);
    found.show(&mut case.answer);
    if let Ok((header, payload)) = found {
        let sum = header.icmp_type.calc_checksum(source, destination, payload);
        case.answer.shown(" calc=", &sum);
    }
}

impl Shown for Found<'_, Icmpv4Header> {
    fn show(&self, answer: &mut Answer) {
        let (header, rest) = self;
        answer.put("type=", header.icmp_type.type_u8());
        answer.put(" code=", header.icmp_type.code_u8());
        answer.put(" checksum=", header.checksum);
        answer.debug(" kind=", &header.icmp_type);
        answer.rest_and_bytes(rest, header.to_bytes().as_slice());
    }
}

impl Shown for Found<'_, Icmpv6Header> {
    fn show(&self, answer: &mut Answer) {
        let (header, rest) = self;
        answer.put("type=", header.icmp_type.type_u8());
        answer.put(" code=", header.icmp_type.code_u8());
        answer.put(" checksum=", header.checksum);
        answer.debug(" kind=", &header.icmp_type);
        answer.rest_and_bytes(rest, &header.to_bytes());
    }
}
