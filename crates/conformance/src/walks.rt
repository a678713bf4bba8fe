//! The walk past IPv6 extension headers.

use crate::case::{Case, write_shown};
use etherparse::{IpNumber, Ipv6Header};

/// `skip B N`: one extension header at the front of a slice.
pub fn answer_skip(case: &mut Case) {
    let bytes = case.bytes();
    let number = IpNumber(case.number());
    write_shown(
        Ipv6Header::skip_header_extension_in_slice(&bytes, number),
        case,
    );
}

/// `walk B N` and `walk.counted B N`: all extension headers at the front of a slice.
/// `walk.limit B N LIMIT`: at most that many.
pub fn answer_walk(name: &str, case: &mut Case) {
    let bytes = case.bytes();
    let number = IpNumber(case.number());
    match name {
        "" => write_shown(
            Ipv6Header::skip_all_header_extensions_in_slice(&bytes, number),
            case,
        ),
        "counted" => {
            let (walked, turns) = Ipv6Header::skip_all_header_extensions_counted(&bytes, number);
            write_shown(walked, case);
            case.answer.put(" turns=", turns);
        }
        "limit" => {
            let limit = case.number();
            write_shown(
                Ipv6Header::skip_header_extensions_up_to(&bytes, number, limit),
                case,
            );
        }
        _ => case.refuse(),
    }
}
