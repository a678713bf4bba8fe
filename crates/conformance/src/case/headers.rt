use super::{Argument, Case};
use etherparse::{IpDscp, IpDscpKnown, IpNumber, Ipv4Header, Ipv4Options, Ipv6Header};

/// A number that is in range for a code point and is known.
impl Argument for IpDscpKnown {
    fn read(case: &mut Case) -> IpDscpKnown {
        match IpDscpKnown::try_from(case.field::<u8, IpDscp>()) {
            Ok(known) => known,
            Err(_) => {
                case.refuse();
                IpDscpKnown::ClassSelector0
            }
        }
    }
}

/// Bytes of a length that is accepted.
impl Argument for Ipv4Options {
    fn read(case: &mut Case) -> Ipv4Options {
        let bytes = case.bytes();
        case.accepted(Ipv4Options::try_from(bytes.as_slice()))
    }
}

/// The fields, in their order.
impl Argument for Ipv4Header {
    fn read(case: &mut Case) -> Ipv4Header {
        Ipv4Header {
            dscp: case.field::<u8, _>(),
            ecn: case.field::<u8, _>(),
            total_len: case.number(),
            identification: case.number(),
            dont_fragment: case.flag(),
            more_fragments: case.flag(),
            fragment_offset: case.field::<u16, _>(),
            time_to_live: case.number(),
            protocol: IpNumber(case.number()),
            header_checksum: case.number(),
            source: case.array(),
            destination: case.array(),
            options: case.read(),
        }
    }
}

/// The fields, in their order.
impl Argument for Ipv6Header {
    fn read(case: &mut Case) -> Ipv6Header {
        Ipv6Header {
            traffic_class: case.number(),
            flow_label: case.field::<u32, _>(),
            payload_length: case.number(),
            next_header: IpNumber(case.number()),
            hop_limit: case.number(),
            source: case.array(),
            destination: case.array(),
        }
    }
}
