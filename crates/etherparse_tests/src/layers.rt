//! Packets above the library: the caller of `docs/LAYER.md`, a packet that ends early, and a
//! jumbogram. The sample that `conformance` replays has whole packets of every kind.

use crate::shared::assert_equal;
use etherparse::err::ipv4::HeaderSliceError;
use etherparse::err::{Layer, LenError};
use etherparse::{IpNumber, Ipv4Header, LenSource};
use etherparse_transport::UdpHeader;
use packet_parts::fragment::Fragment;
use packet_parts::ip_slice::{IpSlice, IpSliceError, LaxIpSlice};

// The caller of `docs/LAYER.md`, line by line as it stands there.
/// The UDP header of an IPv4 packet; `None` for another protocol and for a fragment.
pub fn udp_header(packet: &[u8]) -> Result<Option<UdpHeader>, HeaderSliceError> {
    let (header, rest) = Ipv4Header::from_slice(packet)?;
    if header.protocol != IpNumber::UDP || header.is_fragmenting_payload() {
        return Ok(None);
    }
    match UdpHeader::from_slice(rest) {
        Ok((udp, _)) => Ok(Some(udp)),
        Err(e) => Err(HeaderSliceError::Len(e.add_offset(header.header_len()))),
    }
}

#[test]
fn the_udp_header_of_a_packet_is_found_or_refused_with_its_place(rt: HostRuntime) {
    let packet = [
        0x45, 0, 0, 32, 0, 0, 0x40, 0, 64, 17, 0, 0, 10, 0, 0, 1, 10, 0, 0, 2, 4, 0, 0, 53, 0, 12,
        0x91, 0xae,
    ];
    let header = UdpHeader {
        source_port: 1024,
        destination_port: 53,
        length: 12,
        checksum: 0x91ae,
    };
    let cut_short = LenError {
        required_len: 8,
        len: 7,
        len_source: LenSource::Slice,
        layer: Layer::UdpHeader,
        layer_start_offset: 20,
    };
    let mut fragment = packet;
    fragment[6] = 0x20;
    let found = [
        udp_header(&packet),
        udp_header(&packet[..27]),
        udp_header(&fragment),
    ];
    let refused = Err(HeaderSliceError::Len(cut_short));
    assert_equal(&rt, found, [Ok(Some(header)), refused, Ok(None)]);
}

// The second fragment of a packet from 2001:db8::1 to 2001:db8::2, which is not the last: 4 bytes
// after the fragment header, two of which are missing.
const TRUNCATED: [u8; 50] = [
    0x60, 0, 0, 0, 0, 12, 44, 64, 0x20, 0x01, 0x0d, 0xb8, 0, 0, 0, 0, 0, 0, 0, 0, 0, 0, 0, 1, 0x20,
    0x01, 0x0d, 0xb8, 0, 0, 0, 0, 0, 0, 0, 0, 0, 0, 0, 2, 17, 0, 0, 9, 1, 2, 3, 4, 5, 6,
];

#[test]
fn a_packet_that_ends_early_has_the_parts_that_are_there(
    rt: HostRuntime,
) -> Result<(), IpSliceError> {
    let fragment = Fragment {
        identification: 0x01020304,
        offset: 8,
        more_fragments: true,
    };
    let lax = LaxIpSlice::from_slice(&TRUNCATED)?;
    let slice = &lax.slice;
    assert_equal(
        &rt,
        (slice.payload, slice.fragment, slice.is_later_fragment),
        ([5, 6].as_slice(), Some(fragment), true),
    );
    let missing = LenError {
        required_len: 52,
        len: 50,
        len_source: LenSource::Slice,
        layer: Layer::Ipv6Packet,
        layer_start_offset: 0,
    };
    assert_equal(&rt, lax.stop, Some(IpSliceError::Packet(missing)));
    Ok(())
}

// A jumbogram between the same: hop-by-hop options that tell a length of 65544, and 12 bytes of the
// UDP datagram after them.
const JUMBOGRAM: [u8; 60] = [
    0x60, 0, 0, 0, 0, 0, 0, 64, 0x20, 0x01, 0x0d, 0xb8, 0, 0, 0, 0, 0, 0, 0, 0, 0, 0, 0, 1, 0x20,
    0x01, 0x0d, 0xb8, 0, 0, 0, 0, 0, 0, 0, 0, 0, 0, 0, 2, 17, 0, 0xc2, 4, 0, 1, 0, 8, 4, 0, 0, 53,
    0, 0, 0x91, 0xae, 1, 2, 3, 4,
];

#[test]
fn a_jumbogram_has_the_parts_of_all_bytes(rt: HostRuntime) -> Result<(), IpSliceError> {
    let missing = LenError {
        required_len: 2,
        len: 0,
        len_source: LenSource::Ipv6HeaderPayloadLen,
        layer: Layer::Ipv6ExtHeader,
        layer_start_offset: 40,
    };
    let refused = Some(IpSliceError::Extensions(missing));
    let lax = LaxIpSlice::from_slice(&JUMBOGRAM)?;
    let slice = &lax.slice;
    assert_equal(
        &rt,
        (slice.extensions, slice.upper, slice.payload),
        (&JUMBOGRAM[40..48], IpNumber::UDP, &JUMBOGRAM[48..]),
    );
    assert_equal(&rt, (slice.header.packet_len(), &lax.stop), (0, &refused));
    assert_equal(&rt, IpSlice::from_slice(&JUMBOGRAM).err(), refused);
    // Before any other header a payload length of 0 is that of an empty payload.
    let mut packet = JUMBOGRAM;
    packet[6] = 60;
    let lax = LaxIpSlice::from_slice(&packet)?;
    let slice = &lax.slice;
    assert_equal(
        &rt,
        (slice.header.packet_len(), slice.payload),
        (40, [].as_slice()),
    );
    Ok(())
}
