//! How a filter is printed, and which header decides in a fragment of a fragment.

use crate::shared::assert_equal;
use packet::lax_sliced_packet::LaxSlicedPacket;
use packet_filter::Filter;
use std::test::Fail;

#[test]
fn a_filter_is_printed(rt: HostRuntime) -> Result<(), Fail> {
    let filter = Filter::from_text(b"not udp")?;
    let printed = format!(in rt.alloc(); "{filter:?}")?;
    let steps = "Filter { steps: [Test(Proto(None, 17)), Not], .. }";
    assert_equal(&rt, printed.as_str(), steps);
    Ok(())
}

#[test]
fn the_outer_fragment_header_decides_what_is_first(rt: HostRuntime) -> Result<(), Fail> {
    // A first fragment, whose 24 bytes begin with the header of a later fragment.
    let mut packet = [0; 72];
    [packet[0], packet[5], packet[6], packet[7]] = [0x60, 32, 44, 64];
    [packet[40], packet[43], packet[47]] = [44, 1, 5];
    [packet[48], packet[51], packet[55]] = [17, 8, 6];
    let first = Filter::from_text(b"first fragment")?;
    let lax = LaxSlicedPacket::from_ip(&packet);
    let is_first = first.matches(&lax, packet.len());
    // With an offset of 8 bytes it is a later one.
    packet[43] = 9;
    let lax = LaxSlicedPacket::from_ip(&packet);
    assert_equal(
        &rt,
        [is_first, first.matches(&lax, packet.len())],
        [true, false],
    );
    Ok(())
}
