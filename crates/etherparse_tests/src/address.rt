//! That every kind of IPv6 address is printed: the examples of RFC 4291 section 2.2 and of RFC 5952
//! section 4.

use crate::shared::assert_equal;
use packet_parts::address::Ipv6Text;

// Each address as a number of 128 bits, and its text.
static CASES: [(u128, &str); 9] = [
    (0, "::"),
    (1, "::1"),
    (0xff01_0000_0000_0000_0000_0000_0000_0101, "ff01::101"),
    (0xffff_8190_3426, "::ffff:129.144.52.38"),
    (
        0xabcd_ef01_2345_6789_abcd_ef01_2345_6789,
        "abcd:ef01:2345:6789:abcd:ef01:2345:6789",
    ),
    (0x2001_0db8_0000_0000_0000_0000_0002_0001, "2001:db8::2:1"),
    (
        0x2001_0db8_0000_0001_0001_0001_0001_0001,
        "2001:db8:0:1:1:1:1:1",
    ),
    (0x2001_0000_0000_0001_0000_0000_0000_0001, "2001:0:0:1::1"),
    (
        0x2001_0db8_0000_0000_0001_0000_0000_0001,
        "2001:db8::1:0:0:1",
    ),
];

#[test]
fn addresses_as_rfc_5952_recommends(rt: HostRuntime) {
    for (number, text) in &CASES {
        let printed = format!(in rt.alloc(); "{}", Ipv6Text(number.to_be_bytes()));
        let printed = printed.expect(&rt, "a text");
        assert_equal(&rt, printed.as_str(), text);
    }
}
