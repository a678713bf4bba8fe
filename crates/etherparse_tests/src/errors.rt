//! That the errors' texts ignore widths, precisions and flags; what `{:?}` prints for errors, layers
//! and value types; their clones and hashes; and which types are an `Error`. The texts of all
//! variants over many numbers are in the sample that `conformance` replays.

use crate::shared::{assert_derives, assert_equal};
use etherparse::LenSource;
use etherparse::err::ip::IpDscpUnknownValueError;
use etherparse::err::ipv4::BadOptionsLen;
use etherparse::err::{
    Layer, LenError, SliceWriteSpaceError, ValueTooBigError, ValueType, ipv4, ipv6,
};
use std::alloc::{AllocError, Global};
use std::error::Error;
use std::hash::Hash;
use std::process::Abort;

// What an error prints four times, plain and in four styles.
fn texts<E: Error>(alloc: Global, error: &E) -> Result<(String, String), AllocError> {
    let plain = format!(in alloc; "{error} {error} {error} {error}")?;
    let styled = format!(in alloc; "{error:>300} {error:05} {error:#} {error:+.2}")?;
    Ok((plain, styled))
}

// Asserts that each kind of `{}` prints the same for an error, what `{:?}` prints, and that a clone
// is equal and hashes alike. The bounds are the traits that each error has.
fn assert_shows<E: Clone + Drop + Eq + Error + Hash>(
    rt: &impl Abort,
    alloc: Global,
    errors: &[(E, &str)],
) {
    for (error, _) in errors {
        let (plain, styled) = texts(alloc, error).expect(rt, "texts");
        assert_equal(rt, styled.as_str(), plain.as_str());
    }
    assert_derives(rt, alloc, errors);
}

// The error of a layer in a slice.
fn in_slice(layer: Layer, required_len: usize, len: usize, layer_start_offset: usize) -> LenError {
    LenError {
        required_len,
        len,
        len_source: LenSource::Slice,
        layer,
        layer_start_offset,
    }
}

#[test]
fn errors_of_lengths(rt: HostRuntime) {
    // Too short and too long, at the start of the packet and further on.
    let errors = &[
        (
            in_slice(Layer::Ipv4Header, 2, 1, 0),
            "LenError { required_len: 2, len: 1, len_source: Slice, layer: Ipv4Header, layer_start_offset: 0 }",
        ),
        (
            in_slice(Layer::Ipv4Header, 2, 1, 4),
            "LenError { required_len: 2, len: 1, len_source: Slice, layer: Ipv4Header, layer_start_offset: 4 }",
        ),
        (
            in_slice(Layer::Ipv4Header, 20, 20, 0),
            "LenError { required_len: 20, len: 20, len_source: Slice, layer: Ipv4Header, layer_start_offset: 0 }",
        ),
        (
            in_slice(Layer::Ipv4Header, 20, 20, 4),
            "LenError { required_len: 20, len: 20, len_source: Slice, layer: Ipv4Header, layer_start_offset: 4 }",
        ),
    ];
    assert_shows(&rt, rt.alloc(), errors);
    let errors = &[
        (
            SliceWriteSpaceError {
                required_len: 2,
                len: 1,
                layer: Layer::Ipv4Header,
                layer_start_offset: 4,
            },
            "SliceWriteSpaceError { required_len: 2, len: 1, layer: Ipv4Header, layer_start_offset: 4 }",
        ),
        (
            SliceWriteSpaceError {
                required_len: 4,
                len: 3,
                layer: Layer::Ipv4Header,
                layer_start_offset: 0,
            },
            "SliceWriteSpaceError { required_len: 4, len: 3, layer: Ipv4Header, layer_start_offset: 0 }",
        ),
    ];
    assert_shows(&rt, rt.alloc(), errors);
    let refused = BadOptionsLen { bad_len: 44 };
    let text = "BadOptionsLen { bad_len: 44 }";
    assert_shows(&rt, rt.alloc(), &[(refused, text)]);
}

#[test]
fn errors_of_values(rt: HostRuntime) {
    let unknown = IpDscpUnknownValueError { value: 9 };
    let text = "IpDscpUnknownValueError { value: 9 }";
    assert_shows(&rt, rt.alloc(), &[(unknown, text)]);
    let of_8_bits = ValueTooBigError {
        actual: 64u8,
        max_allowed: 63,
        value_type: ValueType::IpDscp,
    };
    let text = "ValueTooBigError { actual: 64, max_allowed: 63, value_type: IpDscp }";
    assert_shows(&rt, rt.alloc(), &[(of_8_bits, text)]);
    let of_16_bits = ValueTooBigError {
        actual: 3u16,
        max_allowed: 2,
        value_type: ValueType::IpFragmentOffset,
    };
    let text = "ValueTooBigError { actual: 3, max_allowed: 2, value_type: IpFragmentOffset }";
    assert_shows(&rt, rt.alloc(), &[(of_16_bits, text)]);
    let of_32_bits = ValueTooBigError {
        actual: u32::MAX,
        max_allowed: 1048575,
        value_type: ValueType::Ipv6FlowLabel,
    };
    let text =
        "ValueTooBigError { actual: 4294967295, max_allowed: 1048575, value_type: Ipv6FlowLabel }";
    assert_shows(&rt, rt.alloc(), &[(of_32_bits, text)]);
    let of_64_bits = ValueTooBigError {
        actual: usize::MAX,
        max_allowed: 65535,
        value_type: ValueType::Ipv6PayloadLength,
    };
    let text =
        "ValueTooBigError { actual: 18446744073709551615, max_allowed: 65535, value_type: Ipv6PayloadLength }";
    assert_shows(&rt, rt.alloc(), &[(of_64_bits, text)]);
}

#[test]
fn errors_of_headers(rt: HostRuntime) {
    let errors = &[
        (
            ipv4::HeaderError::UnexpectedVersion { version_number: 5 },
            "UnexpectedVersion { version_number: 5 }",
        ),
        (
            ipv4::HeaderError::HeaderLengthSmallerThanHeader { ihl: 4 },
            "HeaderLengthSmallerThanHeader { ihl: 4 }",
        ),
    ];
    assert_shows(&rt, rt.alloc(), errors);
    let version = ipv4::HeaderError::UnexpectedVersion { version_number: 5 };
    let error = ipv4::HeaderSliceError::Content(version);
    let text = "Content(UnexpectedVersion { version_number: 5 })";
    assert_shows(&rt, rt.alloc(), &[(error, text)]);
    let version = ipv6::HeaderError::UnexpectedVersion { version_number: 5 };
    let error = ipv6::HeaderSliceError::Content(version);
    assert_shows(&rt, rt.alloc(), &[(error, text)]);
    let version = ipv6::HeaderError::UnexpectedVersion { version_number: 5 };
    let text = "UnexpectedVersion { version_number: 5 }";
    assert_shows(&rt, rt.alloc(), &[(version, text)]);
    let errors = &[
        (
            ipv6::ChainError::Len(in_slice(Layer::Ipv6ExtHeader, 16, 3, 48)),
            "Len(LenError { required_len: 16, len: 3, len_source: Slice, layer: Ipv6ExtHeader, layer_start_offset: 48 })",
        ),
        (
            ipv6::ChainError::TooMany {
                limit: 32,
                next_header: 0,
                layer_start_offset: 296,
            },
            "TooMany { limit: 32, next_header: 0, layer_start_offset: 296 }",
        ),
    ];
    assert_shows(&rt, rt.alloc(), errors);
}

#[test]
fn layers_and_value_types(rt: HostRuntime) {
    let layers = &[
        (Layer::LinuxSllHeader, "LinuxSllHeader"),
        (Layer::Ipv6ExtHeader, "Ipv6ExtHeader"),
        (Layer::Arp, "Arp"),
    ];
    assert_derives(&rt, rt.alloc(), layers);
    let value_types = &[
        (ValueType::VlanId, "VlanId"),
        (ValueType::VlanPcp, "VlanPcp"),
        (ValueType::LinuxSllType, "LinuxSllType"),
    ];
    assert_derives(&rt, rt.alloc(), value_types);
}
