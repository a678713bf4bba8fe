//! The text of an error, as the library prints it.

ghost use Rattle.std.specs.Prelude.{ℕ, ◌≡◌, ◌≢◌, ◌<◌, ◌≤◌, ◌+◌, ◌++◌, [], IfSome, IsSomeAnd};
ghost use Rattle.std.specs.Prelude.{None, length};
ghost use Rattle.std.specs.Fmt.{decimal};
ghost use Rattle.std.specs.List.{flat_map};
ghost use Rattle.c_answers.specs.Text.{GivesText};
ghost use Rattle.etherparse.specs.Ipv4Errors.{bad_options_len_text, ipv4_header_error_text};
ghost use Rattle.etherparse.specs.Ipv6Errors.{chain_error_text, ipv6_header_error_text};
ghost use Rattle.etherparse.specs.Layer.{layer_text, layer_title};
ghost use Rattle.etherparse.specs.LenError.{len_error_text};
ghost use Rattle.etherparse.specs.LenSource.{len_source_text};
ghost use Rattle.etherparse.specs.ValueTooBigError.{value_too_big_error_text};
ghost use Rattle.etherparse.specs.declared.LenSource.{LenSource};
ghost use Rattle.etherparse.specs.declared.err.LenError.{LenError};
ghost use Rattle.etherparse.specs.declared.err.ValueType.{ValueType};
ghost use Rattle.etherparse.specs.declared.err.ipv4.HeaderError.TheVariants as ipv4;
ghost use Rattle.etherparse.specs.declared.err.ipv6.ChainError.TheVariants as chain;
ghost use Rattle.etherparse.specs.declared.err.ipv6.HeaderError.TheVariants as ipv6;
ghost use Rattle.packet.specs.Link.{link_error_text};
ghost use Rattle.packet_parts.specs.IpSlice.{ip_slice_error_text};
ghost use Rattle.etherparse_transport.specs.Tcp.{tcp_error_text};
ghost use Rattle.packet_parts.specs.declared.ip_slice.IpSliceError.TheVariants as ip;
ghost use Rattle.etherparse_transport.specs.declared.tcp.TcpError.TheVariants as tcp;
ghost use Rattle.c_answers.specs.Error.{layer_in_c, len_error_in_c, source_in_c, value_in_c};
ghost use Rattle.c_answers.specs.ErrorText.{GivesErrorText, HasNumbers, IsNoLength};
ghost use Rattle.c_answers.specs.ErrorText.{IsShortIpv4Packet, link_type_error_text};

use crate::error::{
    BAD_OPTIONS_LEN, DATA_OFFSET, Error, FROM_IPV4_TOTAL_LEN, FROM_IPV6_PAYLOAD_LENGTH, FROM_SLICE,
    HEADER_LENGTH_SMALLER_THAN_HEADER, ICMPV4, ICMPV6, IP_DSCP, IP_ECN, IP_FRAGMENT_OFFSET,
    IP_HEADER, IPV4_HEADER, IPV4_PACKET, IPV4_PACKET_BYTES, IPV4_PAYLOAD_LENGTH, IPV6_FLOW_LABEL,
    IPV6_HEADER, IPV6_PACKET, IPV6_PAYLOAD_LENGTH, LEN, LINK_HEADER, LINK_TYPE, TCP_HEADER,
    TOO_MANY, UDP_HEADER, UNEXPECTED_VERSION, VALUE_TOO_BIG, VLAN_HEADER,
};
use crate::text::{digits, put, put_number};
use itoa::Buffer;

/// Writes the text of the error with these numbers to the front of a buffer, as much of it as there
/// is room for, and a byte 0 after it; returns how many bytes the whole text has, without that 0.
///
/// A kind, a layer, a source or a value that no error has, and a length that is not too small, have
/// the empty text.
pub fn put_error(error: &Error, text: &mut [u8]) -> usize
    ensures gives { GivesErrorText error.now text.old text.new result }
{
    match error.kind {
        LEN if error.len < error.required_len => put_short(error, text),
        UNEXPECTED_VERSION => put_version(error, text),
        HEADER_LENGTH_SMALLER_THAN_HEADER => put_number(
            "IPv4 Header Error: The 'internet header length' value '",
            error.number as usize,
            "' present in the IPv4 header is smaller than the minimum size of an IPv4 header. The \
             minimum allowed value is '5'.",
            text,
        ),
        TOO_MANY => put_too_many(error, text),
        VALUE_TOO_BIG if error.number > 0 && error.number <= IPV6_PAYLOAD_LENGTH => {
            put_value(error, text)
        }
        BAD_OPTIONS_LEN => put_number(
            "Slice of length ",
            error.len,
            " cannot be set as IPv4 header options. The length must be a multiple of 4 and at \
             maximum 40.",
            text,
        ),
        DATA_OFFSET => put_number(
            "TCP Header Error: Data offset ",
            error.number as usize,
            " is less than 5.",
            text,
        ),
        LINK_TYPE => put_number(
            "Link Type Error: Frames of link type ",
            error.len,
            " are not read.",
            text,
        ),
        _ => put(&[], text),
    }
}

// The text of an unexpected version.
fn put_version(error: &Error, text: &mut [u8]) -> usize
    ensures ipv4_version { error.now.layer ≡ 1 →
        GivesText (ipv4_header_error_text (ipv4.UnexpectedVersion error.now.number))
        text.old text.new result }
    ensures ipv6_version { error.now.layer ≡ 3 →
        GivesText (ipv6_header_error_text (ipv6.UnexpectedVersion error.now.number))
        text.old text.new result }
    ensures ip_version { error.now.layer ≡ 7 →
        GivesText (ip_slice_error_text (ip.UnexpectedVersion error.now.number))
        text.old text.new result }
    ensures none { error.now.layer ≢ 1 → error.now.layer ≢ 3 → error.now.layer ≢ 7 →
        GivesText [] text.old text.new result }
{
    match error.layer {
        IPV4_HEADER => put_number(
            "IPv4 Header Error: Encountered '",
            usize::from(error.number),
            "' as IP version number in the IPv4 header (must be '4' in an IPv4 header).",
            text,
        ),
        IPV6_HEADER => put_number(
            "IPv6 Header Error: Encountered '",
            usize::from(error.number),
            "' as IP version number in the IPv6 header (must be '6' in an IPv6 header).",
            text,
        ),
        IP_HEADER => put_number(
            "IP Header Error: Version ",
            usize::from(error.number),
            " is neither 4 nor 6.",
            text,
        ),
        _ => put(&[], text),
    }
}

// The text of a length that is too small.
fn put_short(error: &Error, text: &mut [u8]) -> usize
    requires below { error.now.len < error.now.required_len }
    ensures len { (e : LenError) → HasNumbers e →
        record error.now { limit = 0 } ≡ len_error_in_c e →
        GivesText (len_error_text e) text.old text.new result }
    ensures ipv4_packet { (e : LenError) → IsShortIpv4Packet e →
        record error.now { limit = 0 } ≡ record (len_error_in_c e) { layer = 8 } →
        GivesText (len_error_text e) text.old text.new result }
    ensures link { error.now.layer ≡ 5 → GivesText (link_error_text (record {
      required_len = error.now.required_len;
      len = error.now.len;
    })) text.old text.new result }
    ensures none { IsNoLength error.now → GivesText [] text.old text.new result }
{
    if error.layer == LINK_HEADER {
        return put_link_len(error, text);
    }
    if error.layer == 0 || error.layer > ICMPV6 {
        return put(&[], text);
    }
    if error.layer == IPV4_PACKET_BYTES && error.number != FROM_SLICE {
        return put(&[], text);
    }
    match source_text(error.number) {
        Some(source) if error.layer > LINK_HEADER => put_frame_len(error, source, text),
        Some(source) => put_len(error, source, text),
        None => put(&[], text),
    }
}

// What the source of a length is called, by its number.
fn source_text(number: u16) -> Option<&'static str>
    ensures known { (source : LenSource) → number ≡ source_in_c source → source_in_c source < 3 →
        IsSomeAnd result (λ text. text.now ≡ len_source_text source) }
    ensures unknown { 2 < number → result ≡ None }
    ensures short { IfSome result (λ text. length text.now ≤ 64) }
{
    match number {
        FROM_SLICE => Some("slice length"),
        FROM_IPV4_TOTAL_LEN => {
            Some("length calculated from the IPv4 header 'total length' field")
        }
        FROM_IPV6_PAYLOAD_LENGTH => {
            Some("length calculated from the IPv6 header 'payload length' field")
        }
        _ => None,
    }
}

// The text of a length that is too small, in a layer that has a number.
fn put_len(error: &Error, source: &'static str, text: &mut [u8]) -> usize
    requires below { error.now.len < error.now.required_len }
    requires known { error.now.layer ≤ 4 }
    requires short { length source.now ≤ 64 }
    ensures gives { (e : LenError) → HasNumbers e →
        record error.now { limit = 0 } ≡ len_error_in_c e →
        source.now ≡ len_source_text e.len_source →
        GivesText (len_error_text e) text.old text.new result }
{
    let (title, layer): (&'static str, &'static str) = match error.layer {
        IPV4_HEADER => ("IPv4 Header Error", "IPv4 header"),
        IPV4_PACKET => ("IPv4 Packet Error", "IPv4 packet"),
        IPV6_HEADER => ("IPv6 Header Error", "IPv6 header"),
        _ => ("IPv6 Extension Header Error", "IPv6 extension header"),
    };
    put_len_in(error, title, layer, source, text)
}

// The same for a layer of a frame.
fn put_frame_len(error: &Error, source: &'static str, text: &mut [u8]) -> usize
    requires below { error.now.len < error.now.required_len }
    requires above { 5 < error.now.layer }
    requires known { error.now.layer ≤ 13 }
    requires short { length source.now ≤ 64 }
    ensures gives { (e : LenError) → HasNumbers e →
        record error.now { limit = 0 } ≡ len_error_in_c e →
        source.now ≡ len_source_text e.len_source →
        GivesText (len_error_text e) text.old text.new result }
    ensures ipv4_packet { (e : LenError) → IsShortIpv4Packet e →
        record error.now { limit = 0 } ≡ record (len_error_in_c e) { layer = 8 } →
        source.now ≡ len_source_text e.len_source →
        GivesText (len_error_text e) text.old text.new result }
{
    let (title, layer): (&'static str, &'static str) = match error.layer {
        VLAN_HEADER => ("VLAN Header Error", "VLAN header"),
        IP_HEADER => ("IP Header Error", "IP header"),
        IPV4_PACKET_BYTES => ("IPv4 Packet Error", "IPv4 packet"),
        IPV6_PACKET => ("IPv6 Packet Error", "IPv6 packet"),
        UDP_HEADER => ("UDP Header Error", "UDP header"),
        TCP_HEADER => ("TCP Header Error", "TCP header"),
        ICMPV4 => ("ICMP Packet Error", "ICMP packet"),
        _ => ("ICMPv6 Packet Error", "ICMPv6 packet"),
    };
    put_len_in(error, title, layer, source, text)
}

// The text of a frame that is shorter than its link header.
fn put_link_len(error: &Error, text: &mut [u8]) -> usize
    ensures gives { GivesText (link_error_text (record {
      required_len = error.now.required_len;
      len = error.now.len;
    })) text.old text.new result }
{
    let (mut required_len, mut len) = (Buffer::new(), Buffer::new());
    put(
        &[
            "Link Header Error: The header has at least ",
            digits(error.required_len, &mut required_len),
            " bytes, the frame ",
            digits(error.len, &mut len),
            ".",
        ],
        text,
    )
}

// The same for a layer with this title and name. Where the layer starts is left out if that is byte
// 0.
fn put_len_in(
    error: &Error,
    title: &'static str,
    layer: &'static str,
    source: &'static str,
    text: &mut [u8],
) -> usize
    requires below { error.now.len < error.now.required_len }
    requires short_layer { length layer.now ≤ 32 }
    requires short { length title.now + length source.now ≤ 128 }
    ensures gives { (e : LenError) →
        record error.now { limit = 0; layer = layer_in_c e.layer } ≡ len_error_in_c e →
        title.now ≡ layer_title e.layer → layer.now ≡ layer_text e.layer →
        source.now ≡ len_source_text e.len_source →
        GivesText (len_error_text e) text.old text.new result }
{
    let (mut required_len, mut len, mut start) = (Buffer::new(), Buffer::new(), Buffer::new());
    if error.layer_start_offset == 0 {
        return put(
            &[
                title,
                ": Not enough data to decode '",
                layer,
                "'. ",
                digits(error.required_len, &mut required_len),
                " byte(s) would be required, but only ",
                digits(error.len, &mut len),
                " byte(s) are available based on the ",
                source,
                ".",
            ],
            text,
        );
    }
    put(
        &[
            title,
            ": Not enough data to decode '",
            layer,
            "'. ",
            digits(error.required_len, &mut required_len),
            " byte(s) would be required, but only ",
            digits(error.len, &mut len),
            " byte(s) are available based on the ",
            source,
            " ('",
            layer,
            "' starts at overall parsed byte ",
            digits(error.layer_start_offset, &mut start),
            ").",
        ],
        text,
    )
}

// The text of a value that is too big, of a kind that has a number.
fn put_value(error: &Error, text: &mut [u8]) -> usize
    requires known { error.now.number ≤ 6 }
    ensures gives { (v : ValueType) → error.now.number ≡ value_in_c v → 0 < value_in_c v →
        GivesText (value_too_big_error_text (record {
          actual = error.now.len;
          max_allowed = error.now.limit;
          value_type = v;
        })) text.old text.new result }
{
    let name: &'static str = match error.number {
        IP_FRAGMENT_OFFSET => "IP Fragment Offset",
        IP_DSCP => "IPv4 DSCP (Differentiated Services Code Point)",
        IP_ECN => "IPv4 ECN (Explicit Congestion Notification)",
        IPV6_FLOW_LABEL => "IPv6 Flow Label",
        IPV4_PAYLOAD_LENGTH => "IPv4 Header 'Payload Length' (sets 'Total Length')",
        _ => "IPv6 Header 'Payload Length'",
    };
    let (mut value, mut limit) = (Buffer::new(), Buffer::new());
    put(
        &[
            "Error '",
            digits(error.len, &mut value),
            "' is too big to be a '",
            name,
            "' (maximum allowed value is '",
            digits(error.limit, &mut limit),
            "')",
        ],
        text,
    )
}

// The text of more headers than the limit.
fn put_too_many(error: &Error, text: &mut [u8]) -> usize
    ensures gives { GivesText (chain_error_text
        (chain.TooMany error.now.limit error.now.number error.now.layer_start_offset))
        text.old text.new result }
{
    let (mut limit, mut number, mut start) = (Buffer::new(), Buffer::new(), Buffer::new());
    put(
        &[
            "IPv6 Extension Header Error: More than ",
            digits(error.limit, &mut limit),
            " extension header(s) ('",
            digits(usize::from(error.number), &mut number),
            "' starts at overall parsed byte ",
            digits(error.layer_start_offset, &mut start),
            ").",
        ],
        text,
    )
}
