//! The IPv6 header (RFC 8200 section 3).

ghost use Rattle.std.specs.Prelude.{◌≡◌, ◌^◌, ◌<◌, [], MatchOption};
ghost use Rattle.etherparse.specs.Ipv6Header.{ReadsIpv6, default_ipv6_header};
ghost use Rattle.c_answers.specs.Answer.{GivesAnswer, answer_in_c, bytes_in_c};
ghost use Rattle.c_answers.specs.Error.{ipv6_error_in_c};
ghost use Rattle.etherparse_c.specs.Ipv6.{AreWrittenForIpv6, ipv6_fields_of, zero_ipv6_header};

use c_answers::error::{Error, Rest};
use etherparse::{IpNumber, Ipv6FlowLabel, Ipv6Header};

/// The fields of an IPv6 header, as C has them.
#[repr(C)]
#[derive(Drop)]
pub struct Ipv6Fields {
    /// The address of the sender.
    pub source: [u8; 16],
    /// The address of the receiver.
    pub destination: [u8; 16],
    /// The flow label, which marks packets that routers should treat alike, at most 1048575.
    pub flow_label: u32,
    /// The length in bytes of all that follows the header.
    pub payload_length: u16,
    /// The traffic class: the DSCP in the upper 6 bits, the ECN in the lower 2.
    pub traffic_class: u8,
    /// What follows the header: an extension header or an upper-layer protocol.
    pub next_header: u8,
    /// Decremented by every router; at 0 the packet is discarded.
    pub hop_limit: u8,
}

/// The header at the front of a slice.
#[repr(C)]
#[derive(Drop)]
pub struct Ipv6ReadAnswer {
    /// Its fields.
    pub fields: Ipv6Fields,
    /// Why there is none; its kind is 0 if there is one.
    pub error: Error,
    /// All the bytes after the header.
    pub rest: Rest,
}

/// The bytes of a header.
#[repr(C)]
#[derive(Drop)]
pub struct Ipv6Bytes {
    /// The bytes, in network byte order.
    pub bytes: [u8; 40],
    /// How many there are: 40, or 0 if the flow label is too great.
    pub len: u8,
}

/// The default header: the next header is 255, and all else is 0.
#[unsafe(no_mangle)]
pub extern "C" fn etherparse_ipv6_default() -> Ipv6Fields
    ensures value { result ≡ ipv6_fields_of default_ipv6_header }
{
    fields_of(&Ipv6Header::default())
}

/// The fields of the header at the front of a slice, and where the bytes after it are: all of them,
/// whatever `payload_length` says.
///
/// Fewer than 40 bytes are an error; otherwise a version other than 6 is.
#[unsafe(no_mangle)]
pub extern "C" fn etherparse_ipv6_read(slice: &[u8]) -> Ipv6ReadAnswer
    ensures reads { GivesAnswer (ReadsIpv6 slice.now)
        (answer_in_c ipv6_fields_of (ipv6_fields_of zero_ipv6_header) ipv6_error_in_c slice.now)
        (result.fields, result.error, result.rest) }
{
    match Ipv6Header::from_slice(slice) {
        // Each arm has its own `return`, for speed: as the value of the `match` the answer takes
        // more instructions, a third more in `etherparse_ipv4_view`.
        Ok((header, rest)) => {
            return Ipv6ReadAnswer {
                error: Error::default(),
                rest: Rest::of(slice, rest),
                fields: fields_of(&header),
            };
        }
        Err(e) => {
            return Ipv6ReadAnswer {
                error: Error::of_ipv6(&e),
                rest: Rest::default(),
                fields: Ipv6Fields {
                    flow_label: 0,
                    payload_length: 0,
                    traffic_class: 0,
                    next_header: 0,
                    hop_limit: 0,
                    source: [0; 16],
                    destination: [0; 16],
                },
            };
        }
    }
}

/// The bytes of the header with these fields.
#[unsafe(no_mangle)]
pub extern "C" fn etherparse_ipv6_write(fields: &Ipv6Fields) -> Ipv6Bytes
    ensures layout { fields.now.flow_label < 2 ^ 20 →
        GivesAnswer (AreWrittenForIpv6 fields.now) (bytes_in_c 40) (result.bytes, result.len) }
    ensures refused { ¬ (fields.now.flow_label < 2 ^ 20) →
        (result.bytes, result.len) ≡ bytes_in_c 40 [] }
{
    match header_of(fields) {
        Some(header) => {
            return Ipv6Bytes {
                bytes: header.to_bytes(),
                len: 40,
            };
        }
        None => {
            return Ipv6Bytes {
                bytes: [0; 40],
                len: 0,
            };
        }
    }
}

// The header with these fields, if the flow label is within its bound.
#[inline(always)]
fn header_of(fields: &Ipv6Fields) -> Option<Ipv6Header>
    ensures { MatchOption result (¬ (fields.now.flow_label < 2 ^ 20)) (λ header.
        (fields.now.flow_label < 2 ^ 20) × (fields.now ≡ ipv6_fields_of header)) }
{
    let flow_label = Ipv6FlowLabel::try_new(fields.flow_label).ok()?;
    Some(Ipv6Header {
        traffic_class: fields.traffic_class,
        flow_label,
        payload_length: fields.payload_length,
        next_header: IpNumber(fields.next_header),
        hop_limit: fields.hop_limit,
        source: fields.source,
        destination: fields.destination,
    })
}

// The fields of a header.
#[inline(always)]
fn fields_of(header: &Ipv6Header) -> Ipv6Fields
    ensures value { result ≡ ipv6_fields_of header.now }
{
    Ipv6Fields {
        flow_label: header.flow_label.value(),
        payload_length: header.payload_length,
        traffic_class: header.traffic_class,
        next_header: header.next_header.0,
        hop_limit: header.hop_limit,
        source: header.source,
        destination: header.destination,
    }
}
