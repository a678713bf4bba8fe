//! The view of an IPv6 header (RFC 8200 section 3): its bytes stay where they are.

ghost use Rattle.std.specs.Prelude.{◌≡◌};
ghost use Rattle.etherparse.specs.Ipv6Header.{OfIpv6Header, ReadsIpv6};
ghost use Rattle.c_answers.specs.Answer.{GivesAnswer, answer_in_c};
ghost use Rattle.c_answers.specs.Error.{ipv6_error_in_c};
ghost use Rattle.etherparse_c.specs.Ipv6.{ipv6_view_of, zero_ipv6_header};

use c_answers::error::{Error, Rest};
use etherparse::Ipv6HeaderSlice;

/// What the getters of a view return.
#[repr(C)]
#[derive(Drop)]
pub struct Ipv6ViewFields {
    /// The address of the sender.
    pub source: [u8; 16],
    /// The address of the receiver.
    pub destination: [u8; 16],
    /// The flow label, which marks packets that routers should treat alike, at most 1048575.
    pub flow_label: u32,
    /// The length in bytes of all that follows the header.
    pub payload_length: u16,
    /// The traffic class.
    pub traffic_class: u8,
    /// The differentiated services code point: the upper 6 bits of the traffic class.
    pub dscp: u8,
    /// The explicit congestion notification: the lower 2 bits of the traffic class.
    pub ecn: u8,
    /// What follows the header: an extension header or an upper-layer protocol.
    pub next_header: u8,
    /// Decremented by every router; at 0 the packet is discarded.
    pub hop_limit: u8,
}

/// The header at the front of a slice: its bytes end where the rest starts.
#[repr(C)]
#[derive(Drop)]
pub struct Ipv6ViewAnswer {
    /// What its getters return.
    pub view: Ipv6ViewFields,
    /// Why there is none; its kind is 0 if there is one.
    pub error: Error,
    /// All the bytes after the header.
    pub rest: Rest,
}

/// A view of the header at the front of a slice, and where the bytes after it are.
///
/// Fewer than 40 bytes are an error; otherwise a version other than 6 is.
#[unsafe(no_mangle)]
pub extern "C" fn etherparse_ipv6_view(slice: &[u8]) -> Ipv6ViewAnswer
    ensures views { GivesAnswer (ReadsIpv6 slice.now)
        (answer_in_c ipv6_view_of (ipv6_view_of zero_ipv6_header) ipv6_error_in_c slice.now)
        (result.view, result.error, result.rest) }
{
    match Ipv6HeaderSlice::from_slice(slice) {
        // Each arm has its own `return`, for speed: as the value of the `match` the answer takes
        // more instructions, a third more in `etherparse_ipv4_view`.
        Ok(view) => {
            return Ipv6ViewAnswer {
                error: Error::default(),
                rest: Rest::after(slice, view.slice),
                view: getters_of(&view),
            };
        }
        Err(e) => {
            return Ipv6ViewAnswer {
                error: Error::of_ipv6(&e),
                rest: Rest::default(),
                view: Ipv6ViewFields {
                    flow_label: 0,
                    payload_length: 0,
                    traffic_class: 0,
                    dscp: 0,
                    ecn: 0,
                    next_header: 0,
                    hop_limit: 0,
                    source: [0; 16],
                    destination: [0; 16],
                },
            };
        }
    }
}

// What the getters of a view return.
#[inline(always)]
fn getters_of(view: &Ipv6HeaderSlice) -> Ipv6ViewFields
    ensures value { OfIpv6Header view.now.slice.now (λ header. result ≡ ipv6_view_of header) }
{
    Ipv6ViewFields {
        flow_label: view.flow_label().value(),
        payload_length: view.payload_length(),
        traffic_class: view.traffic_class(),
        dscp: view.dscp().value(),
        ecn: view.ecn().value(),
        next_header: view.next_header().0,
        hop_limit: view.hop_limit(),
        source: byte_by_byte(view.source()),
        destination: byte_by_byte(view.destination()),
    }
}

// The same bytes. Read one by one, they go into the answer by one load and one store; copied as a
// whole, they are stored in between.
#[inline(always)]
fn byte_by_byte(address: [u8; 16]) -> [u8; 16]
    ensures { result ≡ address }
{
    let [a, b, c, d, e, f, g, h, i, j, k, l, m, n, o, p] = address;
    [a, b, c, d, e, f, g, h, i, j, k, l, m, n, o, p]
}
