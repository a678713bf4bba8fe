//! The view of an IPv4 header (RFC 791 section 3.1): its bytes stay where they are.

ghost use Rattle.std.specs.Prelude.{◌≡◌};
ghost use Rattle.etherparse.specs.Ipv4Header.{OfIpv4Header, ReadsIpv4};
ghost use Rattle.c_answers.specs.Answer.{GivesAnswer, answer_in_c};
ghost use Rattle.c_answers.specs.Error.{ipv4_error_in_c};
ghost use Rattle.etherparse_c.specs.Ipv4.{ipv4_view_of, zero_ipv4_header};

use c_answers::error::{Error, Rest};
use etherparse::Ipv4HeaderSlice;

/// What the getters of a view return.
#[repr(C)]
#[derive(Drop)]
pub struct Ipv4ViewFields {
    /// The address of the sender.
    pub source: [u8; 4],
    /// The address of the receiver.
    pub destination: [u8; 4],
    /// The length of the header and what follows it, in bytes.
    pub total_len: u16,
    /// Equal in all fragments of one packet.
    pub identification: u16,
    /// The fragment's offset in the packet, in units of 8 bytes, at most 8191.
    pub fragment_offset: u16,
    /// The checksum that the header has, right or wrong.
    pub header_checksum: u16,
    /// The length of the header in words of 4 bytes, 5 to 15.
    pub ihl: u8,
    /// The differentiated services code point, at most 63.
    pub dscp: u8,
    /// The explicit congestion notification, at most 3.
    pub ecn: u8,
    /// Whether the packet must not be cut into fragments.
    pub dont_fragment: bool,
    /// Whether more fragments follow this one.
    pub more_fragments: bool,
    /// Whether the payload is a fragment: more fragments follow, or its offset is not 0.
    pub is_fragmenting_payload: bool,
    /// Decremented by every router; at 0 the packet is discarded.
    pub time_to_live: u8,
    /// The protocol of what follows the header.
    pub protocol: u8,
}

/// The header at the front of a slice: its bytes end where the rest starts, and the options are
/// those from byte 20 on.
#[repr(C)]
#[derive(Drop)]
pub struct Ipv4ViewAnswer {
    /// What its getters return.
    pub view: Ipv4ViewFields,
    /// Why there is none; its kind is 0 if there is one.
    pub error: Error,
    /// All the bytes after the header.
    pub rest: Rest,
}

/// A view of the header at the front of a slice, and where the bytes after it are.
///
/// The error is the first of these: fewer than 20 bytes; a version other than 4; an IHL below 5;
/// fewer bytes than the IHL says.
#[unsafe(no_mangle)]
pub extern "C" fn etherparse_ipv4_view(slice: &[u8]) -> Ipv4ViewAnswer
    ensures views { GivesAnswer (ReadsIpv4 slice.now)
        (answer_in_c ipv4_view_of (record (ipv4_view_of zero_ipv4_header) { ihl = 0 })
        ipv4_error_in_c slice.now)
        (result.view, result.error, result.rest) }
{
    match Ipv4HeaderSlice::from_slice(slice) {
        // Each arm has its own `return`, for speed: as the value of the `match` the answer takes
        // more instructions, a third more in `etherparse_ipv4_view`.
        Ok(view) => {
            return Ipv4ViewAnswer {
                error: Error::default(),
                rest: Rest::after(slice, view.slice),
                view: getters_of(&view),
            };
        }
        Err(e) => {
            return Ipv4ViewAnswer {
                error: Error::of_ipv4(&e),
                rest: Rest::default(),
                view: Ipv4ViewFields {
                    ihl: 0,
                    dscp: 0,
                    ecn: 0,
                    dont_fragment: false,
                    more_fragments: false,
                    is_fragmenting_payload: false,
                    time_to_live: 0,
                    protocol: 0,
                    total_len: 0,
                    identification: 0,
                    fragment_offset: 0,
                    header_checksum: 0,
                    source: [0; 4],
                    destination: [0; 4],
                },
            };
        }
    }
}

// What the getters of a view return.
#[inline(always)]
#[tactic(auto, using(std::proofs::lemmas::Bool::Decides::nat_tests))]
fn getters_of(view: &Ipv4HeaderSlice) -> Ipv4ViewFields
    ensures value { OfIpv4Header view.now.slice.now (λ header. result ≡ ipv4_view_of header) }
{
    Ipv4ViewFields {
        ihl: view.ihl(),
        dscp: view.dcp().value(),
        ecn: view.ecn().value(),
        dont_fragment: view.dont_fragment(),
        more_fragments: view.more_fragments(),
        is_fragmenting_payload: view.is_fragmenting_payload(),
        time_to_live: view.ttl(),
        protocol: view.protocol().0,
        total_len: view.total_len(),
        identification: view.identification(),
        fragment_offset: view.fragments_offset().value(),
        header_checksum: view.header_checksum(),
        source: view.source(),
        destination: view.destination(),
    }
}
