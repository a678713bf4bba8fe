//! The IPv4 header (RFC 791 section 3.1).

ghost use Rattle.std.specs.Prelude.{ℕ, ◌≡◌, ◌+◌, ◌-◌, ◌*◌, ◌^◌, ◌++◌, ◌<◌, ◌≤◌, List, [], IsTrue};
ghost use Rattle.std.specs.Prelude.{MatchOption, false, length, replicate};
ghost use Rattle.etherparse.specs.HeaderChecksum.{header_checksum_of};
ghost use Rattle.etherparse.specs.Ipv4Header.{ReadsIpv4, default_ipv4_header};
ghost use Rattle.etherparse.specs.Ipv4Options.{IsOptionsLen};
ghost use Rattle.etherparse.specs.WordSums.{updated_checksum};
ghost use Rattle.etherparse.specs.declared.err.ValueType.TheVariants.{Ipv4PayloadLength};
ghost use Rattle.etherparse.specs.declared.net.ipv4_header.Ipv4Header.{Ipv4Header as Header};
ghost use Rattle.c_answers.specs.Answer.{GivesAnswer, answer_in_c, bytes_in_c};
ghost use Rattle.c_answers.specs.Error.{ipv4_error_in_c, no_error, value_in_c};
ghost use Rattle.etherparse_c.specs.Ipv4.{AreIpv4Lengths, AreWithinBounds, AreWrittenForIpv4};
ghost use Rattle.etherparse_c.specs.Ipv4.{StandForIpv4, ipv4_fields_of, zero_ipv4_header};

use crate::room::{filled, filled_by_words};
use c_answers::error::{BAD_OPTIONS_LEN, Error, IPV4_PAYLOAD_LENGTH, Rest, VALUE_TOO_BIG};
use etherparse::{IpDscp, IpEcn, IpFragOffset, IpNumber, Ipv4Header, Ipv4Options};

/// The fields of an IPv4 header, as C has them.
#[repr(C)]
#[derive(Drop)]
pub struct Ipv4Fields {
    /// The differentiated services code point, at most 63.
    pub dscp: u8,
    /// The explicit congestion notification, at most 3.
    pub ecn: u8,
    /// The length of the header and what follows it, in bytes.
    pub total_len: u16,
    /// Equal in all fragments of one packet.
    pub identification: u16,
    /// Whether the packet must not be cut into fragments.
    pub dont_fragment: bool,
    /// Whether more fragments follow this one.
    pub more_fragments: bool,
    /// The fragment's offset in the packet, in units of 8 bytes, at most 8191.
    pub fragment_offset: u16,
    /// Decremented by every router; at 0 the packet is discarded.
    pub time_to_live: u8,
    /// The protocol of what follows the header.
    pub protocol: u8,
    /// The checksum over the header, as it was read or is to be written.
    pub header_checksum: u16,
    /// The address of the sender.
    pub source: [u8; 4],
    /// The address of the receiver.
    pub destination: [u8; 4],
    /// How many bytes of options there are: at most 40, in words of 4.
    pub options_len: u8,
    /// The options; what follows them in the array does not matter.
    pub options: [u8; 40],
}

/// The header at the front of a slice.
#[repr(C)]
#[derive(Drop)]
pub struct Ipv4ReadAnswer {
    /// Its fields, with 0 after the options in their array.
    pub fields: Ipv4Fields,
    /// Why there is none; its kind is 0 if there is one.
    pub error: Error,
    /// All the bytes after the header.
    pub rest: Rest,
}

/// The bytes of a header.
#[repr(C)]
#[derive(Drop)]
pub struct Ipv4Bytes {
    /// The bytes, in network byte order, and 0 after them.
    pub bytes: [u8; 60],
    /// How many there are: 20 to 60, or 0 if a field is out of its bounds.
    pub len: u8,
}

/// A header without options.
#[repr(C)]
#[derive(Drop)]
pub struct Ipv4NewAnswer {
    /// Its fields.
    pub fields: Ipv4Fields,
    /// Why there is none; its kind is 0 if there is one.
    pub error: Error,
}

/// The checksum that a header should have.
#[repr(C)]
#[derive(Drop)]
pub struct Ipv4HeaderChecksumAnswer {
    /// The checksum as a number whose high byte comes first in the header, or 0 if a field is out
    /// of its bounds.
    pub checksum: u16,
    /// Whether the fields are within their bounds.
    pub accepted: bool,
}

/// The lengths of a header and of its payload.
#[repr(C)]
#[derive(Drop)]
pub struct Ipv4LengthsAnswer {
    /// The length of the payload in bytes, by the total length.
    pub payload_len: u16,
    /// The length of the longest payload that fits after the header, in bytes.
    pub max_payload_len: u16,
    /// The length of the header with its options, in bytes, or 0 if options cannot have this
    /// length.
    pub header_len: u8,
    /// The same in words of 4 bytes.
    pub ihl: u8,
    /// Why there is no length of the payload; its kind is 0 if there is one.
    pub error: Error,
}

/// The default header: the packet must not be fragmented, its protocol is 255, and all else is 0,
/// false or empty.
#[unsafe(no_mangle)]
pub extern "C" fn etherparse_ipv4_default() -> Ipv4Fields
    ensures value { result ≡ ipv4_fields_of default_ipv4_header }
{
    fields_with(&Ipv4Header::default(), [0; 40])
}

/// The fields of a header without options for a payload of this length in bytes. All else is as in
/// the default, so the checksum is 0.
///
/// A payload above 65515 bytes is an error: with its header it does not fit `total_len`.
#[unsafe(no_mangle)]
pub extern "C" fn etherparse_ipv4_new(
    payload_len: u16,
    time_to_live: u8,
    protocol: u8,
    source: &[u8; 4],
    destination: &[u8; 4],
) -> Ipv4NewAnswer
    ensures made { payload_len ≤ 65515 → result ≡ record {
      error = no_error;
      fields = ipv4_fields_of (record default_ipv4_header {
        total_len = 20 + payload_len;
        time_to_live = time_to_live;
        protocol = protocol;
        source = source.now;
        destination = destination.now;
      });
    } }
    ensures refused { 65515 < payload_len → result ≡ record {
      error = record no_error {
        kind = 5;
        number = value_in_c Ipv4PayloadLength;
        len = payload_len;
        limit = 65515;
      };
      fields = ipv4_fields_of zero_ipv4_header;
    } }
{
    match Ipv4Header::new(
        payload_len,
        time_to_live,
        IpNumber(protocol),
        *source,
        *destination,
    ) {
        Ok(header) => {
            return Ipv4NewAnswer {
                error: Error::default(),
                fields: fields_with(&header, [0; 40]),
            };
        }
        Err(e) => {
            return Ipv4NewAnswer {
                error: Error {
                    kind: VALUE_TOO_BIG,
                    number: IPV4_PAYLOAD_LENGTH,
                    len: usize::from(e.actual),
                    limit: usize::from(e.max_allowed),
                    ..Error::default()
                },
                fields: no_fields(),
            };
        }
    }
}

/// The fields of the header at the front of a slice, and where the bytes after it are: all of them,
/// whatever `total_len` says.
///
/// The error is the first of these: fewer than 20 bytes; a version other than 4; an IHL below 5;
/// fewer bytes than the IHL says.
#[unsafe(no_mangle)]
pub extern "C" fn etherparse_ipv4_read(slice: &[u8]) -> Ipv4ReadAnswer
    ensures reads { GivesAnswer (ReadsIpv4 slice.now)
        (answer_in_c ipv4_fields_of (ipv4_fields_of zero_ipv4_header) ipv4_error_in_c slice.now)
        (result.fields, result.error, result.rest) }
{
    match Ipv4Header::from_slice(slice) {
        // Each arm has its own `return`, for speed: as the value of the `match` the answer takes
        // more instructions, a third more in `etherparse_ipv4_view`.
        Ok((header, rest)) => {
            let rest = Rest::of(slice, rest);
            // From the slice itself: the header's own options would be copied twice.
            let options = &slice[Ipv4Header::MIN_LEN..rest.offset];
            // Most headers have no options; then nothing is copied.
            if options.is_empty() {
                return Ipv4ReadAnswer {
                    error: Error::default(),
                    rest,
                    fields: fields_with(&header, [0; 40]),
                };
            }
            return Ipv4ReadAnswer {
                error: Error::default(),
                rest,
                fields: fields_with(&header, filled_by_words(options)),
            };
        }
        Err(e) => {
            return Ipv4ReadAnswer {
                error: Error::of_ipv4(&e),
                rest: Rest::default(),
                fields: no_fields(),
            };
        }
    }
}

/// The bytes of the header with these fields, with the reserved bit 0 and the stored checksum.
#[unsafe(no_mangle)]
pub extern "C" fn etherparse_ipv4_write(fields: &Ipv4Fields) -> Ipv4Bytes
    ensures layout { AreWithinBounds fields.now →
        GivesAnswer (AreWrittenForIpv4 fields.now) (bytes_in_c 60) (result.bytes, result.len) }
    ensures refused { ¬ AreWithinBounds fields.now → (result.bytes, result.len) ≡ bytes_in_c 60 [] }
{
    // Each length of options has a copy of its own, whose length the compiler knows.
    match fields.options_len {
        0 => return written_with::<0>(fields),
        4 => return written_with::<4>(fields),
        8 => return written_with::<8>(fields),
        12 => return written_with::<12>(fields),
        16 => return written_with::<16>(fields),
        20 => return written_with::<20>(fields),
        24 => return written_with::<24>(fields),
        28 => return written_with::<28>(fields),
        32 => return written_with::<32>(fields),
        36 => return written_with::<36>(fields),
        40 => return written_with::<40>(fields),
        _ => return Ipv4Bytes {
            bytes: [0; 60],
            len: 0,
        },
    }
}

/// The lengths of a header with this many bytes of options, and of its payload by this total
/// length.
///
/// A length that options cannot have is an error, and so is a total length below the header's.
#[unsafe(no_mangle)]
pub extern "C" fn etherparse_ipv4_lengths(total_len: u16, options_len: u8) -> Ipv4LengthsAnswer
    ensures value { IsOptionsLen options_len → (header : Header) → header.total_len ≡ total_len →
        length header.options ≡ options_len → AreIpv4Lengths result header }
    ensures refused { ¬ IsOptionsLen options_len → result ≡ record {
      error = record no_error { kind = 6; len = options_len };
      payload_len = 0;
      max_payload_len = 0;
      header_len = 0;
      ihl = 0;
    } }
{
    if options_len > 40 || options_len % 4 != 0 {
        return Ipv4LengthsAnswer {
            error: Error {
                kind: BAD_OPTIONS_LEN,
                len: usize::from(options_len),
                ..Error::default()
            },
            payload_len: 0,
            max_payload_len: 0,
            header_len: 0,
            ihl: 0,
        };
    }
    let mut header = Ipv4Header::default();
    header.total_len = total_len;
    header.options = Ipv4Options::from_front(&[0; 40], usize::from(options_len));
    let (payload_len, error) = match header.payload_len() {
        Ok(len) => (len, Error::default()),
        Err(e) => (0, Error::of_len(&e)),
    };
    Ipv4LengthsAnswer {
        error,
        payload_len,
        max_payload_len: header.max_payload_len(),
        header_len: header.header_len() as u8,
        ihl: header.ihl(),
    }
}

/// The checksum that a header with these fields should have, as a number whose high byte comes
/// first in the header. It does not depend on the stored checksum.
#[unsafe(no_mangle)]
pub extern "C" fn etherparse_ipv4_header_checksum(fields: &Ipv4Fields) -> Ipv4HeaderChecksumAnswer
    ensures value { AreWithinBounds fields.now → IsTrue result.accepted × ((bytes : List ℕ) →
        AreWrittenForIpv4 fields.now bytes → result.checksum ≡ header_checksum_of bytes) }
    ensures refused { ¬ AreWithinBounds fields.now →
        (result.checksum ≡ 0) × (result.accepted ≡ false) }
{
    match header_of(fields) {
        Some(header) => {
            return Ipv4HeaderChecksumAnswer {
                checksum: header.calc_header_checksum(),
                accepted: true,
            };
        }
        None => {
            return Ipv4HeaderChecksumAnswer {
                checksum: 0,
                accepted: false,
            };
        }
    }
}

/// Sets the time to live, updates the stored checksum for it, and returns `true`. If a field is out
/// of its bounds, it returns `false` and changes nothing.
#[unsafe(no_mangle)]
pub extern "C" fn etherparse_ipv4_set_time_to_live(
    fields: &mut Ipv4Fields,
    time_to_live: u8,
) -> bool
    ensures set { AreWithinBounds fields.old → IsTrue result × (fields.new ≡ record fields.old {
      time_to_live = time_to_live;
      header_checksum = updated_checksum fields.old.header_checksum
          (fields.old.time_to_live * 2 ^ 8 + fields.old.protocol)
          (time_to_live * 2 ^ 8 + fields.old.protocol);
    }) }
    ensures refused { ¬ AreWithinBounds fields.old →
        (result ≡ false) × (fields.new ≡ fields.old) }
{
    let Some(mut header) = header_of(fields) else {
        return false;
    };
    header.set_time_to_live(time_to_live);
    fields.time_to_live = header.time_to_live;
    fields.header_checksum = header.header_checksum;
    true
}

// The header with these fields, if they are within their bounds.
#[inline(always)]
fn header_of(fields: &Ipv4Fields) -> Option<Ipv4Header>
    ensures { MatchOption result (¬ AreWithinBounds fields.now)
        (λ header. AreWithinBounds fields.now × StandForIpv4 fields.now header) }
{
    let options_len = usize::from(fields.options_len);
    if options_len > 40 || options_len % 4 != 0 {
        return None;
    }
    header_with(fields, options_len)
}

// The same, with this many bytes of options.
#[inline(always)]
fn header_with(fields: &Ipv4Fields, options_len: usize) -> Option<Ipv4Header>
    requires found { fields.now.options_len ≡ options_len }
    requires fits { IsOptionsLen options_len }
    ensures { MatchOption result (¬ AreWithinBounds fields.now)
        (λ header. AreWithinBounds fields.now × StandForIpv4 fields.now header) }
{
    let dscp = IpDscp::try_new(fields.dscp).ok()?;
    let ecn = IpEcn::try_new(fields.ecn).ok()?;
    let fragment_offset = IpFragOffset::try_new(fields.fragment_offset).ok()?;
    // Read first, so that their bounds are known when the header is made.
    let (time_to_live, header_checksum) = (fields.time_to_live, fields.header_checksum);
    Some(Ipv4Header {
        dscp,
        ecn,
        total_len: fields.total_len,
        identification: fields.identification,
        dont_fragment: fields.dont_fragment,
        more_fragments: fields.more_fragments,
        fragment_offset,
        time_to_live,
        protocol: IpNumber(fields.protocol),
        header_checksum,
        source: fields.source,
        destination: fields.destination,
        options: Ipv4Options::from_front(&fields.options, options_len),
    })
}

// The bytes of the header with these fields, with N bytes of options.
#[inline(always)]
fn written_with<const N: usize>(fields: &Ipv4Fields) -> Ipv4Bytes
    requires found { fields.now.options_len ≡ N }
    requires fits { IsOptionsLen N }
    ensures layout { AreWithinBounds fields.now →
        GivesAnswer (AreWrittenForIpv4 fields.now) (bytes_in_c 60) (result.bytes, result.len) }
    ensures refused { ¬ AreWithinBounds fields.now → (result.bytes, result.len) ≡ bytes_in_c 60 [] }
{
    match header_with(fields, N) {
        Some(header) => {
            let written = header.to_bytes();
            let bytes = written.as_slice();
            return Ipv4Bytes {
                bytes: filled::<60>(bytes),
                len: bytes.len() as u8,
            };
        }
        None => return Ipv4Bytes {
            bytes: [0; 60],
            len: 0,
        },
    }
}

// The fields of a header, with its options at the front of an array.
#[inline(always)]
fn fields_with(header: &Ipv4Header, options: [u8; 40]) -> Ipv4Fields
    requires { options
        ≡ header.now.options ++ replicate (40 - length header.now.options) 0 }
    ensures value { result ≡ ipv4_fields_of header.now }
{
    Ipv4Fields {
        dscp: header.dscp.value(),
        ecn: header.ecn.value(),
        total_len: header.total_len,
        identification: header.identification,
        dont_fragment: header.dont_fragment,
        more_fragments: header.more_fragments,
        fragment_offset: header.fragment_offset.value(),
        time_to_live: header.time_to_live,
        protocol: header.protocol.0,
        header_checksum: header.header_checksum,
        source: header.source,
        destination: header.destination,
        options_len: header.options.len_u8(),
        options,
    }
}

// The fields if there is no header.
#[inline(always)]
fn no_fields() -> Ipv4Fields
    ensures value { result ≡ ipv4_fields_of zero_ipv4_header }
{
    Ipv4Fields {
        dscp: 0,
        ecn: 0,
        total_len: 0,
        identification: 0,
        dont_fragment: false,
        more_fragments: false,
        fragment_offset: 0,
        time_to_live: 0,
        protocol: 0,
        header_checksum: 0,
        source: [0; 4],
        destination: [0; 4],
        options_len: 0,
        options: [0; 40],
    }
}
