mod checksum;
mod fixed_and_options;

use super::ipv4_header_slice::options_of;
use super::ipv4_payload_len::payload_len_between;
use crate::err::ipv4::{BadOptionsLen, HeaderSliceError};
use crate::err::{LenError, ValueTooBigError, ValueType};
use crate::{IpDscp, IpEcn, IpFragOffset, IpNumber, Ipv4HeaderSlice, Ipv4Options};
use arrayvec::ArrayVec;
use fixed_and_options::front_and_options;

/// An IPv4 header with its options (RFC 791 section 3.1).
///
/// ```text
///  0                   1                   2                   3
///  0 1 2 3 4 5 6 7 8 9 0 1 2 3 4 5 6 7 8 9 0 1 2 3 4 5 6 7 8 9 0 1
/// +-+-+-+-+-+-+-+-+-+-+-+-+-+-+-+-+-+-+-+-+-+-+-+-+-+-+-+-+-+-+-+-+
/// |   4   |  ihl  |    dscp   |ecn|           total_len           |
/// +-+-+-+-+-+-+-+-+-+-+-+-+-+-+-+-+-+-+-+-+-+-+-+-+-+-+-+-+-+-+-+-+
/// |         identification        |0|D|M|     fragment_offset     |
/// +-+-+-+-+-+-+-+-+-+-+-+-+-+-+-+-+-+-+-+-+-+-+-+-+-+-+-+-+-+-+-+-+
/// |  time_to_live |    protocol   |        header_checksum        |
/// +-+-+-+-+-+-+-+-+-+-+-+-+-+-+-+-+-+-+-+-+-+-+-+-+-+-+-+-+-+-+-+-+
/// |                             source                            |
/// +-+-+-+-+-+-+-+-+-+-+-+-+-+-+-+-+-+-+-+-+-+-+-+-+-+-+-+-+-+-+-+-+
/// |                          destination                          |
/// +-+-+-+-+-+-+-+-+-+-+-+-+-+-+-+-+-+-+-+-+-+-+-+-+-+-+-+-+-+-+-+-+
/// |            options, 0 to 40 bytes in words of 4 ..            |
/// +-+-+-+-+-+-+-+-+-+-+-+-+-+-+-+-+-+-+-+-+-+-+-+-+-+-+-+-+-+-+-+-+
/// ```
///
/// `D` is `dont_fragment` and `M` is `more_fragments`. The version, 4, and the IHL are not fields:
/// the IHL is written from the options' length. The reserved bit before `D` is not a field either:
/// it is read as 0 or 1, and written as 0.
///
/// # Example
///
/// ```
/// let (source, destination) = ([192, 168, 0, 1], [192, 168, 0, 199]);
/// let mut header = Ipv4Header::new(95, 64, IpNumber::UDP, source, destination)?;
/// header.header_checksum = header.calc_header_checksum();
/// let bytes = header.to_bytes();
/// let (read, _) = Ipv4Header::from_slice(bytes.as_slice())?;
/// assert!(rt; read == header);
/// ```
#[derive(Clone, Debug, PartialEq, Eq, Hash, Drop)]
pub struct Ipv4Header {
    /// The differentiated services code point (RFC 2474).
    pub dscp: IpDscp,
    /// The explicit congestion notification (RFC 3168).
    pub ecn: IpEcn,
    /// The length of the header and what follows it, in bytes.
    pub total_len: u16,
    /// Equal in all fragments of one packet.
    pub identification: u16,
    /// Whether routers must not fragment the packet.
    pub dont_fragment: bool,
    /// Whether more fragments follow this one.
    pub more_fragments: bool,
    /// Where the fragment stands in the packet, in units of 8 bytes.
    pub fragment_offset: IpFragOffset,
    /// Decremented by every router; at 0 the packet is discarded.
    pub time_to_live: u8,
    /// The protocol of what follows the header.
    pub protocol: IpNumber,
    /// The checksum over the header, right or wrong: bytes 10 and 11, the high byte first. What
    /// [`ones_complement`](crate::checksum::u64_16bit_word::ones_complement) returns has the low
    /// byte first; its `swap_bytes` is the number for this field.
    pub header_checksum: u16,
    /// The address of the sender.
    pub source: [u8; 4],
    /// The address of the receiver.
    pub destination: [u8; 4],
    /// What follows the fixed fields, 0 to 40 bytes in words of 4. A change in their length leaves
    /// `total_len` as it was: call [`Ipv4Header::set_payload_len`] afterwards.
    pub options: Ipv4Options,
}

const _: () = prove!(Ipv4Header::MIN_LEN == 20 && Ipv4Header::MIN_LEN_U16 == 20);

const _: () = prove!(Ipv4Header::MAX_LEN == 60 && Ipv4Header::SERIALIZED_SIZE == 20);

const _: () = prove!(Ipv4Header::MAX_PAYLOAD_LEN == 65515);

impl Ipv4Header {
    ghost use Rattle.std.specs.Prelude.{ℕ, ◌≡◌, ◌+◌, ◌*◌, ◌^◌, ◌<◌, ◌≤◌, ◌↔◌, ◌⊎◌};
    ghost use Rattle.std.specs.Prelude.{List, [], ◌∷◌, ◌++◌, length};
    ghost use Rattle.std.specs.Prelude.{IfErr, IfOk, IsOk, IsTrue, Ok, OnErr, OnOk};
    ghost use Rattle.std.specs.Int.{from_bool, to_be_bytes, w16};
    ghost use Rattle.etherparse_base.specs.WordSums.{SumsToAllOnes};
    ghost use Rattle.etherparse_fields.specs.IpEcn.{ecn_value};
    ghost use Rattle.etherparse_fields.specs.Ipv4Options.{IsOptionsLen};
    ghost use Rattle.etherparse.specs.HeaderChecksum.{header_checksum_of};
    ghost use Rattle.etherparse.specs.Ipv4Header.{IsFragment, IsIpv4LayoutWith, IsIpv4ReadingOf};
    ghost use Rattle.etherparse.specs.Ipv4Header.{ViewsIpv4, default_ipv4_header};
    ghost use Rattle.etherparse.specs.Ipv4Header.{ipv4_header_len, ipv4_ihl, ipv4_max_payload_len};
    ghost use Rattle.etherparse.specs.Ipv4Header.{ipv4_payload_len};
    ghost use Rattle.etherparse.specs.Reading.{found_and_rest};

    /// The length of a header with no options, in bytes.
    pub const MIN_LEN: usize = 20;

    /// The length of a header with no options, in bytes.
    pub const MIN_LEN_U16: u16 = 20;

    /// The length of a header with all the options that it has room for, in bytes.
    pub const MAX_LEN: usize = 60;

    /// An older name of [`Ipv4Header::MIN_LEN`].
    pub const SERIALIZED_SIZE: usize = 20;

    // The longest payload of a header with no options, in bytes: `total_len` counts both.
    const MAX_PAYLOAD_LEN: u16 = u16::MAX - Ipv4Header::MIN_LEN_U16;

    /// A header without options for a payload of this length in bytes. All else is as in the
    /// default, so the checksum is 0: [`Ipv4Header::calc_header_checksum`] gives the right one.
    ///
    /// # Errors
    ///
    /// A `ValueTooBigError` if the payload is longer than 65515 bytes: with the header, that is
    /// more than `total_len` has room for.
    ///
    /// # Example
    ///
    /// ```
    /// let (source, destination) = ([192, 168, 0, 1], [192, 168, 0, 199]);
    /// let made = Ipv4Header::new(12, 64, IpNumber::UDP, source, destination);
    /// ```
    pub fn new(
        payload_len: u16,
        time_to_live: u8,
        protocol: IpNumber,
        source: [u8; 4],
        destination: [u8; 4],
    ) -> Result<Ipv4Header, ValueTooBigError<u16>>
        ensures accepted { IsOk result ↔ (payload_len ≤ 65515) }
        ensures refused { IfErr result (λ e. e ≡ record {
          actual = payload_len;
          max_allowed = 65515;
          value_type = ValueType.Ipv4PayloadLength;
        }) }
        ensures made { IfOk result (λ header. header ≡ record default_ipv4_header {
          total_len = Self.MIN_LEN + payload_len;
          time_to_live = time_to_live;
          protocol = protocol;
          source = source;
          destination = destination;
        }) }
    {
        if payload_len > Ipv4Header::MAX_PAYLOAD_LEN {
            return Err(ValueTooBigError {
                actual: payload_len,
                max_allowed: Ipv4Header::MAX_PAYLOAD_LEN,
                value_type: ValueType::Ipv4PayloadLength,
            });
        }
        Ok(Ipv4Header {
            total_len: Ipv4Header::MIN_LEN_U16 + payload_len,
            time_to_live,
            protocol,
            source,
            destination,
            ..Ipv4Header::default()
        })
    }

    /// The length of the header in words of 4 bytes, 5 to 15, as the IHL field has it.
    /// [`Ipv4Header::header_len`] has an example.
    #[inline]
    pub fn ihl(&self) -> u8
        ensures value { result ≡ ipv4_ihl self.now }
        ensures within { result ≤ 15 }
    {
        self.options.len_u8() / 4 + 5
    }

    /// The length of the header with its options in bytes, 20 to 60 in steps of 4.
    ///
    /// # Example
    ///
    /// ```
    /// let mut header = Ipv4Header::default();
    /// header.options = Ipv4Options::from([148, 4, 0, 0]);
    /// assert!(rt; (header.ihl(), header.header_len()) == (6, 24));
    /// ```
    #[inline]
    pub fn header_len(&self) -> usize
        ensures value { result ≡ ipv4_header_len self.now }
        ensures within { result ≤ Self.MAX_LEN }
        ensures in_words { result ≡ 4 * ipv4_ihl self.now }
    {
        Ipv4Header::MIN_LEN + self.options.len()
    }

    /// The length of the payload in bytes: the total length less the header length.
    ///
    /// # Errors
    ///
    /// A `LenError` if the total length is below the length of the header: `len` is then the total
    /// length, `required_len` the header length.
    ///
    /// # Example
    ///
    /// ```
    /// let mut header = Ipv4Header::default();
    /// header.total_len = 120;
    /// assert!(rt; header.payload_len() == Ok(100));
    /// // A total length that leaves no room for the header.
    /// header.total_len = 19;
    /// assert!(rt; header.payload_len().is_err());
    /// ```
    #[inline]
    pub fn payload_len(&self) -> Result<u16, LenError>
        ensures value { result ≡ ipv4_payload_len self.now }
        ensures of_total { IfOk result (λ len.
            ipv4_header_len self.now + len ≡ self.now.total_len) }
        ensures short { IfErr result (λ e. self.now.total_len < ipv4_header_len self.now) }
    {
        payload_len_between(self.header_len() as u16, self.total_len)
    }

    /// The length of the longest payload that fits after the header, in bytes: 65515 less the
    /// length of the options.
    #[inline]
    pub fn max_payload_len(&self) -> u16
        ensures value { result ≡ ipv4_max_payload_len self.now }
        ensures at_least { 65475 ≤ result }
        ensures within { result ≤ 65515 }
    {
        Ipv4Header::MAX_PAYLOAD_LEN - u16::from(self.options.len_u8())
    }

    /// Sets the total length to that of the header and a payload of this length, in bytes. Changing
    /// the options later does not change the total length: call this again then.
    ///
    /// # Errors
    ///
    /// A `ValueTooBigError` if the payload is longer than [`Ipv4Header::max_payload_len`]. The
    /// header is then unchanged.
    ///
    /// # Example
    ///
    /// ```
    /// let mut header = Ipv4Header::default();
    /// header.set_payload_len(100)?;
    /// // Options that come later take their bytes from the payload: its length is set again.
    /// header.set_options(&[148, 4, 0, 0])?;
    /// assert!(rt; header.payload_len() == Ok(96));
    /// header.set_payload_len(100)?;
    /// assert!(rt; header.total_len == 124);
    /// ```
    pub fn set_payload_len(&mut self, value: usize) -> Result<(), ValueTooBigError<usize>>
        ensures accepted { IsOk result ↔ (value ≤ ipv4_max_payload_len self.old) }
        ensures fits_any_options { value ≤ 65475 → IsOk result }
        ensures refused { IfErr result (λ e. e ≡ record {
          actual = value;
          max_allowed = ipv4_max_payload_len self.old;
          value_type = ValueType.Ipv4PayloadLength;
        }) }
        ensures set { OnOk result (self.new ≡ record self.old {
          total_len = ipv4_header_len self.old + value;
        }) }
        ensures unchanged { OnErr result (self.new ≡ self.old) }
    {
        let max_allowed = usize::from(self.max_payload_len());
        if value > max_allowed {
            return Err(ValueTooBigError {
                actual: value,
                max_allowed,
                value_type: ValueType::Ipv4PayloadLength,
            });
        }
        self.total_len = (self.header_len() + value) as u16;
        Ok(())
    }

    /// The bytes of the options: an older way to read the field `options`.
    pub fn options(&self) -> &[u8]
        ensures value { result.now ≡ self.now.options }
    {
        self.options.as_slice()
    }

    /// Replaces the options with these bytes: an older way to set the field. The total length stays
    /// what it was: call [`Ipv4Header::set_payload_len`] afterwards.
    ///
    /// # Errors
    ///
    /// A `BadOptionsLen` if there are more than 40 bytes, or a number of bytes that is not a
    /// multiple of 4. The header is then unchanged.
    pub fn set_options(&mut self, data: &[u8]) -> Result<(), BadOptionsLen>
        ensures accepted { IsOk result ↔ IsOptionsLen (length «data».now) }
        ensures refused { IfErr result (λ e. e ≡ record { bad_len = length «data».now }) }
        ensures set { OnOk result (self.new ≡ record self.old { options = «data».now }) }
        ensures unchanged { OnErr result (self.new ≡ self.old) }
    {
        self.options = Ipv4Options::try_from(data)?;
        Ok(())
    }

    /// Whether the payload is a fragment: more fragments follow it, or its offset is not 0.
    #[inline]
    pub fn is_fragmenting_payload(&self) -> bool
        ensures value { IsTrue result ↔ IsFragment self.now }
    {
        self.more_fragments || self.fragment_offset.value() != 0
    }

    /// An older name of [`Ipv4Header::from_slice`].
    ///
    /// # Errors
    ///
    /// Those of [`Ipv4Header::from_slice`].
    #[inline]
    pub fn read_from_slice(slice: &[u8]) -> Result<(Ipv4Header, &[u8]), HeaderSliceError>
        ensures reads { IsIpv4ReadingOf slice.now (found_and_rest result) }
    {
        Ipv4Header::from_slice(slice)
    }

    /// The header at the front of a slice, and all the bytes after it. These are not cut at
    /// `total_len`, and may be fewer than it says: [`Ipv4Header::payload_len`] says how many are
    /// the payload, and `rest.get(..len)` takes those. The checksum is not tested.
    ///
    /// # Errors
    ///
    /// In this order: `Len` if the slice has fewer than 20 bytes; `Content` if the version is not
    /// 4, or the IHL is below 5; `Len` if the slice has fewer bytes than the IHL says.
    ///
    /// # Example
    ///
    /// ```
    /// // The total length is 24, and two bytes of padding follow the packet.
    /// let packet = [
    ///     0x45, 0, 0, 24, 0, 0, 0x40, 0, 64, 17, 0, 0, 10, 0, 0, 1, 10, 0, 0, 2, 1, 2, 3, 4, 0, 0,
    /// ];
    /// let (header, rest) = Ipv4Header::from_slice(&packet)?;
    /// // `None` where the packet is cut short.
    /// let payload = rest.get(..usize::from(header.payload_len()?));
    /// assert!(rt; payload == Some([1, 2, 3, 4].as_slice()));
    /// ```
    #[inline(always)]
    pub fn from_slice(slice: &[u8]) -> Result<(Ipv4Header, &[u8]), HeaderSliceError>
        ensures reads { IsIpv4ReadingOf slice.now (found_and_rest result) }
    {
        let view = Ipv4HeaderSlice::from_slice(slice)?;
        let len = view.slice.len();
        let rest = &slice[len..];
        if len == Ipv4Header::MIN_LEN {
            return Ok((view.header_with(Ipv4Options::new()), rest));
        }
        // A number of bytes that the compiler knows is copied without a call, so 40 bytes are
        // copied if there are that many.
        if slice.len() >= Ipv4Header::MAX_LEN {
            let bytes = slice[Ipv4Header::MIN_LEN..Ipv4Header::MAX_LEN]
                .first_chunk::<40>()
                .unwrap();
            let options = Ipv4Options::from_front(bytes, len - Ipv4Header::MIN_LEN);
            return Ok((view.header_with(options), rest));
        }
        Ok((view.header_with(options_of(view.options())), rest))
    }

    /// The bytes of the header, in network byte order, with the reserved bit 0 and the stored
    /// checksum.
    #[inline(always)]
    pub fn to_bytes(&self) -> ArrayVec<u8, 60>
        ensures layout { IsIpv4LayoutWith self.now 0 result.items }
        ensures only { (bytes : List ℕ) → IsIpv4LayoutWith self.now 0 bytes → bytes ≡ result.items }
        ensures read_again { (rest : List ℕ) →
            IsIpv4ReadingOf (result.items ++ rest) (Ok (self.now, rest)) }
        ensures viewed_again { (rest : List ℕ) →
            ViewsIpv4 (result.items ++ rest) (Ok result.items) }
        ensures read_alone { IsIpv4ReadingOf result.items (Ok (self.now, [])) }
        ensures viewed_alone { ViewsIpv4 result.items (Ok result.items) }

        // A receiver finds the checksum right if it is the computed one, in either form of zero.
        ensures sums_to_all_ones { SumsToAllOnes result.items
            ↔ ((self.now.header_checksum ≡ header_checksum_of result.items)
            ⊎ ((self.now.header_checksum ≡ 65535) × (header_checksum_of result.items ≡ 0))) }
    {
        front_and_options(&self.front(self.header_checksum), self.options.as_slice())
    }

    // The bytes before the options, with this checksum.
    #[inline(always)]
    #[rattlefmt::skip]
    fn front(&self, header_checksum: u16) -> [u8; 20]
        ensures value { result ≡ (4 * 2 ^ 4 + ipv4_ihl self.now)
            ∷ (self.now.dscp * 2 ^ 2 + ecn_value self.now.ecn)
            ∷ (to_be_bytes w16 self.now.total_len ++ (to_be_bytes w16 self.now.identification
            ++ (to_be_bytes w16 (from_bool self.now.dont_fragment * 2 ^ 14
            + from_bool self.now.more_fragments * 2 ^ 13 + self.now.fragment_offset)
            ++ (self.now.time_to_live ∷ self.now.protocol ∷ (to_be_bytes w16 header_checksum
            ++ (self.now.source ++ self.now.destination)))))) }
        ensures dscp { self.now.dscp < 2 ^ 6 }
        ensures fragment_offset { self.now.fragment_offset < 2 ^ 13 }
        ensures total_len { self.now.total_len < 2 ^ 16 }
        ensures identification { self.now.identification < 2 ^ 16 }
        ensures header_checksum { header_checksum < 2 ^ 16 }
    {
        let dscp = self.dscp.value();
        let ecn = self.ecn.value();
        let (total_len, identification) = (self.total_len, self.identification);
        let flags = (u16::from(self.dont_fragment) << 14) + (u16::from(self.more_fragments) << 13);
        let [t, u] = total_len.to_be_bytes();
        let [i, j] = identification.to_be_bytes();
        let [f, g] = (flags + self.fragment_offset.value()).to_be_bytes();
        let [c, k] = header_checksum.to_be_bytes();
        let (s, d) = (&self.source, &self.destination);
        [
            (4 << 4) + self.ihl(), (dscp << 2) + ecn, t, u,
            i, j, f, g,
            self.time_to_live, self.protocol.0, c, k,
            s[0], s[1], s[2], s[3],
            d[0], d[1], d[2], d[3],
        ]
    }
}

/// The packet must not be fragmented and its protocol is 255. All else is 0, false or empty.
impl Default for Ipv4Header {
    ghost use Rattle.std.specs.Prelude.{◌≡◌};
    ghost use Rattle.etherparse.specs.Ipv4Header.{default_ipv4_header};

    ghost is_default = { λ header. header ≡ default_ipv4_header };

    fn default() -> Ipv4Header {
        Ipv4Header {
            dscp: IpDscp::ZERO,
            ecn: IpEcn::ZERO,
            total_len: 0,
            identification: 0,
            dont_fragment: true,
            more_fragments: false,
            fragment_offset: IpFragOffset::ZERO,
            time_to_live: 0,
            protocol: IpNumber(255),
            header_checksum: 0,
            source: [0; 4],
            destination: [0; 4],
            options: Ipv4Options::new(),
        }
    }
}
