ghost use Rattle.std.specs.Prelude.{◌≡◌, ◌++◌, length};
ghost use Rattle.etherparse_base.specs.Bytes.{IsBytes};

mod extensions;

use crate::err::ipv6::HeaderSliceError;
use crate::err::{ValueTooBigError, ValueType};
use crate::{IpDscp, IpEcn, IpNumber, Ipv6FlowLabel, Ipv6HeaderSlice};
use std::marker::Model;

/// An IPv6 header without its extension headers (RFC 8200 section 3).
///
/// ```text
///  0                   1                   2                   3
///  0 1 2 3 4 5 6 7 8 9 0 1 2 3 4 5 6 7 8 9 0 1 2 3 4 5 6 7 8 9 0 1
/// +-+-+-+-+-+-+-+-+-+-+-+-+-+-+-+-+-+-+-+-+-+-+-+-+-+-+-+-+-+-+-+-+
/// |   6   | traffic_class |               flow_label              |
/// +-+-+-+-+-+-+-+-+-+-+-+-+-+-+-+-+-+-+-+-+-+-+-+-+-+-+-+-+-+-+-+-+
/// |         payload_length        |  next_header  |   hop_limit   |
/// +-+-+-+-+-+-+-+-+-+-+-+-+-+-+-+-+-+-+-+-+-+-+-+-+-+-+-+-+-+-+-+-+
/// |                                                               |
/// +                                                               +
/// |                                                               |
/// +                             source                            +
/// |                                                               |
/// +                                                               +
/// |                                                               |
/// +-+-+-+-+-+-+-+-+-+-+-+-+-+-+-+-+-+-+-+-+-+-+-+-+-+-+-+-+-+-+-+-+
/// |                                                               |
/// +                                                               +
/// |                                                               |
/// +                          destination                          +
/// |                                                               |
/// +                                                               +
/// |                                                               |
/// +-+-+-+-+-+-+-+-+-+-+-+-+-+-+-+-+-+-+-+-+-+-+-+-+-+-+-+-+-+-+-+-+
/// ```
///
/// The version, 6, is not a field.
///
/// # Example
///
/// ```
/// let mut header = Ipv6Header::default();
/// header.next_header = IpNumber::UDP;
/// header.hop_limit = 64;
/// header.set_payload_length(100)?;
/// let bytes = header.to_bytes();
/// let (read, _) = Ipv6Header::from_slice(&bytes)?;
/// assert!(rt; read == header);
/// ```
#[derive(Clone, Debug, PartialEq, Eq, Drop)]
pub struct Ipv6Header {
    /// The traffic class: the DSCP in the upper 6 bits, the ECN in the lower 2 (RFC 2474, RFC
    /// 3168).
    pub traffic_class: u8,
    /// The flow label, which marks packets that routers should treat alike.
    pub flow_label: Ipv6FlowLabel,
    /// The length in bytes of all that follows the header, extension headers included; 0 for a
    /// jumbogram (RFC 2675 section 3).
    pub payload_length: u16,
    /// What follows the header: an extension header or an upper-layer protocol.
    pub next_header: IpNumber,
    /// Decremented by every router; at 0 the packet is discarded.
    pub hop_limit: u8,
    /// The address of the sender.
    pub source: [u8; 16],
    /// The address of the receiver.
    pub destination: [u8; 16],
}

/// A contract sees the fields. Without this `impl` the check refuses `.ok()?` and `.map(..)` on a
/// reader's result.
impl Model for Ipv6Header {
    ghost use Rattle.etherparse.specs.Ipv6HeaderFields.{Ipv6HeaderFields};

    ghost Value = { Ipv6HeaderFields };

    ghost view = { λ header. record {
      traffic_class = header.traffic_class;
      flow_label = header.flow_label;
      payload_length = header.payload_length;
      next_header = header.next_header;
      hop_limit = header.hop_limit;
      source = header.source;
      destination = header.destination;
    } };

    ghost inverse = { λ header. record {
      traffic_class = header.traffic_class;
      flow_label = header.flow_label;
      payload_length = header.payload_length;
      next_header = header.next_header;
      hop_limit = header.hop_limit;
      source = header.source;
      destination = header.destination;
    } };
}

impl Ipv6Header {
    ghost use Rattle.std.specs.Prelude.{ℕ, ◌≡◌, ◌+◌, ◌*◌, ◌/◌, ◌%◌, ◌^◌, ◌<◌, ◌≤◌, ◌↔◌};
    ghost use Rattle.std.specs.Prelude.{List, [], ◌∷◌, ◌++◌, IfErr, IsOk, Ok, OnErr, OnOk};
    ghost use Rattle.std.specs.Int.{to_be_bytes, w16, w32};
    ghost use Rattle.etherparse.specs.Ipv6Header.{IsIpv6Layout, IsIpv6ReadingOf, ReadsIpv6};
    ghost use Rattle.etherparse.specs.Ipv6Header.{ViewsIpv6};
    ghost use Rattle.etherparse.specs.Reading.{found_and_rest};
    ghost use Rattle.etherparse_fields.specs.IpEcn.{ecn_value};

    /// The length of every header, in bytes.
    pub const LEN: usize = 40;

    /// An older name of [`Ipv6Header::LEN`].
    pub const SERIALIZED_SIZE: usize = 40;

    /// The length of the header, which is 40 bytes for every header.
    #[inline]
    pub fn header_len(&self) -> usize
        ensures value { result ≡ 40 }
    {
        Ipv6Header::LEN
    }

    /// An older name of [`Ipv6Header::from_slice`].
    ///
    /// # Errors
    ///
    /// Those of [`Ipv6Header::from_slice`].
    #[inline]
    pub fn read_from_slice(slice: &[u8]) -> Result<(Ipv6Header, &[u8]), HeaderSliceError>
        ensures reads { IsIpv6ReadingOf slice.now (found_and_rest result) }
    {
        Ipv6Header::from_slice(slice)
    }

    /// The header at the front of a slice, and all the bytes after it. These are not cut at
    /// `payload_length`, and may be fewer than it says:
    /// `rest.get(..usize::from(header.payload_length))` takes those that are the payload, unless
    /// the length is 0, as in a jumbogram.
    ///
    /// # Errors
    ///
    /// `Len` if the slice has fewer than 40 bytes; otherwise `Content` if the version is not 6.
    ///
    /// # Example
    ///
    /// ```
    /// // The payload length is 4, and two bytes of padding follow the packet.
    /// let mut packet = [0; 46];
    /// packet[0] = 0x60;
    /// packet[5] = 4;
    /// let (header, rest) = Ipv6Header::from_slice(&packet)?;
    /// // `None` where the packet is cut short.
    /// let payload = rest.get(..usize::from(header.payload_length));
    /// assert!(rt; payload == Some([0; 4].as_slice()));
    /// ```
    #[inline]
    pub fn from_slice(slice: &[u8]) -> Result<(Ipv6Header, &[u8]), HeaderSliceError>
        ensures reads { IsIpv6ReadingOf slice.now (found_and_rest result) }
    {
        let header = Ipv6HeaderSlice::from_slice(slice)?.to_header();
        Ok((header, &slice[Ipv6Header::LEN..]))
    }

    /// Sets the payload length, in bytes.
    ///
    /// # Errors
    ///
    /// A `ValueTooBigError` if the length is above 65535. The header is then unchanged.
    pub fn set_payload_length(&mut self, size: usize) -> Result<(), ValueTooBigError<usize>>
        ensures accepted { IsOk result ↔ (size ≤ u16.MAX) }
        ensures refused { IfErr result (λ e. e ≡ record {
          actual = size;
          max_allowed = u16.MAX;
          value_type = ValueType.Ipv6PayloadLength;
        }) }
        ensures set { OnOk result (self.new ≡ record self.old { payload_length = size }) }
        ensures unchanged { OnErr result (self.new ≡ self.old) }
    {
        let max_allowed = usize::from(u16::MAX);
        if size > max_allowed {
            return Err(ValueTooBigError {
                actual: size,
                max_allowed,
                value_type: ValueType::Ipv6PayloadLength,
            });
        }
        self.payload_length = size as u16;
        Ok(())
    }

    /// The explicit congestion notification: the lower 2 bits of the traffic class (RFC 3168
    /// section 5).
    #[inline]
    pub fn ecn(&self) -> IpEcn
        ensures value { ecn_value result ≡ self.now.traffic_class % 2 ^ 2 }
    {
        IpEcn::try_new(self.traffic_class & 0b11).unwrap()
    }

    /// Sets the explicit congestion notification, and keeps the differentiated services code point.
    #[inline]
    pub fn set_ecn(&mut self, ecn: IpEcn)
        ensures set { self.new ≡ record self.old {
          traffic_class = self.old.traffic_class / 2 ^ 2 * 2 ^ 2 + ecn_value ecn;
        } }
    {
        self.traffic_class = (self.traffic_class & 0b1111_1100) | ecn.value();
    }

    /// The differentiated services code point: the upper 6 bits of the traffic class (RFC 2474
    /// section 3).
    #[inline]
    pub fn dscp(&self) -> IpDscp
        ensures value { result ≡ self.now.traffic_class / 2 ^ 2 }
    {
        IpDscp::try_new(self.traffic_class >> 2).unwrap()
    }

    /// Sets the differentiated services code point, and keeps the explicit congestion notification.
    ///
    /// # Example
    ///
    /// ```
    /// let mut header = Ipv6Header::default();
    /// header.set_dscp(IpDscp::EF);
    /// header.set_ecn(IpEcn::Ect0);
    /// assert!(rt; header.traffic_class == 0b1011_1010);
    /// ```
    #[inline]
    pub fn set_dscp(&mut self, dscp: IpDscp)
        ensures set { self.new ≡ record self.old {
          traffic_class = dscp * 2 ^ 2 + self.old.traffic_class % 2 ^ 2;
        } }
    {
        self.traffic_class = (self.traffic_class & 0b11) | (dscp.value() << 2);
    }

    /// The 40 bytes of the header, in network byte order.
    pub fn to_bytes(&self) -> [u8; 40]
        ensures layout { IsIpv6Layout self.now result }
        ensures only { (bytes : List ℕ) → IsIpv6Layout self.now bytes → bytes ≡ result }
        ensures read_again { (rest : List ℕ) →
            IsIpv6ReadingOf (result ++ rest) (Ok (self.now, rest)) }
        ensures viewed_again { (rest : List ℕ) → ViewsIpv6 (result ++ rest) (Ok result) }
        ensures read_alone { IsIpv6ReadingOf result (Ok (self.now, [])) }
        ensures viewed_alone { ViewsIpv6 result (Ok result) }
    {
        front_and_addresses(&self.front(), &self.source, &self.destination)
    }

    // The bytes before the addresses.
    #[inline(always)]
    fn front(&self) -> [u8; 8]
        ensures value { result ≡ to_be_bytes w32
            (6 * 2 ^ 28 + self.now.traffic_class * 2 ^ 20 + self.now.flow_label)
            ++ (to_be_bytes w16 self.now.payload_length
            ++ self.now.next_header ∷ self.now.hop_limit ∷ []) }
        ensures traffic_class { self.now.traffic_class < 2 ^ 8 }
        ensures flow_label { self.now.flow_label < 2 ^ 20 }
        ensures payload_length { self.now.payload_length < 2 ^ 16 }
    {
        let traffic_class = self.traffic_class;
        let flow_label = self.flow_label.value();
        let payload_length = self.payload_length;
        let [a, b, c, d] = ((6 << 28)
            + (u32::from(traffic_class) << 20)
            + flow_label).to_be_bytes();
        let [e, f] = payload_length.to_be_bytes();
        [a, b, c, d, e, f, self.next_header.0, self.hop_limit]
    }
}

const _: () = prove!(Ipv6Header::LEN == 40 && Ipv6Header::SERIALIZED_SIZE == 40);

/// All fields are 0 except the next header, which is 255.
impl Default for Ipv6Header {
    ghost use Rattle.std.specs.Prelude.{◌≡◌};
    ghost use Rattle.etherparse.specs.Ipv6Header.{default_ipv6_header};

    ghost is_default = { λ header. header ≡ default_ipv6_header };

    fn default() -> Ipv6Header {
        Ipv6Header {
            traffic_class: 0,
            flow_label: Ipv6FlowLabel::ZERO,
            payload_length: 0,
            next_header: IpNumber(255),
            hop_limit: 0,
            source: [0; 16],
            destination: [0; 16],
        }
    }
}

// Three parts, one after the other, as one literal: it is stored without a copy in between.
#[inline(always)]
#[rattlefmt::skip]
fn front_and_addresses(front: &[u8], source: &[u8], destination: &[u8]) -> [u8; 40]
    requires front_len { length front.now ≡ 8 }
    requires source_len { length source.now ≡ 16 }
    requires destination_len { length destination.now ≡ 16 }
    ensures parts { result ≡ front.now ++ (source.now ++ destination.now) }
    ensures are_bytes { IsBytes (front.now ++ (source.now ++ destination.now)) }
{
    let (f, s, d) = (front, source, destination);
    [
        f[0], f[1], f[2], f[3], f[4], f[5], f[6], f[7],
        s[0], s[1], s[2], s[3], s[4], s[5], s[6], s[7],
        s[8], s[9], s[10], s[11], s[12], s[13], s[14], s[15],
        d[0], d[1], d[2], d[3], d[4], d[5], d[6], d[7],
        d[8], d[9], d[10], d[11], d[12], d[13], d[14], d[15],
    ]
}
