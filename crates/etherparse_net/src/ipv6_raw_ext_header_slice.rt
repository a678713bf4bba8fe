//! A view of an extension header of IPv6 in the layout that most have.

ghost use Rattle.std.specs.Prelude.{◌≡◌, ◌+◌, ◌*◌, length, slice_index};
ghost use Rattle.etherparse.specs.Bytes.{IsBytes};

use crate::errors::too_short;
use crate::{Ipv6ExtPayload, Ipv6OptionsIterator, Ipv6RawExtHeader};
use etherparse::IpNumber;
use etherparse::err::{Layer, LenError};

/// A view of the bytes of an extension header whose second byte gives its length in units of 8
/// bytes, not counting the first 8: hop-by-hop options, routing and destination options (RFC 8200
/// sections 4.3, 4.4 and 4.6), and what RFC 6275, 7401 and 5533 define in the same layout.
///
/// # Example
///
/// ```
/// // Hop-by-hop options with a router alert (RFC 2711), and the start of what follows.
/// let slice = [58, 0, 5, 2, 0, 0, 1, 0, 131, 0];
/// let view = Ipv6RawExtHeaderSlice::from_slice(&slice)?;
/// assert!(rt; view.next_header() == IpNumber::IPV6_ICMP);
/// assert!(rt; view.payload() == [5, 2, 0, 0, 1, 0].as_slice());
/// ```
#[derive(Clone, Copy, Debug, PartialEq, Eq)]
pub struct Ipv6RawExtHeaderSlice<'a> {
    /// The bytes of the header: 8 to 2048, in units of 8.
    pub slice: &'a [u8],
    // What every view keeps, and what every struct literal of a view has to prove.
    pub ghost len: { length slice.now ≡ 8 * (slice_index slice.now 1 + 1) },
    pub ghost are_bytes: { IsBytes slice.now },
}

impl<'a> Ipv6RawExtHeaderSlice<'a> {
    ghost use Rattle.std.specs.Prelude.{ℕ, ◌≡◌, ◌+◌, ◌*◌, List, Result, drop, length, slice_index};
    ghost use Rattle.std.specs.Result.{result_map_both};
    ghost use Rattle.etherparse_net.specs.Ipv6ExtPayload.{IsExtPayloadLen};
    ghost use Rattle.etherparse_net.specs.Ipv6RawExtHeader.{IsRawExtLayout, ViewsRawExt};
    ghost use Rattle.etherparse_net.specs.declared.ipv6_raw_ext_header.Ipv6RawExtHeader.{
      Ipv6RawExtHeader as Header,
    };

    /// A view of the header at the front of a slice. What follows it begins at `slice[len..]`,
    /// where `len` is `view.slice().len()`.
    ///
    /// # Errors
    ///
    /// A `LenError` if the slice has fewer than 8 bytes; or else if it has fewer than its second
    /// byte says, which is then the `required_len`.
    pub fn from_slice(slice: &'a [u8]) -> Result<Ipv6RawExtHeaderSlice<'a>, LenError>
        ensures views { ViewsRawExt slice.now
            (result_map_both (λ view. view.slice.now) (λ e. e) result) }
        ensures only { (other : Result (List ℕ) LenError) → ViewsRawExt slice.now other →
            other ≡ result_map_both (λ view. view.slice.now) (λ e. e) result }
    {
        if slice.len() < Ipv6RawExtHeader::MIN_LEN {
            return Err(too_short(Layer::Ipv6ExtHeader, Ipv6RawExtHeader::MIN_LEN, slice.len()));
        }
        let len = 8 * (usize::from(slice[1]) + 1);
        if slice.len() < len {
            return Err(too_short(Layer::Ipv6ExtHeader, len, slice.len()));
        }
        Ok(Ipv6RawExtHeaderSlice {
            slice: &slice[..len],
        })
    }

    /// The bytes of the header, which live as long as the slice that was read.
    pub fn slice(&self) -> &'a [u8]
        ensures value { result.now ≡ self.now.slice.now }
        ensures len { length result.now ≡ 8 * (slice_index result.now 1 + 1) }
    {
        self.slice
    }

    /// The number of what follows the header: byte 0.
    pub fn next_header(&self) -> IpNumber
        ensures byte_0 { result ≡ slice_index self.now.slice.now 0 }
    {
        IpNumber(self.slice[0])
    }

    /// What follows the first two bytes in the header, 6 to 2046 bytes.
    pub fn payload(&self) -> &'a [u8]
        ensures from_byte_2 { result.now ≡ drop 2 self.now.slice.now }
        ensures payload_len { IsExtPayloadLen (length result.now) }
    {
        &self.slice[2..]
    }

    /// The options of the header, one after another, if it is one of hop-by-hop or destination
    /// options. In other headers these bytes are something else.
    ///
    /// # Example
    ///
    /// ```
    /// // Destination options: a Pad1, a PadN and an option for experiments (RFC 4727).
    /// let header = Ipv6RawExtHeaderSlice::from_slice(&[59, 0, 0, 1, 0, 0x1e, 1, 7])?;
    /// let mut last = None;
    /// for option in header.options() {
    ///     last = Some(option?.option_type());
    /// }
    /// assert!(rt; last == Some(0x1e));
    /// ```
    pub fn options(&self) -> Ipv6OptionsIterator<'a>
        ensures options { result.options.now ≡ drop 2 self.now.slice.now }
        ensures at_front { result.offset ≡ 0 }
    {
        Ipv6OptionsIterator::new(self.payload())
    }

    /// The header whose layout the bytes have. It is written as these bytes.
    pub fn to_header(&self) -> Ipv6RawExtHeader
        ensures layout { IsRawExtLayout result self.now.slice.now }
        ensures only { (header : Header) → IsRawExtLayout header self.now.slice.now →
            header ≡ result }
    {
        Ipv6RawExtHeader {
            next_header: self.next_header(),
            payload: Ipv6ExtPayload::copy_of(self.payload()),
        }
    }
}
