//! An extension header of IPv6 in the layout that most have.

use crate::bytes::front_and_rest;
use crate::err::ExtPayloadLenError;
use crate::{Ipv6ExtPayload, Ipv6RawExtHeaderSlice};
use arrayvec::ArrayVec;
use etherparse::IpNumber;
use etherparse::err::LenError;

/// An extension header whose second byte gives its length in units of 8 bytes, not counting the
/// first 8: hop-by-hop options, routing and destination options (RFC 8200 sections 4.3, 4.4 and
/// 4.6), and what RFC 6275, 7401 and 5533 define in the same layout.
///
/// # Example
///
/// ```
/// // Hop-by-hop options with a router alert (RFC 2711).
/// let header = Ipv6RawExtHeader::new_raw(IpNumber::IPV6_ICMP, &[5, 2, 0, 0, 1, 0])?;
/// let bytes = header.to_bytes();
/// assert!(rt; bytes.as_slice() == [58, 0, 5, 2, 0, 0, 1, 0].as_slice());
/// let (read, _) = Ipv6RawExtHeader::from_slice(bytes.as_slice())?;
/// assert!(rt; read == header);
/// ```
#[derive(Clone, Debug, PartialEq, Eq, Hash, Drop)]
pub struct Ipv6RawExtHeader {
    /// The number of what follows the header: byte 0.
    pub next_header: IpNumber,
    /// What follows the first two bytes, of which the second counts it: 6 to 2046 bytes.
    pub payload: Ipv6ExtPayload,
}

impl Ipv6RawExtHeader {
    ghost use Rattle.std.specs.Prelude.{ℕ, ◌≡◌, ◌+◌, ◌≤◌, ◌++◌, List, Ok, OnErr, length};
    ghost use Rattle.std.specs.Result.{result_map_both};
    ghost use Rattle.etherparse.specs.Reading.{found_and_rest};
    ghost use Rattle.etherparse_net.specs.Ipv6RawExtHeader.{IsRawExtLayout, RawExtReading};
    ghost use Rattle.etherparse_net.specs.Ipv6RawExtHeader.{MakesRawExt, ReadsRawExt};

    /// The least length of a header, in bytes: 8.
    pub const MIN_LEN: usize = 8;

    /// The greatest length of a header, in bytes: 2048.
    pub const MAX_LEN: usize = 2048;

    /// The header with this number of what follows it, and these bytes after its first two.
    ///
    /// # Errors
    ///
    /// In this order: `TooSmall` if there are fewer than 6 bytes, `TooBig` if there are more than
    /// 2046, `Unaligned` if their number is not 6 more than a multiple of 8.
    pub fn new_raw(
        next_header: IpNumber,
        payload: &[u8],
    ) -> Result<Ipv6RawExtHeader, ExtPayloadLenError>
        ensures made { MakesRawExt next_header payload.now result }
    {
        let payload = Ipv6ExtPayload::try_from(payload)?;
        Ok(Ipv6RawExtHeader {
            next_header,
            payload,
        })
    }

    /// The header at the front of a slice, and all the bytes after it.
    ///
    /// # Errors
    ///
    /// A `LenError` if the slice has fewer than 8 bytes; or else if it has fewer than its second
    /// byte says, which is then the `required_len`.
    pub fn from_slice(slice: &[u8]) -> Result<(Ipv6RawExtHeader, &[u8]), LenError>
        ensures reads { ReadsRawExt slice.now (found_and_rest result) }
        ensures only { (other : RawExtReading) → ReadsRawExt slice.now other →
            other ≡ found_and_rest result }
    {
        let view = Ipv6RawExtHeaderSlice::from_slice(slice)?;
        let rest = &slice[view.slice.len()..];
        Ok((view.to_header(), rest))
    }

    /// What follows the first two bytes, 6 to 2046 bytes.
    pub fn payload(&self) -> &[u8]
        ensures value { result.now ≡ self.now.payload }
    {
        self.payload.as_slice()
    }

    /// Sets what follows the first two bytes. The number of what follows the header stays.
    ///
    /// # Errors
    ///
    /// Those of [`Ipv6RawExtHeader::new_raw`]. The header is then unchanged.
    pub fn set_payload(&mut self, payload: &[u8]) -> Result<(), ExtPayloadLenError>
        ensures set { MakesRawExt self.old.next_header payload.now
            (result_map_both (λ _. self.new) (λ e. e) result) }
        ensures unchanged { OnErr result (self.new ≡ self.old) }
    {
        self.payload = Ipv6ExtPayload::try_from(payload)?;
        Ok(())
    }

    /// The length of the header in bytes, 8 to 2048.
    pub fn header_len(&self) -> usize
        ensures value { result ≡ 2 + length self.now.payload }
        ensures within { result ≤ 2048 }
    {
        2 + self.payload.as_slice().len()
    }

    /// The bytes of the header, 8 to 2048 in units of 8.
    pub fn to_bytes(&self) -> ArrayVec<u8, 2048>
        ensures layout { IsRawExtLayout self.now result.items }
        ensures only { (bytes : List ℕ) → IsRawExtLayout self.now bytes → bytes ≡ result.items }
        ensures read_again { (rest : List ℕ) →
            ReadsRawExt (result.items ++ rest) (Ok (self.now, rest)) }
    {
        let payload = self.payload.as_slice();
        let units = ((payload.len() - 6) / 8) as u8;
        front_and_rest(&[self.next_header.0, units], payload)
    }
}

const _: () = prove!(Ipv6RawExtHeader::MIN_LEN == 8 && Ipv6RawExtHeader::MAX_LEN == 2048);
