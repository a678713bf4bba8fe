//! The authentication header of IP.

use crate::bytes::front_and_rest;
use crate::err::IcvLenError;
use crate::err::ip_auth::HeaderSliceError;
use crate::{IpAuthHeaderSlice, IpAuthIcv};
use arrayvec::ArrayVec;
use etherparse::IpNumber;

/// An authentication header of IPv4 or IPv6 (RFC 4302 section 2).
///
/// ```text
///  0                   1                   2                   3
///  0 1 2 3 4 5 6 7 8 9 0 1 2 3 4 5 6 7 8 9 0 1 2 3 4 5 6 7 8 9 0 1
/// +-+-+-+-+-+-+-+-+-+-+-+-+-+-+-+-+-+-+-+-+-+-+-+-+-+-+-+-+-+-+-+-+
/// |  next_header  |  payload len  |               0               |
/// +-+-+-+-+-+-+-+-+-+-+-+-+-+-+-+-+-+-+-+-+-+-+-+-+-+-+-+-+-+-+-+-+
/// |                              spi                              |
/// +-+-+-+-+-+-+-+-+-+-+-+-+-+-+-+-+-+-+-+-+-+-+-+-+-+-+-+-+-+-+-+-+
/// |                        sequence_number                        |
/// +-+-+-+-+-+-+-+-+-+-+-+-+-+-+-+-+-+-+-+-+-+-+-+-+-+-+-+-+-+-+-+-+
/// |             icv, 0 to 1016 bytes in words of 4 ..             |
/// +-+-+-+-+-+-+-+-+-+-+-+-+-+-+-+-+-+-+-+-+-+-+-+-+-+-+-+-+-+-+-+-+
/// ```
///
/// The payload length is not a field: it is written from the length of `icv`, as the words of the
/// header less two. The two reserved bytes are not a field either: they are read with any value,
/// and written as 0.
///
/// In IPv6 the header has to be a multiple of 8 bytes long (RFC 4302 section 2.6), by padding in
/// the integrity check value. That is not tested here, neither when a header is read nor when it is
/// made: a header does not know which version it is in. A length of 12 or of 20 bytes, as of an
/// empty value or of one of 8, is for IPv4 alone.
///
/// # Example
///
/// ```
/// let header = IpAuthHeader::new(IpNumber::TCP, 256, 1, &[9, 8, 7, 6])?;
/// let bytes = header.to_bytes();
/// assert!(rt; bytes.as_slice() == [6, 2, 0, 0, 0, 0, 1, 0, 0, 0, 0, 1, 9, 8, 7, 6].as_slice());
/// let (read, _) = IpAuthHeader::from_slice(bytes.as_slice())?;
/// assert!(rt; read == header);
/// ```
#[derive(Clone, Debug, PartialEq, Eq, Hash, Drop)]
pub struct IpAuthHeader {
    /// The number of what follows the header: byte 0.
    pub next_header: IpNumber,
    /// The security parameters index: bytes 4 to 7.
    pub spi: u32,
    /// The sequence number, which a sender increments by one for each packet: bytes 8 to 11.
    pub sequence_number: u32,
    /// The integrity check value: all from byte 12 on.
    pub icv: IpAuthIcv,
}

impl IpAuthHeader {
    ghost use Rattle.std.specs.Prelude.{ℕ, ◌≡◌, ◌+◌, ◌/◌, ◌^◌, ◌<◌, ◌≤◌, ◌∷◌, ◌++◌, List, Ok};
    ghost use Rattle.std.specs.Prelude.{OnErr, length};
    ghost use Rattle.std.specs.Int.{to_be_bytes, w32};
    ghost use Rattle.etherparse_net.specs.IpAuthIcv.{IsIcvLen};
    ghost use Rattle.std.specs.Result.{result_map_both};
    ghost use Rattle.etherparse.specs.Reading.{found_and_rest};
    ghost use Rattle.etherparse_net.specs.IpAuthHeader.{AuthReading, IsAuthLayout};
    ghost use Rattle.etherparse_net.specs.IpAuthHeader.{IsClearedAuthLayout, MakesAuth, ReadsAuth};
    ghost use Rattle.etherparse_net.specs.IpAuthHeader.{with_auth_reserved_cleared};

    /// The length of a header with no integrity check value, in bytes: 12.
    pub const MIN_LEN: usize = 12;

    /// The greatest length of a header, in bytes: 1028.
    pub const MAX_LEN: usize = 1028;

    /// The header with these fields.
    ///
    /// # Errors
    ///
    /// In this order: `TooBig` if the integrity check value has more than 1016 bytes, `Unaligned`
    /// if their number is not a multiple of 4. Whether the header is then a multiple of 8 bytes
    /// long, as IPv6 wants it, is not tested.
    pub fn new(
        next_header: IpNumber,
        spi: u32,
        sequence_number: u32,
        raw_icv: &[u8],
    ) -> Result<IpAuthHeader, IcvLenError>
        ensures made { MakesAuth next_header spi sequence_number raw_icv.now result }
    {
        let icv = IpAuthIcv::try_from(raw_icv)?;
        Ok(IpAuthHeader {
            next_header,
            spi,
            sequence_number,
            icv,
        })
    }

    /// The header at the front of a slice, and all the bytes after it. Neither the integrity check
    /// value is tested, nor whether the length is a multiple of 8, as in IPv6.
    ///
    /// # Errors
    ///
    /// In this order: `Len` if the slice has fewer than 12 bytes; `Content` if the payload length
    /// is 0; `Len` if the slice has fewer bytes than the payload length says.
    pub fn from_slice(slice: &[u8]) -> Result<(IpAuthHeader, &[u8]), HeaderSliceError>
        ensures reads { ReadsAuth slice.now (found_and_rest result) }
        ensures only { (other : AuthReading) → ReadsAuth slice.now other →
            other ≡ found_and_rest result }
    {
        let view = IpAuthHeaderSlice::from_slice(slice)?;
        let rest = &slice[view.slice.len()..];
        Ok((view.to_header(), rest))
    }

    /// The bytes of the integrity check value, 0 to 1016.
    pub fn raw_icv(&self) -> &[u8]
        ensures value { result.now ≡ self.now.icv }
    {
        self.icv.as_slice()
    }

    /// Sets the integrity check value. No other field changes.
    ///
    /// # Errors
    ///
    /// Those of [`IpAuthHeader::new`]. The header is then unchanged.
    pub fn set_raw_icv(&mut self, raw_icv: &[u8]) -> Result<(), IcvLenError>
        ensures set { MakesAuth self.old.next_header self.old.spi self.old.sequence_number
            raw_icv.now (result_map_both (λ _. self.new) (λ e. e) result) }
        ensures unchanged { OnErr result (self.new ≡ self.old) }
    {
        self.icv = IpAuthIcv::try_from(raw_icv)?;
        Ok(())
    }

    /// The length of the header in bytes, 12 to 1028.
    pub fn header_len(&self) -> usize
        ensures value { result ≡ Self.MIN_LEN + length self.now.icv }
        ensures within { result ≤ Self.MAX_LEN }
    {
        IpAuthHeader::MIN_LEN + self.icv.as_slice().len()
    }

    /// The bytes of the header, 12 to 1028, with the two reserved ones 0.
    pub fn to_bytes(&self) -> ArrayVec<u8, 1028>
        ensures layout { IsClearedAuthLayout self.now result.items }
        ensures only { (bytes : List ℕ) → IsClearedAuthLayout self.now bytes →
            bytes ≡ result.items }
        ensures read_again { (rest : List ℕ) →
            ReadsAuth (result.items ++ rest) (Ok (self.now, rest)) }

        // Bytes that are read as this header are written back, with the reserved ones 0.
        ensures cleared { (bytes : List ℕ) → IsAuthLayout self.now bytes →
            result.items ≡ with_auth_reserved_cleared bytes }
    {
        front_and_rest(&self.front(), self.icv.as_slice())
    }

    // The fields before the integrity check value in their order, with zeros for what is reserved.
    fn front(&self) -> [u8; 12]
        ensures value { result ≡ self.now.next_header ∷ (length self.now.icv / 4 + 1) ∷ 0 ∷ 0
            ∷ (to_be_bytes w32 self.now.spi ++ to_be_bytes w32 self.now.sequence_number) }
        ensures spi { self.now.spi < 2 ^ 32 }
        ensures sequence_number { self.now.sequence_number < 2 ^ 32 }
        ensures icv_len { IsIcvLen (length self.now.icv) }
    {
        let (spi, sequence_number) = (self.spi, self.sequence_number);
        let payload_len = (self.icv.as_slice().len() / 4 + 1) as u8;
        let [a, b, c, d] = spi.to_be_bytes();
        let [e, f, g, h] = sequence_number.to_be_bytes();
        let next_header = self.next_header.0;
        [next_header, payload_len, 0, 0, a, b, c, d, e, f, g, h]
    }
}

const _: () = prove!(IpAuthHeader::MIN_LEN == 12 && IpAuthHeader::MAX_LEN == 1028);
