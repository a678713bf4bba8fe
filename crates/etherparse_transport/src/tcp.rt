//! A view of a TCP header (RFC 9293 section 3.1).

ghost use Rattle.std.specs.Prelude.{◌≡◌, ◌*◌, ◌≤◌, Some, length};
ghost use Rattle.etherparse.specs.Bytes.{IsBytes};
ghost use Rattle.etherparse_transport.specs.Tcp.{data_offset_of, tcp_error_text, tcp_len_error};

mod checksum;

use crate::{TcpHeader, TcpOptions, TcpOptionsIterator};
use etherparse::LenSource;
use etherparse::err::{Layer, LenError};
use std::error::Error;
use std::fmt;

/// Why a slice does not begin with a TCP header.
#[derive(Clone, Debug, PartialEq, Eq, Drop)]
pub enum TcpError {
    /// The slice has fewer than 20 bytes, or fewer than its data offset says. The layer is
    /// `Layer::TcpHeader`.
    Len(LenError),
    /// The data offset, in words of four bytes, is below 5, those of a header without options.
    DataOffset(u8),
}

impl fmt::Display for TcpError {
    ghost output = { λ error. Some (tcp_error_text error) };

    fn fmt<W: fmt::Write>(&self, f: &mut fmt::Formatter<W>) -> fmt::Result {
        match self {
            TcpError::Len(e) => fmt::Display::fmt(e, f),
            &TcpError::DataOffset(data_offset) => write!(
                f,
                "TCP Header Error: Data offset {data_offset} is less than 5."
            ),
        }
    }
}

impl Error for TcpError {}

/// A view of the bytes of a TCP header with its options (RFC 9293 section 3.1). Whether they are
/// options that are known, only [`TcpHeaderSlice::options_iterator`] tells.
#[derive(Clone, Copy, Debug, PartialEq, Eq)]
pub struct TcpHeaderSlice<'a> {
    /// The bytes of the header, 20 to 60.
    pub slice: &'a [u8],
    // What every view keeps.
    pub ghost offset: { 5 ≤ data_offset_of slice.now },
    pub ghost len: { length slice.now ≡ 4 * data_offset_of slice.now },
    pub ghost are_bytes: { IsBytes slice.now },
}

impl<'a> TcpHeaderSlice<'a> {
    ghost use Rattle.std.specs.Prelude.{ℕ, ◌≡◌, ◌*◌, ◌%◌, ◌↔◌, List, IsTrue, Result, drop, length};
    ghost use Rattle.std.specs.Prelude.{slice_index, slice_range};
    ghost use Rattle.std.specs.Int.{from_be_bytes, w16, w32};
    ghost use Rattle.std.specs.Result.{result_map_both};
    ghost use Rattle.etherparse_transport.specs.Tcp.{ViewsTcp, flag_at};
    ghost use Rattle.etherparse_transport.specs.TcpHeader.{IsTcpLayout, IsTcpLayoutWith};
    ghost use Rattle.etherparse_transport.specs.TcpHeader.{OfTcpHeader, with_reserved_bits_cleared};
    ghost use Rattle.etherparse_transport.specs.declared.tcp.TcpError.{TcpError as Refused};

    /// The length of a header without options, in bytes: 20.
    pub const MIN_LEN: usize = 20;

    /// A view of the header at the front of a slice, as long as its data offset says. Neither the
    /// checksum nor the options are tested, and any reserved bits and flags are taken.
    ///
    /// # Errors
    ///
    /// `Len` if the slice has fewer than 20 bytes; otherwise `DataOffset` if the data offset is
    /// below 5; otherwise `Len` if the slice has fewer bytes than the data offset says.
    ///
    /// # Example
    ///
    /// ```
    /// // A SYN from port 1024 to port 80, with sequence number 1 and a window of 8192 bytes.
    /// let segment = [
    ///     4, 0, 0, 80, 0, 0, 0, 1, 0, 0, 0, 0, 0x50, 0x02, 0x20, 0, 0x09, 0x79, 0, 0,
    /// ];
    /// let header = TcpHeaderSlice::from_slice(&segment)?;
    /// assert!(rt; (header.source_port(), header.destination_port()) == (1024, 80));
    /// assert!(rt; (header.sequence_number(), header.acknowledgment_number()) == (1, 0));
    /// assert!(rt; header.syn() && !header.ack() && !header.fin() && !header.rst());
    /// assert!(rt; (header.data_offset(), header.flags()) == (5, 0b0000_0010));
    /// assert!(rt; (header.window_size(), header.checksum()) == (8192, 0x0979));
    /// assert!(rt; header.urgent_pointer() == 0 && header.options().is_empty());
    /// ```
    #[inline(always)]
    #[tactic(auto, using(crate::proofs::TcpReading::viewed_once))]
    pub fn from_slice(slice: &'a [u8]) -> Result<TcpHeaderSlice<'a>, TcpError>
        ensures views { ViewsTcp slice.now
            (result_map_both (λ view. view.slice.now) (λ e. e) result) }
        ensures only { (other : Result (List ℕ) Refused) → ViewsTcp slice.now other →
            other ≡ result_map_both (λ view. view.slice.now) (λ e. e) result }
    {
        if slice.len() < TcpHeaderSlice::MIN_LEN {
            return Err(TcpError::Len(too_short(TcpHeaderSlice::MIN_LEN, slice.len())));
        }
        let offset = slice[12] >> 4;
        if offset < 5 {
            return Err(TcpError::DataOffset(offset));
        }
        let len = 4 * usize::from(offset);
        if slice.len() < len {
            return Err(TcpError::Len(too_short(len, slice.len())));
        }
        Ok(TcpHeaderSlice {
            slice: &slice[..len],
        })
    }

    /// The source port: bytes 0 and 1.
    pub fn source_port(&self) -> u16
        ensures bytes_0_1 { result ≡ from_be_bytes w16 (slice_range self.now.slice.now 0 2) }
    {
        u16::from_be_bytes([self.slice[0], self.slice[1]])
    }

    /// The destination port: bytes 2 and 3.
    pub fn destination_port(&self) -> u16
        ensures bytes_2_3 { result ≡ from_be_bytes w16 (slice_range self.now.slice.now 2 4) }
    {
        u16::from_be_bytes([self.slice[2], self.slice[3]])
    }

    /// The sequence number of the first byte of data, or of the SYN: bytes 4 to 7.
    pub fn sequence_number(&self) -> u32
        ensures bytes_4_to_7 { result ≡ from_be_bytes w32 (slice_range self.now.slice.now 4 8) }
    {
        u32::from_be_bytes([self.slice[4], self.slice[5], self.slice[6], self.slice[7]])
    }

    /// The next sequence number that the sender expects, if ACK is set: bytes 8 to 11.
    pub fn acknowledgment_number(&self) -> u32
        ensures bytes_8_to_11 { result ≡ from_be_bytes w32 (slice_range self.now.slice.now 8 12) }
    {
        u32::from_be_bytes([self.slice[8], self.slice[9], self.slice[10], self.slice[11]])
    }

    /// The length of the header in words of four bytes, 5 to 15: the upper half of byte 12.
    pub fn data_offset(&self) -> u8
        ensures byte_12 { result ≡ data_offset_of self.now.slice.now }
        ensures len { length self.now.slice.now ≡ 4 * result }
    {
        self.slice[12] >> 4
    }

    /// The flags CWR, ECE, URG, ACK, PSH, RST, SYN and FIN, from the highest bit to the lowest:
    /// byte 13.
    pub fn flags(&self) -> u8
        ensures byte_13 { result ≡ slice_index self.now.slice.now 13 }
    {
        self.slice[13]
    }

    /// Whether the sender has no more data: the lowest bit of byte 13.
    pub fn fin(&self) -> bool
        ensures bit_0 { IsTrue result ↔ (flag_at 0 self.now.slice.now ≡ 1) }
    {
        self.slice[13] & 1 == 1
    }

    /// Whether sequence numbers are synchronized: the second lowest bit of byte 13.
    pub fn syn(&self) -> bool
        ensures bit_1 { IsTrue result ↔ (flag_at 1 self.now.slice.now ≡ 1) }
    {
        (self.slice[13] >> 1) & 1 == 1
    }

    /// Whether the connection is reset: the third lowest bit of byte 13.
    pub fn rst(&self) -> bool
        ensures bit_2 { IsTrue result ↔ (flag_at 2 self.now.slice.now ≡ 1) }
    {
        (self.slice[13] >> 2) & 1 == 1
    }

    /// Whether the acknowledgment number counts: the fifth lowest bit of byte 13.
    pub fn ack(&self) -> bool
        ensures bit_4 { IsTrue result ↔ (flag_at 4 self.now.slice.now ≡ 1) }
    {
        (self.slice[13] >> 4) & 1 == 1
    }

    /// How many bytes the sender of the segment can take, before any scaling: bytes 14 and 15.
    pub fn window_size(&self) -> u16
        ensures bytes_14_15 { result ≡ from_be_bytes w16 (slice_range self.now.slice.now 14 16) }
    {
        u16::from_be_bytes([self.slice[14], self.slice[15]])
    }

    /// The checksum as it was received: bytes 16 and 17.
    pub fn checksum(&self) -> u16
        ensures bytes_16_17 { result ≡ from_be_bytes w16 (slice_range self.now.slice.now 16 18) }
    {
        u16::from_be_bytes([self.slice[16], self.slice[17]])
    }

    /// Where urgent data ends, counted from the sequence number, if URG is set: bytes 18 and 19.
    pub fn urgent_pointer(&self) -> u16
        ensures bytes_18_19 { result ≡ from_be_bytes w16 (slice_range self.now.slice.now 18 20) }
    {
        u16::from_be_bytes([self.slice[18], self.slice[19]])
    }

    /// The options with their padding, 0 to 40 bytes: the bytes from 20 on. They live as long as
    /// the slice that was read.
    pub fn options(&self) -> &'a [u8]
        ensures bytes_from_20 { result.now ≡ drop 20 self.now.slice.now }
    {
        &self.slice[20..]
    }

    /// Whether the data is to be pushed to the receiving user: the fourth lowest bit of byte 13.
    pub fn psh(&self) -> bool
        ensures bit_3 { IsTrue result ↔ (flag_at 3 self.now.slice.now ≡ 1) }
    {
        (self.slice[13] >> 3) & 1 == 1
    }

    /// Whether the urgent pointer counts: the third highest bit of byte 13.
    pub fn urg(&self) -> bool
        ensures bit_5 { IsTrue result ↔ (flag_at 5 self.now.slice.now ≡ 1) }
    {
        (self.slice[13] >> 5) & 1 == 1
    }

    /// Whether congestion was experienced, or in a SYN whether the sender can take part in that
    /// (RFC 3168): the second highest bit of byte 13.
    pub fn ece(&self) -> bool
        ensures bit_6 { IsTrue result ↔ (flag_at 6 self.now.slice.now ≡ 1) }
    {
        (self.slice[13] >> 6) & 1 == 1
    }

    /// Whether the congestion window was reduced (RFC 3168): the highest bit of byte 13.
    pub fn cwr(&self) -> bool
        ensures bit_7 { IsTrue result ↔ (flag_at 7 self.now.slice.now ≡ 1) }
    {
        (self.slice[13] >> 7) & 1 == 1
    }

    /// The nonce sum (RFC 3540, historic): the lowest bit of byte 12, which RFC 9293 reserves.
    pub fn ns(&self) -> bool
        ensures lowest_of_byte_12 { IsTrue result ↔ (slice_index self.now.slice.now 12 % 2 ≡ 1) }
    {
        self.slice[12] & 1 == 1
    }

    /// The bytes of the header, which live as long as the slice that was read.
    pub fn slice(&self) -> &'a [u8]
        ensures value { result.now ≡ self.now.slice.now }
    {
        self.slice
    }

    /// The options one after the other, up to the first that is not known.
    ///
    /// # Example
    ///
    /// ```
    /// // A SYN with a maximum segment size of 1460 bytes.
    /// let segment = [
    ///     4, 0, 0, 80, 0, 0, 0, 1, 0, 0, 0, 0, 0x60, 0x02, 0x20, 0, 0xf1, 0xbc, 0, 0, 2, 4, 0x05,
    ///     0xb4,
    /// ];
    /// let mut iterator = TcpHeaderSlice::from_slice(&segment)?.options_iterator();
    /// assert!(rt; iterator.next() == Some(Ok(TcpOptionElement::MaximumSegmentSize(1460))));
    /// assert!(rt; iterator.next() == None);
    /// ```
    #[inline]
    pub fn options_iterator(&self) -> TcpOptionsIterator<'a>
        ensures bytes_from_20 { result.options.now ≡ drop 20 self.now.slice.now }
    {
        TcpOptionsIterator::from_slice(self.options())
    }

    /// The header whose layout the bytes have, with any reserved bits.
    pub fn to_header(&self) -> TcpHeader
        ensures layout { IsTcpLayout result self.now.slice.now }
        ensures only { OfTcpHeader self.now.slice.now (λ header. header ≡ result) }

        // It is written as these bytes, with the reserved bits 0.
        ensures cleared { IsTcpLayoutWith result 0
            (with_reserved_bits_cleared self.now.slice.now) }
    {
        self.header_with(TcpOptions::copy_of(self.options()))
    }

    // The header whose layout the bytes have, with these options.
    #[inline(always)]
    pub(crate) fn header_with(&self, options: TcpOptions) -> TcpHeader
        requires { options ≡ drop 20 self.now.slice.now }
        ensures layout { IsTcpLayout result self.now.slice.now }
        ensures only { OfTcpHeader self.now.slice.now (λ header. header ≡ result) }
    {
        TcpHeader {
            source_port: self.source_port(),
            destination_port: self.destination_port(),
            sequence_number: self.sequence_number(),
            acknowledgment_number: self.acknowledgment_number(),
            ns: self.ns(),
            fin: self.fin(),
            syn: self.syn(),
            rst: self.rst(),
            psh: self.psh(),
            ack: self.ack(),
            urg: self.urg(),
            ece: self.ece(),
            cwr: self.cwr(),
            window_size: self.window_size(),
            checksum: self.checksum(),
            urgent_pointer: self.urgent_pointer(),
            options,
        }
    }
}

const _: () = prove!(TcpHeaderSlice::MIN_LEN == 20);

// The error of a slice that is shorter than the header needs.
fn too_short(required_len: usize, len: usize) -> LenError
    ensures value { result ≡ tcp_len_error required_len len }
{
    LenError {
        required_len,
        len,
        len_source: LenSource::Slice,
        layer: Layer::TcpHeader,
        layer_start_offset: 0,
    }
}
