//! The TCP header with its options (RFC 9293 section 3.1).

ghost use Rattle.std.specs.Prelude.{◌≡◌, ◌≤◌, ◌++◌, Ok, ⊤, length};
ghost use Rattle.etherparse.specs.Bytes.{IsBytes};
ghost use Rattle.etherparse.specs.Reading.{BeginsWith};
ghost use Rattle.etherparse_transport.specs.Tcp.{HasTcpFront};
ghost use Rattle.etherparse_transport.specs.TcpHeader.{IsTcpLayout};

mod checksum;

use crate::tcp::{TcpError, TcpHeaderSlice};
use crate::{TcpOptionElement, TcpOptionWriteError, TcpOptions, TcpOptionsIterator};
use arrayvec::ArrayVec;
use std::alloc::AllocError;

/// A TCP header with its options (RFC 9293 section 3.1).
///
/// ```text
///  0                   1                   2                   3
///  0 1 2 3 4 5 6 7 8 9 0 1 2 3 4 5 6 7 8 9 0 1 2 3 4 5 6 7 8 9 0 1
/// +-+-+-+-+-+-+-+-+-+-+-+-+-+-+-+-+-+-+-+-+-+-+-+-+-+-+-+-+-+-+-+-+
/// |          source_port          |        destination_port       |
/// +-+-+-+-+-+-+-+-+-+-+-+-+-+-+-+-+-+-+-+-+-+-+-+-+-+-+-+-+-+-+-+-+
/// |                        sequence_number                        |
/// +-+-+-+-+-+-+-+-+-+-+-+-+-+-+-+-+-+-+-+-+-+-+-+-+-+-+-+-+-+-+-+-+
/// |                     acknowledgment_number                     |
/// +-+-+-+-+-+-+-+-+-+-+-+-+-+-+-+-+-+-+-+-+-+-+-+-+-+-+-+-+-+-+-+-+
/// | offset|0 0 0|N|C|E|U|A|P|R|S|F|          window_size          |
/// +-+-+-+-+-+-+-+-+-+-+-+-+-+-+-+-+-+-+-+-+-+-+-+-+-+-+-+-+-+-+-+-+
/// |            checksum           |         urgent_pointer        |
/// +-+-+-+-+-+-+-+-+-+-+-+-+-+-+-+-+-+-+-+-+-+-+-+-+-+-+-+-+-+-+-+-+
/// |            options, 0 to 40 bytes in words of 4 ..            |
/// +-+-+-+-+-+-+-+-+-+-+-+-+-+-+-+-+-+-+-+-+-+-+-+-+-+-+-+-+-+-+-+-+
/// ```
///
/// `N` is `ns`, and the others are `cwr`, `ece`, `urg`, `ack`, `psh`, `rst`, `syn` and `fin`. The
/// data offset is not a field: it is written from the options' length. The three reserved bits
/// before `N` are not fields either: they are read as anything, and written as 0.
///
/// # Example
///
/// ```
/// let mut header = TcpHeader::new(1024, 80, 1, 8192);
/// header.syn = true;
/// let bytes = header.to_bytes();
/// let (read, _) = TcpHeader::from_slice(bytes.as_slice())?;
/// assert!(rt; read == header);
/// ```
#[derive(Debug, PartialEq, Eq, Hash, Drop)]
pub struct TcpHeader {
    /// Bytes 0 and 1: the port of the sender.
    pub source_port: u16,
    /// Bytes 2 and 3: the port of the receiver.
    pub destination_port: u16,
    /// Bytes 4 to 7: the sequence number of the first byte of data, or of the SYN.
    pub sequence_number: u32,
    /// Bytes 8 to 11: the next sequence number that the sender expects, if `ack` is set.
    pub acknowledgment_number: u32,
    /// The lowest bit of byte 12: the nonce sum (RFC 3540, historic). RFC 9293 reserves it.
    pub ns: bool,
    /// Bit 0 of byte 13, from the lowest: the sender has no more data.
    pub fin: bool,
    /// Bit 1 of byte 13, from the lowest: sequence numbers are synchronized.
    pub syn: bool,
    /// Bit 2 of byte 13, from the lowest: the connection is reset.
    pub rst: bool,
    /// Bit 3 of byte 13, from the lowest: the data is to be pushed to the receiving user.
    pub psh: bool,
    /// Bit 4 of byte 13, from the lowest: the acknowledgment number counts.
    pub ack: bool,
    /// Bit 5 of byte 13, from the lowest: the urgent pointer counts.
    pub urg: bool,
    /// Bit 6 of byte 13, from the lowest: congestion was experienced (RFC 3168), or in a SYN the
    /// sender can take part in that.
    pub ece: bool,
    /// Bit 7 of byte 13, from the lowest: the congestion window was reduced (RFC 3168).
    pub cwr: bool,
    /// Bytes 14 and 15: how many bytes the sender of the segment can take, before any scaling.
    pub window_size: u16,
    /// Bytes 16 and 17: the checksum, right or wrong.
    pub checksum: u16,
    /// Bytes 18 and 19: where urgent data ends, counted from the sequence number, if `urg` is set.
    pub urgent_pointer: u16,
    /// The bytes from 20 on: 0 to 40 bytes of options with their padding, in words of 4.
    pub options: TcpOptions,
}

impl Clone for TcpHeader {
    ghost is_clone = { λ header copy. copy ≡ header };

    ghost is_infallible = { λ _. ⊤ };

    fn clone(&self) -> Result<TcpHeader, AllocError>
        ensures same_value { result ≡ Ok self.now }
    {
        Ok(TcpHeader {
            options: self.options.clone()?,
            ..*self
        })
    }
}

impl TcpHeader {
    ghost use Rattle.std.specs.Prelude.{ℕ, ◌≡◌, ◌+◌, ◌*◌, ◌^◌, ◌<◌, ◌≤◌, ◌↔◌, List, [], ◌∷◌, ◌++◌};
    ghost use Rattle.std.specs.Prelude.{IfErr, IfOk, IsOk, Ok, OnErr, OnOk, length, map};
    ghost use Rattle.std.specs.List.{flat_map};
    ghost use Rattle.std.specs.Int.{from_bool, to_be_bytes, w16, w32};
    ghost use Rattle.etherparse.specs.Reading.{found_and_rest};
    ghost use Rattle.etherparse_transport.specs.Tcp.{ViewsTcp};
    ghost use Rattle.etherparse_transport.specs.TcpHeader.{IsTcpLayoutWith, ReadsTcp, TcpReading};
    ghost use Rattle.etherparse_transport.specs.TcpHeader.{default_tcp_header, tcp_data_offset};
    ghost use Rattle.etherparse_transport.specs.TcpHeader.{tcp_flags, tcp_header_len};
    ghost use Rattle.etherparse_transport.specs.TcpHeader.{with_reserved_bits_cleared};
    ghost use Rattle.etherparse_transport.specs.TcpOptions.{IsOptionList, option_bytes};
    ghost use Rattle.etherparse_transport.specs.TcpOptions.{options_len, read_again};
    ghost use Rattle.etherparse_transport.specs.TcpPadding.{IsPadded};

    /// The length of a header without options, in bytes.
    pub const MIN_LEN: usize = 20;

    /// The length of a header with all the options that it has room for, in bytes.
    pub const MAX_LEN: usize = 60;

    /// A header with these fields. All else is 0, false or empty.
    pub fn new(
        source_port: u16,
        destination_port: u16,
        sequence_number: u32,
        window_size: u16,
    ) -> TcpHeader
        ensures made { result ≡ record default_tcp_header {
          source_port = source_port;
          destination_port = destination_port;
          sequence_number = sequence_number;
          window_size = window_size;
        } }
    {
        TcpHeader {
            source_port,
            destination_port,
            sequence_number,
            window_size,
            ..TcpHeader::default()
        }
    }

    /// The length of the header with its options in words of 4 bytes, 5 to 15, as the data offset
    /// field has it.
    #[inline]
    pub fn data_offset(&self) -> u8
        ensures value { result ≡ tcp_data_offset self.now }
        ensures within { result ≤ 15 }
    {
        self.options.len_u8() / 4 + 5
    }

    /// The length of the header with its options in bytes, 20 to 60 in steps of 4.
    ///
    /// # Example
    ///
    /// ```
    /// let mut header = TcpHeader::default();
    /// header.set_options_raw(&[2, 4, 0x05, 0xb4, 1])?;
    /// assert!(rt; (header.data_offset(), header.header_len()) == (7, 28));
    /// ```
    #[inline]
    pub fn header_len(&self) -> usize
        ensures value { result ≡ tcp_header_len self.now }
        ensures within { result ≤ Self.MAX_LEN }
        ensures in_words { result ≡ 4 * tcp_data_offset self.now }
    {
        TcpHeader::MIN_LEN + self.options.len()
    }

    /// Replaces the options with these bytes, filled up to a multiple of 4 with zeros; whether the
    /// bytes are options is not tested.
    ///
    /// # Errors
    ///
    /// `NotEnoughSpace` with the number of bytes if that is more than 40. The header is then
    /// unchanged.
    pub fn set_options_raw(&mut self, bytes: &[u8]) -> Result<(), TcpOptionWriteError>
        ensures accepted { IsOk result ↔ (length bytes.now ≤ 40) }
        ensures refused { IfErr result (λ e.
            e ≡ TcpOptionWriteError.NotEnoughSpace (length bytes.now)) }
        ensures others { self.new ≡ record self.old { options = self.new.options } }
        ensures padded { OnOk result (IsPadded bytes.now self.new.options) }
        ensures unchanged { OnErr result (self.new ≡ self.old) }
    {
        match TcpOptions::try_from_slice(bytes) {
            Ok(options) => {
                self.options = options;
                Ok(())
            }
            Err(e) => Err(e),
        }
    }

    /// Replaces the options with these, as [`TcpOptions::try_from_elements`] writes them.
    ///
    /// # Errors
    ///
    /// `NotEnoughSpace` with the number of bytes of the options if that is more than 40. The header
    /// is then unchanged.
    ///
    /// # Example
    ///
    /// ```
    /// let mut header = TcpHeader::new(1024, 80, 1, 8192);
    /// header.set_options(&[TcpOptionElement::MaximumSegmentSize(1460)])?;
    /// assert!(rt; header.options.as_slice() == [2, 4, 0x05, 0xb4].as_slice());
    /// let mut iterator = header.options_iterator();
    /// assert!(rt; iterator.next() == Some(Ok(TcpOptionElement::MaximumSegmentSize(1460))));
    /// ```
    pub fn set_options(&mut self, elements: &[TcpOptionElement]) -> Result<(), TcpOptionWriteError>
        ensures accepted { IsOk result ↔ (options_len elements.now ≤ 40) }
        ensures refused { IfErr result (λ e.
            e ≡ TcpOptionWriteError.NotEnoughSpace (options_len elements.now)) }
        ensures others { self.new ≡ record self.old { options = self.new.options } }
        ensures written { OnOk result
            (IsPadded (flat_map option_bytes elements.now) self.new.options) }
        ensures read_again { OnOk result
            (IsOptionList (map read_again elements.now) self.new.options) }
        ensures unchanged { OnErr result (self.new ≡ self.old) }
    {
        match TcpOptions::try_from_elements(elements) {
            Ok(options) => {
                self.options = options;
                Ok(())
            }
            Err(e) => Err(e),
        }
    }

    /// The options one after the other.
    #[inline]
    pub fn options_iterator(&self) -> TcpOptionsIterator<'_>
        ensures value { result.options.now ≡ self.now.options }
    {
        self.options.elements_iter()
    }

    /// The header at the front of a slice, and all the bytes after it. The checksum is not tested.
    ///
    /// # Errors
    ///
    /// `Len` if the slice has fewer than 20 bytes; otherwise `DataOffset` if the data offset is
    /// below 5; otherwise `Len` if the slice has fewer bytes than the data offset says.
    ///
    /// # Example
    ///
    /// ```
    /// // A SYN from port 1024 to port 80 with a maximum segment size of 1460 bytes.
    /// let segment = [
    ///     4, 0, 0, 80, 0, 0, 0, 1, 0, 0, 0, 0, 0x60, 0x02, 0x20, 0, 0xf1, 0xbc, 0, 0, 2, 4, 0x05,
    ///     0xb4,
    /// ];
    /// let (header, rest) = TcpHeader::from_slice(&segment)?;
    /// assert!(rt; (header.source_port, header.destination_port) == (1024, 80));
    /// assert!(rt; header.syn && !header.ack && header.window_size == 8192);
    /// assert!(rt; header.options.as_slice() == [2, 4, 0x05, 0xb4].as_slice() && rest.is_empty());
    /// ```
    #[inline(always)]
    pub fn from_slice(slice: &[u8]) -> Result<(TcpHeader, &[u8]), TcpError>
        ensures reads { ReadsTcp slice.now (found_and_rest result) }
        ensures only { (other : TcpReading) → ReadsTcp slice.now other →
            other ≡ found_and_rest result }

        // What was read is written again, with the reserved bits 0.
        ensures cleared { IfOk result (λ found. (front : List ℕ) → slice.now ≡ front ++ found.1.now
            → IsTcpLayoutWith found.0 0 (with_reserved_bits_cleared front)) }
    {
        match TcpHeaderSlice::from_slice(slice) {
            Ok(view) => Ok(with_rest(&view, slice)),
            Err(e) => Err(e),
        }
    }

    /// The bytes of the header, in network byte order, with the reserved bits 0 and the stored
    /// checksum.
    pub fn to_bytes(&self) -> ArrayVec<u8, 60>
        ensures layout { IsTcpLayoutWith self.now 0 result.items }
        ensures only { (bytes : List ℕ) → IsTcpLayoutWith self.now 0 bytes → bytes ≡ result.items }
        ensures read_again { (rest : List ℕ) →
            ReadsTcp (result.items ++ rest) (Ok (self.now, rest)) }
        ensures viewed_again { (rest : List ℕ) →
            ViewsTcp (result.items ++ rest) (Ok result.items) }
    {
        joined(&self.front(self.checksum), self.options.as_slice())
    }

    // The bytes before the options, with this checksum.
    #[inline(always)]
    #[rattlefmt::skip]
    fn front(&self, checksum: u16) -> [u8; 20]
        ensures value { result ≡ to_be_bytes w16 self.now.source_port
            ++ (to_be_bytes w16 self.now.destination_port
            ++ (to_be_bytes w32 self.now.sequence_number
            ++ (to_be_bytes w32 self.now.acknowledgment_number
            ++ ((tcp_data_offset self.now * 2 ^ 4 + from_bool self.now.ns) ∷ tcp_flags self.now
            ∷ (to_be_bytes w16 self.now.window_size ++ (to_be_bytes w16 checksum
            ++ to_be_bytes w16 self.now.urgent_pointer)))))) }
        ensures source_port { self.now.source_port < 2 ^ 16 }
        ensures destination_port { self.now.destination_port < 2 ^ 16 }
        ensures sequence_number { self.now.sequence_number < 2 ^ 32 }
        ensures acknowledgment_number { self.now.acknowledgment_number < 2 ^ 32 }
        ensures window_size { self.now.window_size < 2 ^ 16 }
        ensures checksum { checksum < 2 ^ 16 }
        ensures urgent_pointer { self.now.urgent_pointer < 2 ^ 16 }
    {
        let (source_port, destination_port) = (self.source_port, self.destination_port);
        let (sequence, acknowledgment) = (self.sequence_number, self.acknowledgment_number);
        let (window_size, urgent_pointer) = (self.window_size, self.urgent_pointer);
        let [s, t] = source_port.to_be_bytes();
        let [d, e] = destination_port.to_be_bytes();
        let [m, n, o, p] = sequence.to_be_bytes();
        let [a, b, c, k] = acknowledgment.to_be_bytes();
        let [w, x] = window_size.to_be_bytes();
        let [g, h] = checksum.to_be_bytes();
        let [u, v] = urgent_pointer.to_be_bytes();
        [
            s, t, d, e,
            m, n, o, p,
            a, b, c, k,
            (self.data_offset() << 4) + u8::from(self.ns), self.flags(), w, x,
            g, h, u, v,
        ]
    }

    // Byte 13.
    #[inline(always)]
    fn flags(&self) -> u8
        ensures value { result ≡ tcp_flags self.now }
    {
        let high = (u8::from(self.cwr) << 7)
            + (u8::from(self.ece) << 6)
            + (u8::from(self.urg) << 5)
            + (u8::from(self.ack) << 4);
        let low = (u8::from(self.psh) << 3)
            + (u8::from(self.rst) << 2)
            + (u8::from(self.syn) << 1)
            + u8::from(self.fin);
        high + low
    }
}

// The header that is seen at the front of a slice, and what follows it.
#[inline(always)]
fn with_rest<'a>(view: &TcpHeaderSlice<'_>, slice: &'a [u8]) -> (TcpHeader, &'a [u8])
    requires { HasTcpFront slice.now view.now.slice.now }
    ensures begins { BeginsWith IsTcpLayout slice.now result.0 result.1.now }
{
    let len = view.slice.len();
    let rest = &slice[len..];
    if slice.len() >= TcpHeader::MAX_LEN {
        // A number of bytes that the compiler knows is copied without a call.
        let bytes = slice[TcpHeader::MIN_LEN..TcpHeader::MAX_LEN]
            .first_chunk::<40>()
            .unwrap();
        let options = TcpOptions::from_front(bytes, len - TcpHeader::MIN_LEN);
        return (view.header_with(options), rest);
    }
    (view.header_with(TcpOptions::copy_of(view.options())), rest)
}

// The fixed fields, and the options after them.
#[inline(always)]
fn joined(front: &[u8], options: &[u8]) -> ArrayVec<u8, 60>
    requires front_len { length front.now ≡ 20 }
    requires options_len { length options.now ≤ 40 }
    ensures parts { result.items ≡ front.now ++ options.now }
    ensures are_bytes { IsBytes (front.now ++ options.now) }
{
    let mut bytes = ArrayVec::new();
    bytes.try_extend_from_slice(front).unwrap();
    bytes.try_extend_from_slice(options).unwrap();
    bytes
}

const _: () = prove!(TcpHeader::MIN_LEN == 20 && TcpHeader::MAX_LEN == 60);

/// All is 0, false or empty.
impl Default for TcpHeader {
    ghost use Rattle.std.specs.Prelude.{◌≡◌};
    ghost use Rattle.etherparse_transport.specs.TcpHeader.{default_tcp_header};

    ghost is_default = { λ header. header ≡ default_tcp_header };

    fn default() -> TcpHeader {
        TcpHeader {
            source_port: 0,
            destination_port: 0,
            sequence_number: 0,
            acknowledgment_number: 0,
            ns: false,
            fin: false,
            syn: false,
            rst: false,
            psh: false,
            ack: false,
            urg: false,
            ece: false,
            cwr: false,
            window_size: 0,
            checksum: 0,
            urgent_pointer: 0,
            options: TcpOptions::new(),
        }
    }
}
