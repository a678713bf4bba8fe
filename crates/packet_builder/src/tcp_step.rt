//! A packet that is built, after its TCP header.

ghost use Rattle.std.specs.Prelude.{◌+◌, ◌≤◌, length};
ghost use Rattle.etherparse_transport.specs.TcpHeader.{tcp_header_len};
ghost use Rattle.packet_builder.specs.BuiltPacket.{IsTcpBefore};

use crate::build_slice_write_error::BuildSliceWriteError;
use crate::headers::{Headers, IpHeader};
use crate::writing::put_upper;
use etherparse::IpNumber;
use etherparse_transport::{TcpHeader, TcpOptionElement, TcpOptionWriteError};
use packet_parts::final_destination::final_destination_ipv4;

/// A packet that is built, after its TCP header.
#[derive(Clone, Debug, Drop)]
pub struct TcpStep {
    /// All headers before that of TCP.
    pub headers: Headers,
    /// The TCP header. Its checksum is set when the packet is written.
    pub tcp: TcpHeader,
}

impl TcpStep {
    ghost use Rattle.std.specs.Prelude.{◌≡◌, ◌+◌, ◌≤◌, ◌<◌, ◌^◌, ◌↔◌, IfErr, IfOk, IsOk, OnErr};
    ghost use Rattle.std.specs.Prelude.{length, map, true};
    ghost use Rattle.std.specs.List.{flat_map};
    ghost use Rattle.etherparse_transport.specs.TcpHeader.{tcp_header_len};
    ghost use Rattle.etherparse_transport.specs.TcpOptions.{IsOptionList, option_bytes};
    ghost use Rattle.etherparse_transport.specs.TcpOptions.{options_len, read_again};
    ghost use Rattle.etherparse_transport.specs.TcpPadding.{IsPadded};
    ghost use Rattle.packet_builder.specs.BuiltPacket.{FitsInto, IsTcpPacket, RefusesToWrite, headers_len};
    ghost use Rattle.packet_builder.specs.Writing.{WritesFront};

    /// Sets the flag NS: the nonce sum (RFC 3540).
    #[inline(always)]
    pub fn ns(mut self) -> TcpStep
        ensures made { result ≡ record self { tcp = record self.tcp { ns = true } } }
    {
        self.tcp.ns = true;
        self
    }

    /// Sets the flag FIN: that the sender has no more data.
    #[inline(always)]
    pub fn fin(mut self) -> TcpStep
        ensures made { result ≡ record self { tcp = record self.tcp { fin = true } } }
    {
        self.tcp.fin = true;
        self
    }

    /// Sets the flag SYN: that sequence numbers are synchronized.
    #[inline(always)]
    pub fn syn(mut self) -> TcpStep
        ensures made { result ≡ record self { tcp = record self.tcp { syn = true } } }
    {
        self.tcp.syn = true;
        self
    }

    /// Sets the flag RST: that the connection is reset.
    #[inline(always)]
    pub fn rst(mut self) -> TcpStep
        ensures made { result ≡ record self { tcp = record self.tcp { rst = true } } }
    {
        self.tcp.rst = true;
        self
    }

    /// Sets the flag PSH: that the data is to be pushed to the receiving user.
    #[inline(always)]
    pub fn psh(mut self) -> TcpStep
        ensures made { result ≡ record self { tcp = record self.tcp { psh = true } } }
    {
        self.tcp.psh = true;
        self
    }

    /// Sets the flag ECE: that congestion was experienced (RFC 3168).
    #[inline(always)]
    pub fn ece(mut self) -> TcpStep
        ensures made { result ≡ record self { tcp = record self.tcp { ece = true } } }
    {
        self.tcp.ece = true;
        self
    }

    /// Sets the flag CWR: that the congestion window was reduced (RFC 3168).
    #[inline(always)]
    pub fn cwr(mut self) -> TcpStep
        ensures made { result ≡ record self { tcp = record self.tcp { cwr = true } } }
    {
        self.tcp.cwr = true;
        self
    }

    /// Sets the flag ACK and the number that the sender expects next.
    #[inline(always)]
    pub fn ack(mut self, acknowledgment_number: u32) -> TcpStep
        ensures made { result ≡ record self {
          tcp = record self.tcp {
            ack = true;
            acknowledgment_number = acknowledgment_number;
          };
        } }
    {
        self.tcp.ack = true;
        self.tcp.acknowledgment_number = acknowledgment_number;
        self
    }

    /// Sets the flag URG and where urgent data ends.
    #[inline(always)]
    pub fn urg(mut self, urgent_pointer: u16) -> TcpStep
        ensures made { result ≡ record self {
          tcp = record self.tcp {
            urg = true;
            urgent_pointer = urgent_pointer;
          };
        } }
    {
        self.tcp.urg = true;
        self.tcp.urgent_pointer = urgent_pointer;
        self
    }

    /// Sets the options to these, filled up to a multiple of 4 with zeros.
    ///
    /// # Errors
    ///
    /// A `TcpOptionWriteError` if they have more than 40 bytes.
    ///
    /// # Example
    ///
    /// ```
    /// let builder = PacketBuilder::ipv4([10, 0, 0, 1], [10, 0, 0, 2], 64)
    ///     .tcp(1024, 80, 1, 8192)
    ///     .syn()
    ///     .options(&[
    ///         TcpOptionElement::MaximumSegmentSize(1460),
    ///         TcpOptionElement::WindowScale(7),
    ///     ])?;
    /// assert!(rt; builder.size(0) == 48);
    /// ```
    pub fn options(mut self, options: &[TcpOptionElement]) -> Result<TcpStep, TcpOptionWriteError>
        ensures accepted { IsOk result ↔ (options_len options.now ≤ 40) }
        ensures refused { IfErr result (λ e.
            e ≡ TcpOptionWriteError.NotEnoughSpace (options_len options.now)) }
        ensures made { IfOk result (λ step.
            IsPadded (flat_map option_bytes options.now) step.tcp.options) }
        ensures read_again { IfOk result (λ step.
            IsOptionList (map read_again options.now) step.tcp.options) }
        ensures others { IfOk result (λ step. step ≡
            record self { tcp = record self.tcp { options = step.tcp.options } }) }
    {
        match self.tcp.set_options(options) {
            Ok(()) => Ok(self),
            Err(e) => Err(e),
        }
    }

    /// Sets the options to these bytes, filled up to a multiple of 4 with zeros.
    ///
    /// # Errors
    ///
    /// A `TcpOptionWriteError` if there are more than 40 bytes.
    pub fn options_raw(mut self, options: &[u8]) -> Result<TcpStep, TcpOptionWriteError>
        ensures accepted { IsOk result ↔ (length options.now ≤ 40) }
        ensures refused { IfErr result (λ e.
            e ≡ TcpOptionWriteError.NotEnoughSpace (length options.now)) }
        ensures made { IfOk result (λ step. IsPadded options.now step.tcp.options) }
        ensures others { IfOk result (λ step. step ≡
            record self { tcp = record self.tcp { options = step.tcp.options } }) }
    {
        match self.tcp.set_options_raw(options) {
            Ok(()) => Ok(self),
            Err(e) => Err(e),
        }
    }

    /// The length of the packet with a payload of this length, in bytes. The payload has to be below
    /// 2^63 bytes.
    #[inline(always)]
    pub fn size(&self, payload_size: usize) -> usize
        requires fits { payload_size < 2 ^ 63 }
        ensures value { result ≡
            headers_len self.now.headers + (tcp_header_len self.now.tcp + payload_size) }
    {
        self.headers.len() + self.tcp.header_len() + payload_size
    }

    /// Writes the packet with this payload at the front of a slice. Returns its length in bytes. The
    /// slice is as before after it.
    ///
    /// # Errors
    ///
    /// `PayloadLen` if the IP header cannot count the bytes after it; otherwise `Space` if the slice
    /// is too short. Nothing is written.
    #[inline(always)]
    pub fn write_to_slice(
        self,
        slice: &mut [u8],
        payload: &[u8],
    ) -> Result<usize, BuildSliceWriteError>
        ensures packet { IfOk result (λ end.
            WritesFront (IsTcpPacket self.headers self.tcp payload.now) end slice.old slice.new) }
        ensures accepted { IsOk result ↔ FitsInto self.headers
            (tcp_header_len self.tcp + length payload.now) (length slice.old) }
        ensures refused { IfErr result (RefusesToWrite self.headers
            (tcp_header_len self.tcp + length payload.now) (length slice.old)) }
        ensures unchanged { OnErr result (slice.new ≡ slice.old) }
    {
        let TcpStep { mut headers, tcp } = self;
        let at = headers.put(IpNumber::TCP, tcp.header_len() + payload.len(), slice)?;
        let tcp = header_over(&headers.ip, tcp, payload).to_bytes();
        Ok(put_upper(tcp.as_slice(), payload, at, slice))
    }
}

// The header of a segment over this IP header.
#[inline(always)]
fn header_over(ip: &IpHeader, tcp: TcpHeader, payload: &[u8]) -> TcpHeader
    requires fits { tcp_header_len tcp + length payload.now ≤ 65535 }
    ensures made { IsTcpBefore ip.now tcp payload.now result }
{
    let mut header = tcp;
    let checksum = match ip {
        IpHeader::Ipv4(ip) => {
            let last = final_destination_ipv4(ip.destination, ip.options.as_slice());
            header
                .calc_checksum_ipv4_raw(ip.source, last, payload)
                .unwrap()
        }
        IpHeader::Ipv6(ip) => header.calc_checksum_ipv6(ip, payload).unwrap(),
    };
    header.checksum = checksum;
    header
}
