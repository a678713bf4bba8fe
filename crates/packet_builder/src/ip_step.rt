//! A packet that is built, after its IP header.

use crate::build_slice_write_error::BuildSliceWriteError;
use crate::headers::{Headers, IpHeader, LinkHeader, VlanHeader};
use crate::icmpv4_step::Icmpv4Step;
use crate::icmpv6_step::Icmpv6Step;
use crate::tcp_step::TcpStep;
use crate::udp_step::UdpStep;
use crate::writing::put;
use etherparse::IpNumber;
use etherparse_icmp::{IcmpEchoHeader, Icmpv4Type, Icmpv6Type};
use etherparse_transport::TcpHeader;

/// A packet that is built, after its IP header.
#[derive(Clone, Debug, Drop)]
pub struct IpStep {
    /// All headers so far.
    pub headers: Headers,
}

impl IpStep {
    ghost use Rattle.std.specs.Prelude.{◌≡◌, ◌+◌, ◌≤◌, ◌<◌, ◌^◌, ◌↔◌, IfErr, IfOk, IsOk, OnErr};
    ghost use Rattle.std.specs.Prelude.{length};
    ghost use Rattle.etherparse_transport.specs.TcpHeader.{default_tcp_header};
    ghost use Rattle.packet_builder.specs.BuiltPacket.{FitsInto, HasHeaders, RefusesToWrite, headers_len};
    ghost use Rattle.etherparse_icmp.specs.declared.icmpv4_type.Icmpv4Type.TheVariants as icmpv4;
    ghost use Rattle.etherparse_icmp.specs.declared.icmpv6_type.Icmpv6Type.TheVariants as icmpv6;
    ghost use Rattle.packet_builder.specs.Steps.{ip_step};
    ghost use Rattle.packet_builder.specs.Writing.{WritesFront};

    /// Adds a UDP header between these ports.
    #[inline(always)]
    pub fn udp(self, source_port: u16, destination_port: u16) -> UdpStep
        ensures made { result ≡ record {
          headers = self.headers;
          source_port = source_port;
          destination_port = destination_port;
        } }
    {
        UdpStep {
            headers: self.headers,
            source_port,
            destination_port,
        }
    }

    /// Adds a TCP header between these ports, without options.
    #[inline(always)]
    pub fn tcp(
        self,
        source_port: u16,
        destination_port: u16,
        sequence_number: u32,
        window_size: u16,
    ) -> TcpStep
        ensures made { result ≡ record {
          headers = self.headers;
          tcp = record default_tcp_header {
            source_port = source_port;
            destination_port = destination_port;
            sequence_number = sequence_number;
            window_size = window_size;
          };
        } }
    {
        self.tcp_header(TcpHeader::new(source_port, destination_port, sequence_number, window_size))
    }

    /// Adds this TCP header. Its checksum is set when the packet is written.
    #[inline(always)]
    pub fn tcp_header(self, tcp: TcpHeader) -> TcpStep
        ensures made { result ≡ record { headers = self.headers; tcp = tcp } }
    {
        TcpStep {
            headers: self.headers,
            tcp,
        }
    }

    /// Adds the header of a message of ICMP, over IPv4 or IPv6. Its checksum is computed when the
    /// packet is written.
    #[inline(always)]
    pub fn icmpv4(self, icmp_type: Icmpv4Type) -> Icmpv4Step
        ensures made { result ≡ record { headers = self.headers; icmp_type = icmp_type } }
    {
        Icmpv4Step {
            headers: self.headers,
            icmp_type,
        }
    }

    /// Adds the header of a message of ICMP with this type, this code, and these bytes after the
    /// checksum.
    #[inline(always)]
    pub fn icmpv4_raw(self, type_u8: u8, code_u8: u8, bytes5to8: [u8; 4]) -> Icmpv4Step
        ensures made { result ≡ record {
          headers = self.headers;
          icmp_type = icmpv4.Unknown type_u8 code_u8 bytes5to8;
        } }
    {
        self.icmpv4(Icmpv4Type::Unknown {
            type_u8,
            code_u8,
            bytes5to8,
        })
    }

    /// Adds the header of an echo request of ICMP with this identifier and this sequence number.
    ///
    /// # Example
    ///
    /// ```
    /// let request = PacketBuilder::ipv4([10, 0, 0, 1], [10, 0, 0, 2], 64).icmpv4_echo_request(1, 2);
    /// let mut memory = [0; 32];
    /// let len = request.write_to_slice(&mut memory, b"abcd")?;
    /// assert!(rt; len == 32 && &memory[20..24] == [8, 0, 51, 54].as_slice());
    /// ```
    #[inline(always)]
    pub fn icmpv4_echo_request(self, id: u16, seq: u16) -> Icmpv4Step
        ensures made { result ≡ record {
          headers = self.headers;
          icmp_type = icmpv4.EchoRequest (record { id = id; seq = seq });
        } }
    {
        self.icmpv4(Icmpv4Type::EchoRequest(IcmpEchoHeader { id, seq }))
    }

    /// Adds the header of a reply to such a request.
    #[inline(always)]
    pub fn icmpv4_echo_reply(self, id: u16, seq: u16) -> Icmpv4Step
        ensures made { result ≡ record {
          headers = self.headers;
          icmp_type = icmpv4.EchoReply (record { id = id; seq = seq });
        } }
    {
        self.icmpv4(Icmpv4Type::EchoReply(IcmpEchoHeader { id, seq }))
    }

    /// Adds the header of a message of ICMPv6, over IPv6: over IPv4 the packet is not written. Its
    /// checksum is computed when the packet is written.
    #[inline(always)]
    pub fn icmpv6(self, icmp_type: Icmpv6Type) -> Icmpv6Step
        ensures made { result ≡ record { headers = self.headers; icmp_type = icmp_type } }
    {
        Icmpv6Step {
            headers: self.headers,
            icmp_type,
        }
    }

    /// Adds the header of a message of ICMPv6 with this type, this code, and these bytes after the
    /// checksum, over IPv6.
    #[inline(always)]
    pub fn icmpv6_raw(self, type_u8: u8, code_u8: u8, bytes5to8: [u8; 4]) -> Icmpv6Step
        ensures made { result ≡ record {
          headers = self.headers;
          icmp_type = icmpv6.Unknown type_u8 code_u8 bytes5to8;
        } }
    {
        self.icmpv6(Icmpv6Type::Unknown {
            type_u8,
            code_u8,
            bytes5to8,
        })
    }

    /// Adds the header of an echo request of ICMPv6 with this identifier and this sequence number,
    /// over IPv6.
    ///
    /// # Example
    ///
    /// ```
    /// let source = [0x20, 1, 0x0d, 0xb8, 0, 0, 0, 0, 0, 0, 0, 0, 0, 0, 0, 1];
    /// let destination = [0x20, 1, 0x0d, 0xb8, 0, 0, 0, 0, 0, 0, 0, 0, 0, 0, 0, 2];
    /// let request = PacketBuilder::ipv6(source, destination, 64).icmpv6_echo_request(1, 2);
    /// let mut memory = [0; 51];
    /// let len = request.write_to_slice(&mut memory, b"odd")?;
    /// assert!(rt; len == 51 && &memory[40..44] == [128, 0, 80, 221].as_slice());
    /// ```
    #[inline(always)]
    pub fn icmpv6_echo_request(self, id: u16, seq: u16) -> Icmpv6Step
        ensures made { result ≡ record {
          headers = self.headers;
          icmp_type = icmpv6.EchoRequest (record { id = id; seq = seq });
        } }
    {
        self.icmpv6(Icmpv6Type::EchoRequest(IcmpEchoHeader { id, seq }))
    }

    /// Adds the header of a reply to such a request, over IPv6.
    #[inline(always)]
    pub fn icmpv6_echo_reply(self, id: u16, seq: u16) -> Icmpv6Step
        ensures made { result ≡ record {
          headers = self.headers;
          icmp_type = icmpv6.EchoReply (record { id = id; seq = seq });
        } }
    {
        self.icmpv6(Icmpv6Type::EchoReply(IcmpEchoHeader { id, seq }))
    }

    // A packet with this IP header after a link header and tags, if there are any.
    #[inline(always)]
    pub(crate) fn after(link: Option<LinkHeader>, vlan: Option<VlanHeader>, ip: IpHeader) -> IpStep
        ensures made { result ≡ ip_step link vlan ip }
    {
        IpStep {
            headers: Headers { link, vlan, ip },
        }
    }

    /// The length of the packet with a payload of this length after the IP header, in bytes. The
    /// payload has to be below 2^63 bytes.
    #[inline(always)]
    pub fn size(&self, payload_size: usize) -> usize
        requires fits { payload_size < 2 ^ 63 }
        ensures value { result ≡ headers_len self.now.headers + payload_size }
    {
        self.headers.len() + payload_size
    }

    /// Writes the packet with a payload of this protocol at the front of a slice, as it is: a checksum
    /// in it is not set. Returns the length of the packet in bytes. The slice is as before after it.
    ///
    /// # Errors
    ///
    /// `PayloadLen` if the IP header cannot count the bytes after it; otherwise `Space` if the slice
    /// is too short. Nothing is written.
    pub fn write_to_slice(
        self,
        slice: &mut [u8],
        protocol: IpNumber,
        payload: &[u8],
    ) -> Result<usize, BuildSliceWriteError>
        ensures packet { IfOk result (λ end. WritesFront (HasHeaders self.headers protocol payload.now)
            end slice.old slice.new) }
        ensures accepted { IsOk result ↔
            FitsInto self.headers (length payload.now) (length slice.old) }
        ensures refused { IfErr result
            (RefusesToWrite self.headers (length payload.now) (length slice.old)) }
        ensures unchanged { OnErr result (slice.new ≡ slice.old) }
    {
        let mut headers = self.headers;
        let at = headers.put(protocol, payload.len(), slice)?;
        Ok(put(payload, at, slice))
    }
}
