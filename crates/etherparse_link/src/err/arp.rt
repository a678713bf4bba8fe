//! The errors of ARP packets.

ghost use Rattle.std.specs.Prelude.{Some};
ghost use Rattle.etherparse_link.specs.ArpErrors.{arp_eth_ipv4_from_error_text};
ghost use Rattle.etherparse_link.specs.ArpErrors.{arp_hw_addr_error_text, arp_new_error_text};
ghost use Rattle.etherparse_link.specs.ArpErrors.{arp_proto_addr_error_text};

use crate::{ArpHardwareId, EtherType};
use std::error::Error;
use std::fmt;

/// Why addresses cannot stand in one ARP packet.
#[derive(Clone, Copy, Debug, PartialEq, Eq, Hash)]
pub enum ArpNewError {
    /// The hardware addresses cannot.
    HwAddr(ArpHwAddrError),
    /// The protocol addresses cannot.
    ProtoAddr(ArpProtoAddrError),
}

/// Writes the text of the error inside.
impl fmt::Display for ArpNewError {
    ghost output = { λ e. Some (arp_new_error_text e) };

    fn fmt<W: fmt::Write>(&self, f: &mut fmt::Formatter<W>) -> fmt::Result {
        match self {
            ArpNewError::HwAddr(e) => e.fmt(f),
            ArpNewError::ProtoAddr(e) => e.fmt(f),
        }
    }
}

impl Error for ArpNewError {}

/// Why two hardware addresses cannot stand in one ARP packet.
#[derive(Clone, Copy, Debug, PartialEq, Eq, Hash)]
pub enum ArpHwAddrError {
    /// The lengths of the sender's and of the target's address, which differ.
    LenNonMatching(usize, usize),
    /// The length of both addresses, which is above 255 bytes.
    LenTooBig(usize),
}

/// Says which lengths were found.
impl fmt::Display for ArpHwAddrError {
    ghost output = { λ e. Some (arp_hw_addr_error_text e) };

    fn fmt<W: fmt::Write>(&self, f: &mut fmt::Formatter<W>) -> fmt::Result {
        match *self {
            ArpHwAddrError::LenNonMatching(sender, target) => write!(
                f,
                "ARP Error: The sender hardware address has '{sender}' byte(s), the target hardware address '{target}'."
            ),
            ArpHwAddrError::LenTooBig(len) => write!(
                f,
                "ARP Error: The hardware addresses have '{len}' byte(s) (maximum allowed value is '255')."
            ),
        }
    }
}

impl Error for ArpHwAddrError {}

/// Why two protocol addresses cannot stand in one ARP packet.
#[derive(Clone, Copy, Debug, PartialEq, Eq, Hash)]
pub enum ArpProtoAddrError {
    /// The lengths of the sender's and of the target's address, which differ.
    LenNonMatching(usize, usize),
    /// The length of both addresses, which is above 255 bytes.
    LenTooBig(usize),
}

/// Says which lengths were found.
impl fmt::Display for ArpProtoAddrError {
    ghost output = { λ e. Some (arp_proto_addr_error_text e) };

    fn fmt<W: fmt::Write>(&self, f: &mut fmt::Formatter<W>) -> fmt::Result {
        match *self {
            ArpProtoAddrError::LenNonMatching(sender, target) => write!(
                f,
                "ARP Error: The sender protocol address has '{sender}' byte(s), the target protocol address '{target}'."
            ),
            ArpProtoAddrError::LenTooBig(len) => write!(
                f,
                "ARP Error: The protocol addresses have '{len}' byte(s) (maximum allowed value is '255')."
            ),
        }
    }
}

impl Error for ArpProtoAddrError {}

/// Why an ARP packet is not one of Ethernet and IPv4.
#[derive(Clone, Copy, Debug, PartialEq, Eq, Hash)]
pub enum ArpEthIpv4FromError {
    /// The hardware type, which is not [`ArpHardwareId::ETHERNET`].
    NonMatchingHwType(ArpHardwareId),
    /// The protocol type, which is not [`EtherType::IPV4`].
    NonMatchingProtocolType(EtherType),
    /// The length of a hardware address in bytes, which is not 6.
    NonMatchingHwAddrSize(u8),
    /// The length of a protocol address in bytes, which is not 4.
    NonMatchingProtoAddrSize(u8),
}

/// Says what was found, and what it is in a packet of Ethernet and IPv4.
impl fmt::Display for ArpEthIpv4FromError {
    ghost output = { λ e. Some (arp_eth_ipv4_from_error_text e) };

    fn fmt<W: fmt::Write>(&self, f: &mut fmt::Formatter<W>) -> fmt::Result {
        match *self {
            ArpEthIpv4FromError::NonMatchingHwType(ArpHardwareId(number)) => write!(
                f,
                "ARP Error: The hardware type is '{number}', and not '1' of Ethernet."
            ),
            ArpEthIpv4FromError::NonMatchingProtocolType(EtherType(number)) => write!(
                f,
                "ARP Error: The protocol type is '{number}', and not '2048' of IPv4."
            ),
            ArpEthIpv4FromError::NonMatchingHwAddrSize(size) => write!(
                f,
                "ARP Error: The hardware addresses have '{size}' byte(s), and not '6'."
            ),
            ArpEthIpv4FromError::NonMatchingProtoAddrSize(size) => write!(
                f,
                "ARP Error: The protocol addresses have '{size}' byte(s), and not '4'."
            ),
        }
    }
}

impl Error for ArpEthIpv4FromError {}
