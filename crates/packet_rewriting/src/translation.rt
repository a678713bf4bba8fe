//! Address translation: another source or destination address, and how it changes the checksums
//! (RFC 3022).

ghost use Rattle.std.specs.Prelude.{◌≡◌, ◌==◌, if◌then◌else◌};
ghost use Rattle.etherparse.specs.WordSums.{UpdatesChecksum, UpdatesChecksumWithNoZero};
ghost use Rattle.etherparse.specs.WordSums.{network_order_word_sum, updated_checksum_of_words};
ghost use Rattle.etherparse.specs.WordSums.{with_no_zero};
ghost use Rattle.packet_rewriting.specs.Translation.{OfFinal, Readdresses};

use etherparse::Ipv4Header;
use etherparse::checksum::{update_4bytes, update_4bytes_with_no_zero};
use packet_parts::final_destination::final_destination_ipv4;

/// Gives a header another source address, and returns the UDP checksum for it; 0, which says that
/// there is none, stays 0.
///
/// # Example
///
/// ```
/// let (source, destination) = ([192, 168, 0, 1], [192, 168, 0, 199]);
/// let mut header = Ipv4Header::new(12, 64, IpNumber::UDP, source, destination)?;
/// header.set_checksum();
/// let checksum = translate_udp_source(&mut header, 0x91ae, [198, 51, 100, 7]);
/// assert!(rt; (header.header_checksum, checksum) == (0x4f23, 0x281d));
/// let checksum = translate_udp_destination(&mut header, checksum, [10, 0, 0, 2]);
/// assert!(rt; (header.header_checksum, checksum) == (0x0691, 0xdf8a));
/// ```
pub fn translate_udp_source(header: &mut Ipv4Header, udp_checksum: u16, source: [u8; 4]) -> u16
    ensures header { Readdresses header.old header.new
        (record header.old { source = source }) header.old.source source }
    ensures value { result ≡ if udp_checksum == 0 then 0 else with_no_zero
        (updated_checksum_of_words 2 udp_checksum header.old.source source) }
    ensures udp { UpdatesChecksumWithNoZero udp_checksum
        (network_order_word_sum header.old.source) (network_order_word_sum source) result }
{
    let old = header.source;
    header.set_source(source);
    update_4bytes_with_no_zero(udp_checksum, old, source)
}

/// The same with another destination address. The checksum is for the final destination, which a
/// source route in the options can keep (RFC 791 section 3.1).
pub fn translate_udp_destination(
    header: &mut Ipv4Header,
    udp_checksum: u16,
    destination: [u8; 4],
) -> u16
    ensures header { Readdresses header.old header.new
        (record header.old { destination = destination }) header.old.destination destination }
    ensures value { OfFinal header.old destination (λ old new. result ≡ if udp_checksum == 0 then 0
        else with_no_zero (updated_checksum_of_words 2 udp_checksum old new)) }
    ensures udp { OfFinal header.old destination (λ old new. UpdatesChecksumWithNoZero udp_checksum
        (network_order_word_sum old) (network_order_word_sum new) result) }
{
    let old = final_destination_ipv4(header.destination, header.options.as_slice());
    header.set_destination(destination);
    let new = final_destination_ipv4(destination, header.options.as_slice());
    update_4bytes_with_no_zero(udp_checksum, old, new)
}

/// Gives a header another source address, and returns the TCP checksum for it, which may be 0.
///
/// # Example
///
/// ```
/// let (source, destination) = ([192, 168, 0, 1], [192, 168, 0, 199]);
/// let mut header = Ipv4Header::new(20, 64, IpNumber::TCP, source, destination)?;
/// header.set_checksum();
/// let checksum = translate_tcp_source(&mut header, 0x0979, [198, 51, 100, 7]);
/// assert!(rt; (header.header_checksum, checksum) == (0x4f26, 0x9fe7));
/// let checksum = translate_tcp_destination(&mut header, checksum, [10, 0, 0, 2]);
/// assert!(rt; (header.header_checksum, checksum) == (0x0694, 0x5755));
/// ```
pub fn translate_tcp_source(header: &mut Ipv4Header, tcp_checksum: u16, source: [u8; 4]) -> u16
    ensures header { Readdresses header.old header.new
        (record header.old { source = source }) header.old.source source }
    ensures value { result
        ≡ updated_checksum_of_words 2 tcp_checksum header.old.source source }
    ensures tcp { UpdatesChecksum tcp_checksum
        (network_order_word_sum header.old.source) (network_order_word_sum source) result }
{
    let old = header.source;
    header.set_source(source);
    update_4bytes(tcp_checksum, old, source)
}

/// The same with another destination address. The checksum is for the final destination, which a
/// source route in the options can keep (RFC 791 section 3.1).
pub fn translate_tcp_destination(
    header: &mut Ipv4Header,
    tcp_checksum: u16,
    destination: [u8; 4],
) -> u16
    ensures header { Readdresses header.old header.new
        (record header.old { destination = destination }) header.old.destination destination }
    ensures value { OfFinal header.old destination (λ old new. result
        ≡ updated_checksum_of_words 2 tcp_checksum old new) }
    ensures tcp { OfFinal header.old destination (λ old new. UpdatesChecksum tcp_checksum
        (network_order_word_sum old) (network_order_word_sum new) result) }
{
    let old = final_destination_ipv4(header.destination, header.options.as_slice());
    header.set_destination(destination);
    let new = final_destination_ipv4(destination, header.options.as_slice());
    update_4bytes(tcp_checksum, old, new)
}
