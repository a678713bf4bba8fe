//! An address translator: another address for a datagram, and how its checksums are updated.

ghost use Rattle.std.specs.Prelude.{◌≡◌, IsTrue};
ghost use Rattle.etherparse.specs.WordSums.{UpdatesChecksumWithNoZero, network_order_word_sum};
ghost use Rattle.packet_rewriting.specs.Translation.{Readdresses};

use etherparse::Ipv4Header;
use etherparse::checksum::{update_2bytes, update_4bytes};
use etherparse_transport::UdpHeader;
use packet_rewriting::translation::translate_udp_source;

/// Gives a datagram that leaves a network the public address of that network, with the checksums of
/// both headers for it. A datagram without a checksum stays without one.
pub fn send_out(ip: &mut Ipv4Header, udp: &mut UdpHeader, public: [u8; 4])
    ensures header { Readdresses ip.old ip.new
        (record ip.old { source = public }) ip.old.source public }
    ensures others { udp.new ≡ record udp.old { checksum = udp.new.checksum } }
    ensures none { udp.old.checksum ≡ 0 → udp.new.checksum ≡ 0 }
    ensures updated { UpdatesChecksumWithNoZero udp.old.checksum
        (network_order_word_sum ip.old.source) (network_order_word_sum public) udp.new.checksum }
{
    udp.checksum = translate_udp_source(ip, udp.checksum, public);
}

/// Whether the update for an address is that for its two words, one after the other: it always is,
/// so a translator may take an address by its words.
pub fn is_updated_by_words(checksum: u16, old: [u8; 4], new: [u8; 4]) -> bool
    ensures always { IsTrue result }
{
    let [a, b, c, d] = old;
    let [e, f, g, h] = new;
    let first = update_2bytes(checksum, [a, b], [e, f]);
    update_4bytes(checksum, old, new) == update_2bytes(first, [c, d], [g, h])
}
