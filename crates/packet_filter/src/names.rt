//! The names that expressions are made of, and what each says.

ghost use Rattle.std.specs.Prelude.{◌≡◌, map};
ghost use Rattle.std.specs.Str.{bytes_eq};
ghost use Rattle.packet_filter.specs.Names.{name_of, token_in};

use crate::expression::{Network, Operator, Relation, Transport, Version};
use crate::token::Token;

// The words of the language.
static WORDS: [(&[u8], Token); 59] = [
    // Words that join expressions, brackets, and what numbers are compared by.
    (b"not", Token::Not),
    (b"!", Token::Not),
    (b"and", Token::Operator(Operator::And)),
    (b"&&", Token::Operator(Operator::And)),
    (b"or", Token::Operator(Operator::Or)),
    (b"||", Token::Operator(Operator::Or)),
    (b"(", Token::Open),
    (b")", Token::Close),
    (b"[", Token::OpenBracket),
    (b"]", Token::CloseBracket),
    (b"&", Token::BitAnd),
    (b"|", Token::BitOr),
    (b"=", Token::Relation(Relation::Equal)),
    (b"==", Token::Relation(Relation::Equal)),
    (b"!=", Token::Relation(Relation::NotEqual)),
    (b"<", Token::Relation(Relation::Less)),
    (b"<=", Token::Relation(Relation::LessOrEqual)),
    (b">", Token::Relation(Relation::Greater)),
    (b">=", Token::Relation(Relation::GreaterOrEqual)),
    // Protocols that IP carries, or with addresses.
    (b"ip", Token::Network(Network::Ip(Version::Ipv4))),
    (b"ip6", Token::Network(Network::Ip(Version::Ipv6))),
    (b"arp", Token::Network(Network::Arp)),
    (b"rarp", Token::Network(Network::Rarp)),
    (b"tcp", Token::Transport(Transport::Tcp)),
    (b"udp", Token::Transport(Transport::Udp)),
    (b"sctp", Token::Transport(Transport::Sctp)),
    (b"icmp", Token::Protocol(Some(Version::Ipv4), 1)),
    (b"igmp", Token::Protocol(Some(Version::Ipv4), 2)),
    (b"igrp", Token::Protocol(Some(Version::Ipv4), 9)),
    (b"vrrp", Token::Protocol(Some(Version::Ipv4), 112)),
    (b"carp", Token::Protocol(Some(Version::Ipv4), 112)),
    (b"icmp6", Token::Protocol(Some(Version::Ipv6), 58)),
    (b"esp", Token::Protocol(None, 50)),
    (b"ah", Token::Protocol(None, 51)),
    (b"pim", Token::Protocol(None, 103)),
    // Protocols with an EtherType of their own.
    (b"mopdl", Token::EtherType(0x6001)),
    (b"moprc", Token::EtherType(0x6002)),
    (b"decnet", Token::EtherType(0x6003)),
    (b"lat", Token::EtherType(0x6004)),
    (b"sca", Token::EtherType(0x6007)),
    // What says which part of a packet is meant, and what is asked of it.
    (b"ether", Token::Ether),
    (b"src", Token::Source),
    (b"dst", Token::Destination),
    (b"host", Token::Host),
    (b"net", Token::Net),
    (b"mask", Token::Mask),
    (b"port", Token::Port),
    (b"portrange", Token::PortRange),
    (b"proto", Token::Proto),
    (b"broadcast", Token::Broadcast),
    (b"multicast", Token::Multicast),
    (b"len", Token::Length),
    (b"vlan", Token::Vlan),
    (b"less", Token::Less),
    (b"greater", Token::Greater),
    (b"fragment", Token::Fragment),
    (b"first", Token::First),
    (b"checksum", Token::Checksum),
    (b"wrong", Token::Wrong),
];

// Words of pcap-filter(7) that this language does not have.
static FOREIGN: [(&[u8], Token); 70] = [
    (b"\\aarp", Token::Foreign),
    (b"\\atalk", Token::Foreign),
    (b"\\ipx", Token::Foreign),
    (b"\\iso", Token::Foreign),
    (b"\\netbeui", Token::Foreign),
    (b"\\stp", Token::Foreign),
    (b"aarp", Token::Foreign),
    (b"atalk", Token::Foreign),
    (b"clnp", Token::Foreign),
    (b"esis", Token::Foreign),
    (b"isis", Token::Foreign),
    (b"ipx", Token::Foreign),
    (b"iso", Token::Foreign),
    (b"netbeui", Token::Foreign),
    (b"stp", Token::Foreign),
    (b"csnp", Token::Foreign),
    (b"iih", Token::Foreign),
    (b"l1", Token::Foreign),
    (b"l2", Token::Foreign),
    (b"lsp", Token::Foreign),
    (b"psnp", Token::Foreign),
    (b"snp", Token::Foreign),
    (b"fddi", Token::Foreign),
    (b"link", Token::Foreign),
    (b"ppp", Token::Foreign),
    (b"radio", Token::Foreign),
    (b"slip", Token::Foreign),
    (b"tr", Token::Foreign),
    (b"wlan", Token::Foreign),
    (b"addr1", Token::Foreign),
    (b"addr2", Token::Foreign),
    (b"addr3", Token::Foreign),
    (b"addr4", Token::Foreign),
    (b"dir", Token::Foreign),
    (b"ra", Token::Foreign),
    (b"subtype", Token::Foreign),
    (b"ta", Token::Foreign),
    (b"type", Token::Foreign),
    (b"llc", Token::Foreign),
    (b"mpls", Token::Foreign),
    (b"pppoed", Token::Foreign),
    (b"pppoes", Token::Foreign),
    (b"geneve", Token::Foreign),
    (b"gateway", Token::Foreign),
    (b"protochain", Token::Foreign),
    (b"inbound", Token::Foreign),
    (b"outbound", Token::Foreign),
    (b"ifname", Token::Foreign),
    (b"on", Token::Foreign),
    (b"action", Token::Foreign),
    (b"reason", Token::Foreign),
    (b"rnr", Token::Foreign),
    (b"rset", Token::Foreign),
    (b"rulenum", Token::Foreign),
    (b"ruleset", Token::Foreign),
    (b"srnr", Token::Foreign),
    (b"subrulenum", Token::Foreign),
    (b"bcc", Token::Foreign),
    (b"connectmsg", Token::Foreign),
    (b"ilmic", Token::Foreign),
    (b"lane", Token::Foreign),
    (b"metac", Token::Foreign),
    (b"metaconnect", Token::Foreign),
    (b"oam", Token::Foreign),
    (b"oamf4", Token::Foreign),
    (b"oamf4e", Token::Foreign),
    (b"oamf4s", Token::Foreign),
    (b"sc", Token::Foreign),
    (b"vci", Token::Foreign),
    (b"vpi", Token::Foreign),
];

/// What a name says, of this language or of pcap-filter(7) alone.
pub(crate) fn name_of(word: &[u8]) -> Option<Token>
    ensures value { result ≡ name_of word.now }
{
    token_in(&WORDS, word).or(token_in(&FOREIGN, word))
}

/// What a word says that is one of these names.
pub(crate) fn token_in(mut names: &[(&[u8], Token)], word: &[u8]) -> Option<Token>
    ensures value { result ≡ token_in (map (λ n. (n.0.now, n.1)) names.entry.now) word.now }
{
    while let [name, rest @ ..] = names {
        if is_word(word, name.0) {
            return Some(name.1);
        }
        names = rest;
    }
    None
}

/// Whether a word is this name.
pub(crate) fn is_word(word: &[u8], name: &[u8]) -> bool
    ensures value { result ≡ bytes_eq word.now name.now }
{
    word == name
}
