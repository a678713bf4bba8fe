//! UDP and TCP, by `etherparse_transport`.

use crate::case::{Argument, Case, write_shown};
use crate::shown::{Answer, Found, PlainError, Shown};
use etherparse_transport::{
    TcpError, TcpHeader, TcpOptionElement, TcpOptionReadError, TcpOptionWriteError, TcpOptions,
    TcpOptionsIterator, UdpHeader,
};

/// The cases `udp.NAME`.
pub fn answer_udp(name: &str, case: &mut Case) {
    match name {
        "head" => write_shown(UdpHeader::from_slice(&case.bytes()), case),
        "new" => {
            let (source_port, destination_port) = (case.number(), case.number());
            let payload_len = case.number();
            let made = UdpHeader::without_ipv4_checksum(source_port, destination_port, payload_len);
            write_shown(made, case);
        }
        "v4" => answer_udp_ipv4(case),
        "v6" => answer_udp_ipv6(case),
        _ => case.refuse(),
    }
}

/// The cases `tcp.NAME`.
pub fn answer_tcp(name: &str, case: &mut Case) {
    match name {
        "head" => write_shown(TcpHeader::from_slice(&case.bytes()), case),
        "options" => write_options(&case.bytes(), &mut case.answer),
        "raw_options" => write_shown(TcpOptions::try_from_slice(&case.bytes()), case),
        "elements" => answer_elements(case),
        "v4" => answer_tcp_ipv4(case),
        "v6" => answer_tcp_ipv6(case),
        _ => case.refuse(),
    }
}

// The checksum of a UDP datagram between two addresses of IPv4.
fn answer_udp_ipv4(case: &mut Case) {
    let (source, destination) = (case.array(), case.array());
    match UdpHeader::from_slice(&case.bytes()) {
        Ok((header, payload)) => {
            write_shown(
                header.calc_checksum_ipv4_raw(source, destination, payload),
                case,
            )
        }
        Err(e) => write_shown(e, case),
    }
}

// The same of IPv6.
fn answer_udp_ipv6(case: &mut Case) {
    let (source, destination) = (case.array(), case.array());
    match UdpHeader::from_slice(&case.bytes()) {
        Ok((header, payload)) => {
            write_shown(
                header.calc_checksum_ipv6_raw(source, destination, payload),
                case,
            )
        }
        Err(e) => write_shown(e, case),
    }
}

// The checksum of a TCP segment between two addresses of IPv4.
fn answer_tcp_ipv4(case: &mut Case) {
    let (source, destination) = (case.array(), case.array());
    match TcpHeader::from_slice(&case.bytes()) {
        Ok((header, payload)) => {
            write_shown(
                header.calc_checksum_ipv4_raw(source, destination, payload),
                case,
            )
        }
        Err(e) => write_shown(e, case),
    }
}

// The same of IPv6.
fn answer_tcp_ipv6(case: &mut Case) {
    let (source, destination) = (case.array(), case.array());
    match TcpHeader::from_slice(&case.bytes()) {
        Ok((header, payload)) => {
            write_shown(
                header.calc_checksum_ipv6_raw(source, destination, payload),
                case,
            )
        }
        Err(e) => write_shown(e, case),
    }
}

// The options of a TCP header, one after another, and what is left after them.
fn write_options(bytes: &[u8], answer: &mut Answer) {
    let mut options = TcpOptionsIterator::from_slice(bytes);
    for _ in 0..u64::MAX {
        match options.next() {
            Some(option) => answer.one(&option),
            None => break,
        }
    }
    answer.bytes("rest=", options.rest());
}

// `tcp.elements COUNT [OPTION]..`: options that are written.
fn answer_elements(case: &mut Case) {
    let mut elements = Vec::new(case.alloc);
    for _ in 0..case.number::<u8>() {
        let pushed = elements.push(case.read::<TcpOptionElement>());
        case.answer.note(&pushed);
    }
    write_shown(TcpOptions::try_from_elements(&elements), case);
}

/// The name of an option, and its numbers.
impl Argument for TcpOptionElement {
    fn read(case: &mut Case) -> TcpOptionElement {
        match case.word() {
            "noop" => TcpOptionElement::Noop,
            "mss" => TcpOptionElement::MaximumSegmentSize(case.number()),
            "scale" => TcpOptionElement::WindowScale(case.number()),
            "permitted" => TcpOptionElement::SelectiveAcknowledgementPermitted,
            "ack" => {
                let first = (case.number(), case.number());
                let others = [block(case), block(case), block(case)];
                TcpOptionElement::SelectiveAcknowledgement(first, others)
            }
            "timestamp" => TcpOptionElement::Timestamp(case.number(), case.number()),
            _ => {
                case.refuse();
                TcpOptionElement::Noop
            }
        }
    }
}

// Whether there is a block, and its two numbers.
fn block(case: &mut Case) -> Option<(u32, u32)> {
    if case.flag() {
        Some((case.number(), case.number()))
    } else {
        None
    }
}

impl Shown for UdpHeader {
    fn show(&self, answer: &mut Answer) {
        answer.put("source_port=", self.source_port);
        answer.put(" destination_port=", self.destination_port);
        answer.put(" length=", self.length);
        answer.put(" checksum=", self.checksum);
    }
}

impl Shown for Found<'_, UdpHeader> {
    fn show(&self, answer: &mut Answer) {
        self.0.show(answer);
        answer.rest_and_bytes(self.1, &self.0.to_bytes());
    }
}

impl Shown for Found<'_, TcpHeader> {
    fn show(&self, answer: &mut Answer) {
        let (header, rest) = self;
        answer.put("source_port=", header.source_port);
        answer.put(" destination_port=", header.destination_port);
        answer.put(" sequence_number=", header.sequence_number);
        answer.put(" acknowledgment_number=", header.acknowledgment_number);
        answer.put(" data_offset=", header.data_offset());
        answer.put(" window_size=", header.window_size);
        answer.put(" checksum=", header.checksum);
        answer.put(" urgent_pointer=", header.urgent_pointer);
        answer.put(" ns=", header.ns);
        answer.put(" cwr=", header.cwr);
        answer.put(" ece=", header.ece);
        answer.put(" urg=", header.urg);
        answer.put(" ack=", header.ack);
        answer.put(" psh=", header.psh);
        answer.put(" rst=", header.rst);
        answer.put(" syn=", header.syn);
        answer.put(" fin=", header.fin);
        answer.bytes(" options=", header.options.as_slice());
        answer.rest_and_bytes(rest, header.to_bytes().as_slice());
    }
}

impl Shown for TcpError {
    fn show(&self, answer: &mut Answer) {
        match self {
            TcpError::Len(e) => e.show(answer),
            TcpError::DataOffset(offset) => answer.put("err data_offset offset=", *offset),
        }
    }
}

impl Shown for TcpOptions {
    fn show(&self, answer: &mut Answer) {
        answer.bytes("", self.as_slice());
    }
}

impl Shown for TcpOptionElement {
    fn show(&self, answer: &mut Answer) {
        answer.debug("", self);
    }
}

impl PlainError for TcpOptionReadError {}

impl PlainError for TcpOptionWriteError {}
