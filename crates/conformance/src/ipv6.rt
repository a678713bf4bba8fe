//! IPv6 headers and their views.

use crate::case::{Case, write_change, write_equality, write_shown};
use crate::shown::{Answer, Found, Shown};
use etherparse::{Ipv6Header, Ipv6HeaderSlice};

/// The cases `v6.NAME`.
pub fn answer(name: &str, case: &mut Case) {
    match name {
        "info" => write_info(&case.read(), &mut case.answer),
        "eq" => write_equality(case.read::<Ipv6Header>() == case.read::<Ipv6Header>(), case),
        "set_payload_length" => {
            let size: usize = case.number();
            let mut header: Ipv6Header = case.read();
            write_change(&header.set_payload_length(size), &header, case);
        }
        "set_ecn" => {
            let ecn = case.field::<u8, _>();
            let mut header: Ipv6Header = case.read();
            header.set_ecn(ecn);
            case.answer.shown("ok ; ", &header);
        }
        "set_dscp" => {
            let dscp = case.field::<u8, _>();
            let mut header: Ipv6Header = case.read();
            header.set_dscp(dscp);
            case.answer.shown("ok ; ", &header);
        }
        _ => write_slice(name, &case.bytes(), case),
    }
}

// What is read at the front of some bytes.
fn write_slice(name: &str, bytes: &[u8], case: &mut Case) {
    match name {
        "view" => write_shown(Ipv6HeaderSlice::from_slice(bytes), case),
        "view_header" => write_view_header(bytes, case),
        "view_eq" => write_view_equality(bytes, &case.bytes(), case),
        "head" => write_shown(Ipv6Header::from_slice(bytes), case),
        "read" => write_shown(Ipv6Header::read_from_slice(bytes), case),
        _ => case.refuse(),
    }
}

// The header that a view makes.
fn write_view_header(bytes: &[u8], case: &mut Case) {
    match Ipv6HeaderSlice::from_slice(bytes) {
        Ok(view) => case.answer.shown("ok ", &view.to_header()),
        Err(e) => write_shown(e, case),
    }
}

// Whether the views of two slices are equal. If one has none, the case is a bad one.
fn write_view_equality(first: &[u8], second: &[u8], case: &mut Case) {
    match (
        Ipv6HeaderSlice::from_slice(first),
        Ipv6HeaderSlice::from_slice(second),
    ) {
        (Ok(first), Ok(second)) => write_equality(first == second, case),
        _ => case.refuse(),
    }
}

// What a header says about itself beyond its fields, and its bytes.
fn write_info(header: &Ipv6Header, answer: &mut Answer) {
    answer.put("dscp=", header.dscp());
    answer.put(" ecn=", header.ecn());
    answer.put(" header_len=", header.header_len());
    answer.bytes(" bytes=", &header.to_bytes());
}

impl Shown for Ipv6Header {
    fn show(&self, answer: &mut Answer) {
        answer.put("traffic_class=", self.traffic_class);
        answer.put(" flow_label=", self.flow_label.value());
        answer.put(" payload_length=", self.payload_length);
        answer.put(" next_header=", self.next_header.0);
        answer.put(" hop_limit=", self.hop_limit);
        answer.bytes(" source=", &self.source);
        answer.bytes(" destination=", &self.destination);
    }
}

/// What the getters of a view return.
impl Shown for Ipv6HeaderSlice<'_> {
    fn show(&self, answer: &mut Answer) {
        answer.bytes("slice=", self.slice());
        answer.put(" version=", self.version());
        answer.put(" traffic_class=", self.traffic_class());
        answer.put(" dscp=", self.dscp().value());
        answer.put(" ecn=", self.ecn().value());
        answer.put(" flow_label=", self.flow_label().value());
        answer.put(" payload_length=", self.payload_length());
        answer.put(" next_header=", self.next_header().0);
        answer.put(" hop_limit=", self.hop_limit());
        answer.bytes(" source=", &self.source());
        answer.bytes(" destination=", &self.destination());
        answer.put(" header_len=", self.header_len());
    }
}

impl Shown for Found<'_, Ipv6Header> {
    fn show(&self, answer: &mut Answer) {
        self.0.show(answer);
        answer.rest_and_bytes(self.1, &self.0.to_bytes());
    }
}
