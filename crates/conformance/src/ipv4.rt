//! IPv4 headers and their views.

use crate::case::{Case, write_change, write_equality, write_shown};
use crate::shown::{Answer, Found, Shown};
use etherparse::{IpNumber, Ipv4Header, Ipv4HeaderSlice};

/// The cases `v4.NAME`.
pub fn answer(name: &str, case: &mut Case) {
    match name {
        "info" => write_info(&case.read(), &mut case.answer),
        "new" => answer_new(case),
        "eq" => write_equality(case.read::<Ipv4Header>() == case.read::<Ipv4Header>(), case),
        "set_payload_len" => {
            let payload_len: usize = case.number();
            let mut header: Ipv4Header = case.read();
            write_change(&header.set_payload_len(payload_len), &header, case);
        }
        "set_options" => {
            let options = case.bytes();
            let mut header: Ipv4Header = case.read();
            write_change(&header.set_options(&options), &header, case);
        }
        "set_ttl" => {
            let time_to_live = case.number();
            let mut header: Ipv4Header = case.read();
            header.set_time_to_live(time_to_live);
            case.answer.shown("ok ; ", &header);
        }
        _ => write_slice(name, &case.bytes(), case),
    }
}

// What is read at the front of some bytes.
fn write_slice(name: &str, bytes: &[u8], case: &mut Case) {
    match name {
        "view" => write_shown(Ipv4HeaderSlice::from_slice(bytes), case),
        "view_header" => write_view_header(bytes, case),
        "view_eq" => write_view_equality(bytes, &case.bytes(), case),
        "head" => write_shown(Ipv4Header::from_slice(bytes), case),
        "read" => write_shown(Ipv4Header::read_from_slice(bytes), case),
        _ => case.refuse(),
    }
}

// The header that a view makes.
fn write_view_header(bytes: &[u8], case: &mut Case) {
    match Ipv4HeaderSlice::from_slice(bytes) {
        Ok(view) => case.answer.shown("ok ", &view.to_header()),
        Err(e) => write_shown(e, case),
    }
}

// Whether the views of two slices are equal. If one has none, the case is a bad one.
fn write_view_equality(first: &[u8], second: &[u8], case: &mut Case) {
    match (
        Ipv4HeaderSlice::from_slice(first),
        Ipv4HeaderSlice::from_slice(second),
    ) {
        (Ok(first), Ok(second)) => write_equality(first == second, case),
        _ => case.refuse(),
    }
}

// What a header says about itself beyond its fields.
fn write_info(header: &Ipv4Header, answer: &mut Answer) {
    answer.put("ihl=", header.ihl());
    answer.put(" header_len=", header.header_len());
    answer.put(" max_payload_len=", header.max_payload_len());
    answer.put(" fragmenting=", header.is_fragmenting_payload());
    answer.put(" calc=", header.calc_header_checksum());
    answer.bytes(" options=", header.options());
    answer.bytes(" bytes=", header.to_bytes().as_slice());
    answer.shown(" payload_len=", &header.payload_len());
}

// A header for a payload.
fn answer_new(case: &mut Case) {
    let payload_len = case.number();
    let time_to_live = case.number();
    let protocol = IpNumber(case.number());
    let (source, destination) = (case.array(), case.array());
    let made = Ipv4Header::new(payload_len, time_to_live, protocol, source, destination);
    write_shown(made, case);
}

impl Shown for Ipv4Header {
    fn show(&self, answer: &mut Answer) {
        answer.put("dscp=", self.dscp.value());
        answer.put(" ecn=", self.ecn.value());
        answer.put(" total_len=", self.total_len);
        answer.put(" identification=", self.identification);
        answer.put(" dont_fragment=", self.dont_fragment);
        answer.put(" more_fragments=", self.more_fragments);
        answer.put(" fragment_offset=", self.fragment_offset.value());
        answer.put(" time_to_live=", self.time_to_live);
        answer.put(" protocol=", self.protocol.0);
        answer.put(" header_checksum=", self.header_checksum);
        answer.bytes(" source=", &self.source);
        answer.bytes(" destination=", &self.destination);
        answer.bytes(" options=", self.options());
    }
}

/// What the getters of a view return.
impl Shown for Ipv4HeaderSlice<'_> {
    fn show(&self, answer: &mut Answer) {
        answer.bytes("slice=", self.slice());
        answer.put(" version=", self.version());
        answer.put(" ihl=", self.ihl());
        answer.put(" dscp=", self.dcp().value());
        answer.put(" ecn=", self.ecn().value());
        answer.put(" total_len=", self.total_len());
        answer.put(" identification=", self.identification());
        answer.put(" dont_fragment=", self.dont_fragment());
        answer.put(" more_fragments=", self.more_fragments());
        answer.put(" fragment_offset=", self.fragments_offset().value());
        write_from_time_to_live(self, answer);
    }
}

fn write_from_time_to_live(view: &Ipv4HeaderSlice, answer: &mut Answer) {
    answer.put(" time_to_live=", view.ttl());
    answer.put(" protocol=", view.protocol().0);
    answer.put(" header_checksum=", view.header_checksum());
    answer.bytes(" source=", &view.source());
    answer.bytes(" destination=", &view.destination());
    answer.bytes(" options=", view.options());
    answer.put(" fragmenting=", view.is_fragmenting_payload());
    answer.shown(" payload_len=", &view.payload_len());
}

impl Shown for Found<'_, Ipv4Header> {
    fn show(&self, answer: &mut Answer) {
        self.0.show(answer);
        answer.rest_and_bytes(self.1, self.0.to_bytes().as_slice());
    }
}
