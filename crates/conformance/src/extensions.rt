//! Extension headers and options of IP, by `etherparse_net`.

use crate::case::{Case, write_shown};
use crate::shown::{Answer, Found, PlainError, Shown, made};
use arrayvec::ArrayVec;
use etherparse::IpNumber;
use etherparse_net::err::{
    ExtPayloadLenError, IcvLenError, IncompleteOption, Ipv4OptionError, OptionWriteError, ip_auth,
};
use etherparse_net::{
    IpAuthHeader, IpAuthHeaderSlice, Ipv4OptionSlice, Ipv4OptionsIterator, Ipv6ExtensionSlice,
    Ipv6ExtensionSliceIter, Ipv6FragmentHeader, Ipv6OptionSlice, Ipv6OptionsIterator,
    Ipv6RawExtHeader, Ipv6RawExtHeaderSlice, append_ipv6_option,
};

/// The cases `ext.NAME`.
pub fn answer(name: &str, case: &mut Case) {
    match name {
        "auth_new" => answer_auth_new(case),
        "raw_new" => answer_raw_new(case),
        "append" => answer_append(case),
        "chain" => answer_chain(case),
        _ => write_slice(name, &case.bytes(), case),
    }
}

// A header at the front of a slice, or the options that a slice has.
fn write_slice(name: &str, bytes: &[u8], case: &mut Case) {
    match name {
        "auth" => write_shown(IpAuthHeader::from_slice(bytes), case),
        "fragment" => write_shown(Ipv6FragmentHeader::from_slice(bytes), case),
        "raw" => write_shown(Ipv6RawExtHeader::from_slice(bytes), case),
        "options4" => write_ipv4_options(bytes, &mut case.answer),
        "options6" => write_ipv6_options(bytes, &mut case.answer),
        _ => case.refuse(),
    }
}

// An authentication header of some fields.
fn answer_auth_new(case: &mut Case) {
    let next_header = IpNumber(case.number());
    let (spi, sequence_number) = (case.number(), case.number());
    let header = IpAuthHeader::new(next_header, spi, sequence_number, &case.bytes());
    write_shown(made(header), case);
}

// An extension header of some bytes.
fn answer_raw_new(case: &mut Case) {
    let next_header = IpNumber(case.number());
    let header = Ipv6RawExtHeader::new_raw(next_header, &case.bytes());
    write_shown(made(header), case);
}

// The options of an IPv4 header, one after another, where they end, and how many there are.
fn write_ipv4_options(bytes: &[u8], answer: &mut Answer) {
    let mut options = Ipv4OptionsIterator::new(bytes);
    for _ in 0..u64::MAX {
        match options.next_option() {
            Some(option) => answer.one(&option),
            None => break,
        }
    }
    answer.put("offset=", options.offset);
    answer.shown(" count=", &Ipv4OptionsIterator::count_of(bytes));
}

// The same of an IPv6 header with options.
fn write_ipv6_options(bytes: &[u8], answer: &mut Answer) {
    let mut options = Ipv6OptionsIterator::new(bytes);
    for _ in 0..u64::MAX {
        match options.next_option() {
            Some(option) => answer.one(&option),
            None => break,
        }
    }
    answer.put("offset=", options.offset);
    answer.shown(" count=", &Ipv6OptionsIterator::count_of(bytes));
}

// Options that are appended where there is room for 62 bytes, and the bytes afterwards.
fn answer_append(case: &mut Case) {
    let mut options: ArrayVec<u8, 62> = ArrayVec::new();
    for _ in 0..case.number::<u8>() {
        let option_type = case.number();
        match append_ipv6_option(&mut options, option_type, &case.bytes()) {
            Ok(()) => case.answer.words("ok ; "),
            Err(e) => case.answer.one(&e),
        }
    }
    case.answer.bytes("", options.as_slice());
}

// The extension headers at the front of some bytes, one after another, and what follows them.
fn answer_chain(case: &mut Case) {
    let first = IpNumber(case.number());
    let bytes = case.bytes();
    let mut headers = Ipv6ExtensionSliceIter::new(first, &bytes);
    for _ in 0..u64::MAX {
        match headers.next_slice() {
            Some(header) => case.answer.one(&header),
            None => break,
        }
    }
    case.answer.put("next_header=", headers.next_header.0);
    case.answer.bytes(" rest=", headers.rest);
    case.answer.put(" offset=", headers.offset);
}

impl Shown for Found<'_, IpAuthHeader> {
    fn show(&self, answer: &mut Answer) {
        let (header, rest) = self;
        answer.put("next_header=", header.next_header.0);
        answer.put(" spi=", header.spi);
        answer.put(" sequence_number=", header.sequence_number);
        answer.bytes(" icv=", header.raw_icv());
        answer.rest_and_bytes(rest, header.to_bytes().as_slice());
    }
}

/// What the getters of a view return.
impl Shown for IpAuthHeaderSlice<'_> {
    fn show(&self, answer: &mut Answer) {
        answer.put("next_header=", self.next_header().0);
        answer.put(" spi=", self.spi());
        answer.put(" sequence_number=", self.sequence_number());
        answer.bytes(" icv=", self.raw_icv());
    }
}

impl Shown for ip_auth::HeaderSliceError {
    fn show(&self, answer: &mut Answer) {
        match self {
            ip_auth::HeaderSliceError::Len(e) => e.show(answer),
            ip_auth::HeaderSliceError::Content(e) => answer.debug("err ", e),
        }
    }
}

impl Shown for Ipv6FragmentHeader {
    fn show(&self, answer: &mut Answer) {
        answer.put("next_header=", self.next_header.0);
        answer.put(" fragment_offset=", self.fragment_offset.value());
        answer.put(" more_fragments=", self.more_fragments);
        answer.put(" identification=", self.identification);
    }
}

impl Shown for Found<'_, Ipv6FragmentHeader> {
    fn show(&self, answer: &mut Answer) {
        self.0.show(answer);
        answer.rest_and_bytes(self.1, &self.0.to_bytes());
    }
}

impl Shown for Found<'_, Ipv6RawExtHeader> {
    fn show(&self, answer: &mut Answer) {
        let (header, rest) = self;
        answer.put("next_header=", header.next_header.0);
        answer.bytes(" payload=", header.payload());
        answer.rest_and_bytes(rest, header.to_bytes().as_slice());
    }
}

/// What the getters of a view return.
impl Shown for Ipv6RawExtHeaderSlice<'_> {
    fn show(&self, answer: &mut Answer) {
        answer.put("next_header=", self.next_header().0);
        answer.bytes(" payload=", self.payload());
    }
}

/// The kind of an extension header, and its fields.
impl Shown for Ipv6ExtensionSlice<'_> {
    fn show(&self, answer: &mut Answer) {
        match self {
            Ipv6ExtensionSlice::HopByHop(view) => answer.shown("hop_by_hop ", view),
            Ipv6ExtensionSlice::Routing(view) => answer.shown("routing ", view),
            Ipv6ExtensionSlice::Fragment(view) => answer.shown("fragment ", &view.to_header()),
            Ipv6ExtensionSlice::Authentication(view) => answer.shown("authentication ", view),
            Ipv6ExtensionSlice::DestinationOptions(view) => {
                answer.shown("destination_options ", view)
            }
            Ipv6ExtensionSlice::Other(number, view) => {
                answer.put("other number=", number.0);
                answer.shown(" ", view);
            }
        }
    }
}

impl Shown for Ipv4OptionSlice<'_> {
    fn show(&self, answer: &mut Answer) {
        answer.put("type=", self.option_type());
        answer.put(" class=", self.class());
        answer.put(" number=", self.number());
        answer.put(" copied=", self.is_copied());
        answer.bytes(" data=", self.data());
    }
}

impl Shown for Ipv6OptionSlice<'_> {
    fn show(&self, answer: &mut Answer) {
        answer.put("type=", self.option_type());
        answer.debug(" action=", &self.unknown_action());
        answer.put(" may_change=", self.may_change());
        answer.put(" padding=", self.is_padding());
        answer.bytes(" data=", self.data());
    }
}

impl PlainError for Ipv4OptionError {}

impl PlainError for IncompleteOption {}

impl PlainError for OptionWriteError {}

impl PlainError for IcvLenError {}

impl PlainError for ExtPayloadLenError {}
