//! The options of an IPv4 header.

use crate::case::{Case, write_shown};
use crate::comparison;
use crate::shown::{Answer, Shown};
use etherparse::Ipv4Options;

/// `opt B` and the cases `opt.NAME`.
pub fn answer(name: &str, case: &mut Case) {
    match name {
        "" => write_shown(Ipv4Options::try_from(case.bytes().as_slice()), case),
        "arr" => match from_array(&case.bytes()) {
            Some(options) => case.answer.shown("ok ", &options),
            None => case.refuse(),
        },
        "set" => answer_set(case),
        "cmp" => comparison::answer("opt", case),
        _ => case.refuse(),
    }
}

// Options with one byte written.
fn answer_set(case: &mut Case) {
    let mut options: Ipv4Options = case.read();
    let index: usize = case.number();
    let value: u8 = case.number();
    match options.as_mut_slice().get_mut(index) {
        Some(byte) => *byte = value,
        None => case.refuse(),
    }
    case.answer.shown("ok ", &options);
}

// The options of an array as long as these bytes, for the lengths that have a conversion.
fn from_array(bytes: &[u8]) -> Option<Ipv4Options> {
    let options = match bytes.len() {
        0 => Ipv4Options::from(front::<0>(bytes)),
        4 => Ipv4Options::from(front::<4>(bytes)),
        8 => Ipv4Options::from(front::<8>(bytes)),
        12 => Ipv4Options::from(front::<12>(bytes)),
        16 => Ipv4Options::from(front::<16>(bytes)),
        20 => Ipv4Options::from(front::<20>(bytes)),
        24 => Ipv4Options::from(front::<24>(bytes)),
        28 => Ipv4Options::from(front::<28>(bytes)),
        32 => Ipv4Options::from(front::<32>(bytes)),
        36 => Ipv4Options::from(front::<36>(bytes)),
        40 => Ipv4Options::from(front::<40>(bytes)),
        _ => return None,
    };
    Some(options)
}

// The first `N` bytes of a slice that has that many.
fn front<const N: usize>(bytes: &[u8]) -> [u8; N] {
    match bytes.first_chunk::<N>() {
        Some(front) => *front,
        None => [0; N],
    }
}

impl Shown for Ipv4Options {
    fn show(&self, answer: &mut Answer) {
        answer.put("len=", self.len());
        answer.put(" len_u8=", self.len_u8());
        answer.put(" empty=", self.is_empty());
        answer.bytes(" slice=", self.as_slice());
    }
}
