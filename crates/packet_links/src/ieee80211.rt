//! The MAC header of IEEE 802.11, and radiotap before it.

ghost use Rattle.std.specs.Prelude.{◌≡◌, ◌≤◌, length};
ghost use Rattle.packet_links.specs.Ieee80211.{addresses_end, controls_end, data_header};
ghost use Rattle.packet_links.specs.Ieee80211.{data_header_len, flags_place, ieee80211_header};
ghost use Rattle.packet_links.specs.Ieee80211.{has_padding, is_aggregate, is_fragment};
ghost use Rattle.packet_links.specs.Ieee80211.{present_len, radiotap_header, radiotap_len};

use crate::bytes::{byte_at, is_set};
use crate::header::{Carried, Header, llc_header};

// The header of LINKTYPE_IEEE802_11_RADIOTAP.
pub(crate) fn radiotap_header(frame: &[u8]) -> Header
    ensures value { result ≡ radiotap_header frame.now }
{
    let len = radiotap_len(frame);
    if frame.len() < 8 || len < 8 {
        return Header {
            len: 8,
            carried: Carried::Unknown,
        };
    }
    if frame.len() < len {
        return Header {
            len,
            carried: Carried::Unknown,
        };
    }
    let (radiotap, mac) = frame.split_at(len);
    let mac = ieee80211_header(has_padding(radiotap), mac);
    Header {
        len: len + mac.len,
        carried: mac.carried,
    }
}

// The length of radiotap, in bytes.
fn radiotap_len(frame: &[u8]) -> usize
    ensures value { result ≡ radiotap_len frame.now }
{
    usize::from(u16::from_le_bytes([byte_at(frame, 2), byte_at(frame, 3)]))
}

// Whether there is padding after the MAC header.
fn has_padding(radiotap: &[u8]) -> bool
    requires long { 4 ≤ length radiotap.now }
    ensures value { result ≡ has_padding radiotap.now }
{
    is_set(1, 4, radiotap) && is_set(5, flags_place(radiotap), radiotap)
}

// The place of the field Flags.
fn flags_place(radiotap: &[u8]) -> usize
    requires long { 4 ≤ length radiotap.now }
    ensures value { result ≡ flags_place radiotap.now }
{
    let place = 4 + present_len(&radiotap[4..]);
    if is_set(0, 4, radiotap) {
        (place + 7) / 8 * 8 + 8
    } else {
        place
    }
}

// The length of the words that say which fields there are, in bytes.
#[tactic(auto, using(crate::proofs::Radiotap::present_word, crate::proofs::Radiotap::no_word))]
fn present_len(words: &[u8]) -> usize
    ensures value { result ≡ present_len words.now }
    ensures within { result ≤ length words.now }
{
    let mut len = 0;
    'words: while len + 4 <= words.len() {
        len += 4;
        if !is_set(7, len - 1, words) {
            return len;
        }
    }
    len
}

// The header of LINKTYPE_IEEE802_11, after which padding can stand.
pub(crate) fn ieee80211_header(is_padded: bool, mac: &[u8]) -> Header
    ensures value { result ≡ ieee80211_header is_padded mac.now }
    ensures short { result.len ≤ 60 }
{
    let control = byte_at(mac, 0);
    let carried = match (control % 4, control / 4 % 4) {
        (0, 0) => Carried::Management,
        (0, 1) => Carried::Control,
        (0, 2) => return data_header(is_padded, mac),
        (0, 3) => Carried::Extension,
        _ => Carried::Unknown,
    };
    Header { len: 2, carried }
}

// The header of a data frame.
fn data_header(is_padded: bool, mac: &[u8]) -> Header
    ensures value { result ≡ data_header is_padded mac.now }
    ensures short { result.len ≤ 60 }
{
    if is_set(6, 0, mac) {
        return Header {
            len: controls_end(mac),
            carried: Carried::NoData,
        };
    }
    let len = data_header_len(is_padded, mac);
    let carried = if is_set(6, 1, mac) {
        Carried::Encrypted
    } else if mac.len() < len {
        Carried::Unknown
    } else if is_fragment(mac) {
        Carried::Fragment
    } else if is_aggregate(mac) {
        Carried::Aggregate
    } else {
        return llc_header(mac, len);
    };
    Header { len, carried }
}

// The length of the MAC header of a data frame, in bytes, with padding if there is some.
#[tactic(auto, unfolding(crate::specs::Ieee80211::data_header_len))]
fn data_header_len(is_padded: bool, mac: &[u8]) -> usize
    ensures value { result ≡ data_header_len is_padded mac.now }
    ensures short { result ≤ 36 }
{
    let len = controls_end(mac);
    if is_padded { (len + 3) / 4 * 4 } else { len }
}

// The place of what follows the control fields of a data frame.
#[tactic(auto, unfolding(crate::specs::Ieee80211::controls_end))]
fn controls_end(mac: &[u8]) -> usize
    ensures value { result ≡ controls_end mac.now }
    ensures short { result ≤ 36 }
{
    let controls = match (is_set(7, 0, mac), is_set(7, 1, mac)) {
        (false, _) => 0,
        (true, false) => 2,
        (true, true) => 6,
    };
    addresses_end(mac) + controls
}

// The place of what follows the addresses of a data frame.
fn addresses_end(mac: &[u8]) -> usize
    ensures value { result ≡ addresses_end mac.now }
    ensures short { result ≤ 30 }
{
    if is_set(0, 1, mac) && is_set(1, 1, mac) {
        30
    } else {
        24
    }
}

// Whether a data frame is a fragment.
#[tactic(auto, unfolding(crate::specs::Ieee80211::is_fragment))]
fn is_fragment(mac: &[u8]) -> bool
    ensures value { result ≡ is_fragment mac.now }
{
    is_set(2, 1, mac) || byte_at(mac, 22) % 16 != 0
}

// Whether a data frame has several packets in one.
#[tactic(auto, unfolding(crate::specs::Ieee80211::is_aggregate))]
fn is_aggregate(mac: &[u8]) -> bool
    ensures value { result ≡ is_aggregate mac.now }
{
    is_set(7, 0, mac) && is_set(7, addresses_end(mac), mac)
}
