//! The text of an error of rewriting.

ghost use Rattle.std.specs.Prelude.{◌≡◌, ◌≤◌, length};
ghost use Rattle.c_answers.specs.Text.{GivesText};
ghost use Rattle.c_answers.specs.RewritingText.{kind_text};

use crate::rewriting::{
    EMPTY, EXTENSIONS, INCOMPLETE, IPV4_HEADER, IPV6_HEADER, LATER_FRAGMENT, OTHER_PROTOCOL,
    OTHER_VERSION, PACKET, TOO_LONG, UNEXPECTED_VERSION, VALUE_TOO_BIG,
};
use crate::text::put;

/// Writes the text of the error of this number to the front of a buffer, as much of it as there is
/// room for, and a byte 0 after it; returns how many bytes the whole text has, without that 0. A
/// number that no error has has the empty text.
pub fn put_rewriting_error(error: u32, text: &mut [u8]) -> usize
    ensures gives { GivesText (kind_text error) text.old text.new result }
{
    put(&[message(error)], text)
}

// The text of the error of a number.
fn message(error: u32) -> &'static str
    ensures value { result.now ≡ kind_text error }
    ensures short { length result.now ≤ 100 }
{
    match error {
        EMPTY => "The packet has no bytes.",
        UNEXPECTED_VERSION => "The IP version is neither 4 nor 6.",
        IPV4_HEADER => "The packet has no whole IPv4 header.",
        IPV6_HEADER => "The packet has no whole IPv6 header.",
        PACKET => "The length field of the IP header does not fit the packet.",
        EXTENSIONS => "The packet ends within an IPv6 extension header.",
        OTHER_VERSION => "The packet has the other IP version.",
        INCOMPLETE => "Not all bytes of the upper layer that are needed are there.",
        LATER_FRAGMENT => "The packet is a later fragment, which has no ports.",
        OTHER_PROTOCOL => "The protocol has no checksum or ports that are known here.",
        TOO_LONG => "The pseudo-header has no room for the length.",
        VALUE_TOO_BIG => "The value does not fit its field.",
        _ => "",
    }
}
