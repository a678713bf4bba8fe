//! Numbers and flags in the bytes of a frame.

ghost use Rattle.std.specs.Prelude.{◌≡◌, ◌+◌, ◌<◌, ◌^◌, slice_index};
ghost use Rattle.packet_links.specs.Bytes.{has, is_set, number_at};

// The byte at a place; 0 after the end.
pub(crate) fn byte_at(frame: &[u8], place: usize) -> u8
    ensures value { result ≡ slice_index frame.now place }
{
    if place < frame.len() { frame[place] } else { 0 }
}

// Two bytes at a place as a number, the high byte first.
pub(crate) fn number_at(frame: &[u8], place: usize) -> u16
    requires fits { place < 2 ^ 32 }
    ensures value { result ≡ number_at place frame.now }
{
    u16::from_be_bytes([byte_at(frame, place), byte_at(frame, place + 1)])
}

// Whether a byte has a value.
pub(crate) fn has(value: u8, place: usize, frame: &[u8]) -> bool
    ensures value { result ≡ has value place frame.now }
{
    byte_at(frame, place) == value
}

// Whether a bit of a byte is set.
#[tactic(auto, unfolding(crate::specs::Bytes::is_set))]
pub(crate) fn is_set(bit: u32, place: usize, frame: &[u8]) -> bool
    requires bit { bit < 8 }
    ensures value { result ≡ is_set bit place frame.now }
{
    byte_at(frame, place) >> bit & 1 == 1
}
