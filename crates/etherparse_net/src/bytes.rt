//! Bytes one after the other.

ghost use Rattle.std.specs.Prelude.{◌≡◌, ◌≤◌, ◌+◌, ◌++◌, drop, length};
ghost use Rattle.etherparse.specs.Bytes.{IsBytes};

use arrayvec::ArrayVec;

// The bytes of a front, and the bytes after it.
pub(crate) fn front_and_rest<const N: usize>(front: &[u8], rest: &[u8]) -> ArrayVec<u8, N>
    requires { length front.now + length rest.now ≤ N }
    ensures parts { result.items ≡ front.now ++ rest.now }
    ensures are_bytes { IsBytes (front.now ++ rest.now) }
{
    let mut bytes = ArrayVec::new();
    bytes.try_extend_from_slice(front).unwrap();
    bytes.try_extend_from_slice(rest).unwrap();
    bytes
}

// The same bytes: to a proof, the items of a slice that is passed here are bytes.
pub(crate) fn known_bytes(bytes: &[u8]) -> &[u8]
    ensures value { result.now ≡ bytes.now }
    ensures are_bytes { IsBytes result.now }
{
    bytes
}

// The bytes from a place on.
pub(crate) fn bytes_from(bytes: &[u8], place: usize) -> &[u8]
    requires { place ≤ length bytes.now }
    ensures value { result.now ≡ drop place bytes.now }
{
    &bytes[place..]
}
