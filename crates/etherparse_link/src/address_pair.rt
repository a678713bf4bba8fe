//! Two addresses of an ARP packet that have one length.

ghost use Rattle.std.specs.Prelude.{◌≡◌, ◌≤◌, length};
ghost use Rattle.etherparse.specs.Bytes.{IsBytes};

use arrayvec::ArrayVec;
use std::marker::Model;

// The address of the sender and that of the target, of one length, 0 to 255 bytes.
#[derive(Clone, Debug, PartialEq, Eq, Drop)]
pub(crate) struct AddressPair {
    sender: ArrayVec<u8, 255>,
    target: ArrayVec<u8, 255>,
}

/// A contract sees the two lists of bytes.
impl Model for AddressPair {
    ghost use Rattle.etherparse_link.specs.AddressPair.{Addresses, IsAddressPair};

    ghost Value = { Addresses };

    ghost view = { λ pair. record { sender = pair.sender.items; target = pair.target.items } };

    ghost invariant = { λ pair. IsAddressPair pair.sender.items pair.target.items };

    ghost inverse = { λ pair. record {
      sender = record { items = pair.sender };
      target = record { items = pair.target };
    } };
}

impl AddressPair {
    ghost use Rattle.std.specs.Prelude.{◌≡◌, length};
    ghost use Rattle.etherparse_link.specs.AddressPair.{HaveOneLength, IsAddressPair};

    // The pair of these two.
    pub(crate) fn new(sender: &[u8], target: &[u8]) -> AddressPair
        requires { HaveOneLength sender.now target.now }
        ensures value { result ≡ record { sender = sender.now; target = target.now } }
    {
        AddressPair {
            sender: stored(sender),
            target: stored(target),
        }
    }

    // The length of each, in bytes.
    pub(crate) fn len(&self) -> u8
        ensures value { result ≡ length self.now.sender }
    {
        self.sender.len() as u8
    }

    // The address of the sender.
    pub(crate) fn sender(&self) -> &[u8]
        ensures value { result.now ≡ self.now.sender }
        ensures pair { IsAddressPair self.now.sender self.now.target }
    {
        self.sender.as_slice()
    }

    // The address of the target.
    pub(crate) fn target(&self) -> &[u8]
        ensures value { result.now ≡ self.now.target }
        ensures pair { IsAddressPair self.now.sender self.now.target }
    {
        self.target.as_slice()
    }
}

// An address as a pair holds it.
fn stored(address: &[u8]) -> ArrayVec<u8, 255>
    requires { length address.now ≤ 255 }
    ensures items { result.items ≡ address.now }
    ensures are_bytes { IsBytes address.now }
{
    let mut stored = ArrayVec::new();
    stored.try_extend_from_slice(address).unwrap();
    stored
}
