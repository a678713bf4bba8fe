//! What the derived `==` and `clone` say, as the clause of one small function for each type. Nothing
//! calls them: they are there to be proved.

ghost use Rattle.std.specs.Prelude.{◌≡◌, ◌↔◌, IsTrue, Ok};

use crate::framing::Framing;
use crate::header::{Carried, Header};
use std::alloc::AllocError;

fn carried_equality(a: &Carried, b: &Carried) -> bool
    ensures same_value { IsTrue result ↔ (a.now ≡ b.now) }
{
    a == b
}

fn framing_equality(a: &Framing, b: &Framing) -> bool
    ensures same_value { IsTrue result ↔ (a.now ≡ b.now) }
{
    a == b
}

fn header_equality(a: &Header, b: &Header) -> bool
    ensures same_value { IsTrue result ↔ (a.now ≡ b.now) }
{
    a == b
}

// A clone is equal, and cloning never fails.
fn carried_clone(carried: &Carried) -> Result<Carried, AllocError>
    ensures same_value { result ≡ Ok carried.now }
{
    carried.clone()
}

fn framing_clone(framing: &Framing) -> Result<Framing, AllocError>
    ensures same_value { result ≡ Ok framing.now }
{
    framing.clone()
}

fn header_clone(header: &Header) -> Result<Header, AllocError>
    ensures same_value { result ≡ Ok header.now }
{
    header.clone()
}
