//! What the derived `==` and `clone` say, each as the clause of a small function. Nothing calls them:
//! they are there to be proved.

ghost use Rattle.std.specs.Prelude.{◌≡◌, ◌↔◌, IsTrue, Ok};

use crate::datagrams::Datagrams;
use std::alloc::AllocError;

fn datagrams_equality(a: &Datagrams, b: &Datagrams) -> bool
    ensures same_value { IsTrue result ↔ (a.now ≡ b.now) }
{
    a == b
}

// A clone is equal, and cloning never fails.
fn datagrams_clone(datagrams: &Datagrams) -> Result<Datagrams, AllocError>
    ensures same_value { result ≡ Ok datagrams.now }
{
    datagrams.clone()
}
