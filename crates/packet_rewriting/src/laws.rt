//! What the derived `==` and `clone` say, as the clause of one small function for each type. Nothing
//! calls them: they are there to be proved.

ghost use Rattle.std.specs.Prelude.{◌≡◌, ◌↔◌, IsTrue, Ok};

use crate::checksum::ChecksumError;
use crate::fields::{Reach, RewriteError};
use std::alloc::AllocError;

fn checksum_error_equality(a: &ChecksumError, b: &ChecksumError) -> bool
    ensures same_value { IsTrue result ↔ (a.now ≡ b.now) }
{
    a == b
}

fn reach_equality(a: &Reach, b: &Reach) -> bool
    ensures same_value { IsTrue result ↔ (a.now ≡ b.now) }
{
    a == b
}

fn rewrite_error_equality(a: &RewriteError, b: &RewriteError) -> bool
    ensures same_value { IsTrue result ↔ (a.now ≡ b.now) }
{
    a == b
}

// A clone is equal, and cloning never fails.
fn checksum_error_clone(error: &ChecksumError) -> Result<ChecksumError, AllocError>
    ensures same_value { result ≡ Ok error.now }
{
    error.clone()
}

fn reach_clone(reach: &Reach) -> Result<Reach, AllocError>
    ensures same_value { result ≡ Ok reach.now }
{
    reach.clone()
}

fn rewrite_error_clone(error: &RewriteError) -> Result<RewriteError, AllocError>
    ensures same_value { result ≡ Ok error.now }
{
    error.clone()
}
