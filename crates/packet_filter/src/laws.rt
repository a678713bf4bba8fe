//! What follows from the definitions, and what the types derive, each as the clause of one small
//! function. Nothing calls them: they are there to be proved.

ghost use Rattle.std.specs.Prelude.{ℕ, ◌≡◌, ◌↔◌, IsTrue, List, Ok};
ghost use Rattle.packet_filter.specs.Language.{IsText};
ghost use Rattle.packet_filter.specs.Meaning.{Expression};

use crate::expected::Expected;
use crate::expression::{Operator, Version};
use crate::filter::Filter;
use crate::reading::FilterError;
use std::alloc::AllocError;

/// A text is one expression at most.
pub fn one_reading()
    ensures only { (text : List ℕ) (a b : Expression) → IsText text a → IsText text b → a ≡ b }
{}

fn filter_clone(filter: &Filter) -> Result<Filter, AllocError>
    ensures same_value { result ≡ Ok filter.now }
{
    filter.clone()
}

fn filter_error_equality(a: &FilterError, b: &FilterError) -> bool
    ensures same_value { IsTrue result ↔ (a.now ≡ b.now) }
{
    a == b
}

fn filter_error_clone(error: &FilterError) -> Result<FilterError, AllocError>
    ensures same_value { result ≡ Ok error.now }
{
    error.clone()
}

fn expected_clone(expected: &Expected) -> Result<Expected, AllocError>
    ensures same_value { result ≡ Ok expected.now }
{
    expected.clone()
}

fn operator_clone(operator: &Operator) -> Result<Operator, AllocError>
    ensures same_value { result ≡ Ok operator.now }
{
    operator.clone()
}

fn version_clone(version: &Version) -> Result<Version, AllocError>
    ensures same_value { result ≡ Ok version.now }
{
    version.clone()
}
