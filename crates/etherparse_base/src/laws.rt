//! The laws of what the types derive, each as the clause of one small function. Nothing calls them:
//! they are there to be proved. A derive that skips a field, variants in another order, or a
//! hand-written impl that differs leaves its law unproved.
//!
//! Two values are equal exactly when their variants and all their fields are; two sums are equal
//! exactly when their numbers are. A value can always be cloned, and the clone is the value. Layers
//! and value types are ordered by their indices in `specs/`; that `<` and the like agree with `cmp`
//! is a law of std's `Ord`.

ghost use Rattle.std.specs.Prelude.{◌≡◌, ◌↔◌, IsTrue, Ok};
ghost use Rattle.std.specs.Ordering.{nat_cmp};
ghost use Rattle.etherparse_base.specs.Layer.{layer_index};
ghost use Rattle.etherparse_base.specs.ValueType.{value_type_index};
ghost use Rattle.etherparse_base.specs.declared.err.ipv6.chain_error.ChainError.TheVariants.{TooMany};

use crate::LenSource;
use crate::checksum::Sum16BitWords;
use crate::err::ip::IpDscpUnknownValueError;
use crate::err::ipv4::BadOptionsLen;
use crate::err::{Layer, LenError, SliceWriteSpaceError, ValueTooBigError, ValueType, ipv4, ipv6};
use std::alloc::AllocError;
use std::cmp::Ordering;

fn len_source_equality(a: &LenSource, b: &LenSource) -> bool
    ensures same_value { IsTrue result ↔ (a.now ≡ b.now) }
{
    a == b
}

fn layer_equality(a: &Layer, b: &Layer) -> bool
    ensures same_value { IsTrue result ↔ (a.now ≡ b.now) }
{
    a == b
}

fn value_type_equality(a: &ValueType, b: &ValueType) -> bool
    ensures same_value { IsTrue result ↔ (a.now ≡ b.now) }
{
    a == b
}

fn len_error_equality(a: &LenError, b: &LenError) -> bool
    ensures same_value { IsTrue result ↔ (a.now ≡ b.now) }
{
    a == b
}

fn slice_write_space_error_equality(a: &SliceWriteSpaceError, b: &SliceWriteSpaceError) -> bool
    ensures same_value { IsTrue result ↔ (a.now ≡ b.now) }
{
    a == b
}

fn value_too_big_error_u8_equality(a: &ValueTooBigError<u8>, b: &ValueTooBigError<u8>) -> bool
    ensures same_value { IsTrue result ↔ (a.now ≡ b.now) }
{
    a == b
}

fn value_too_big_error_u16_equality(a: &ValueTooBigError<u16>, b: &ValueTooBigError<u16>) -> bool
    ensures same_value { IsTrue result ↔ (a.now ≡ b.now) }
{
    a == b
}

fn value_too_big_error_u32_equality(a: &ValueTooBigError<u32>, b: &ValueTooBigError<u32>) -> bool
    ensures same_value { IsTrue result ↔ (a.now ≡ b.now) }
{
    a == b
}

fn value_too_big_error_usize_equality(
    a: &ValueTooBigError<usize>,
    b: &ValueTooBigError<usize>,
) -> bool
    ensures same_value { IsTrue result ↔ (a.now ≡ b.now) }
{
    a == b
}

fn ip_dscp_unknown_value_error_equality(
    a: &IpDscpUnknownValueError,
    b: &IpDscpUnknownValueError,
) -> bool
    ensures same_value { IsTrue result ↔ (a.now ≡ b.now) }
{
    a == b
}

fn bad_options_len_equality(a: &BadOptionsLen, b: &BadOptionsLen) -> bool
    ensures same_value { IsTrue result ↔ (a.now ≡ b.now) }
{
    a == b
}

fn ipv4_header_error_equality(a: &ipv4::HeaderError, b: &ipv4::HeaderError) -> bool
    ensures same_value { IsTrue result ↔ (a.now ≡ b.now) }
{
    a == b
}

fn ipv4_header_slice_error_equality(a: &ipv4::HeaderSliceError, b: &ipv4::HeaderSliceError) -> bool
    ensures same_value { IsTrue result ↔ (a.now ≡ b.now) }
{
    a == b
}

fn ipv6_header_error_equality(a: &ipv6::HeaderError, b: &ipv6::HeaderError) -> bool
    ensures same_value { IsTrue result ↔ (a.now ≡ b.now) }
{
    a == b
}

fn ipv6_header_slice_error_equality(a: &ipv6::HeaderSliceError, b: &ipv6::HeaderSliceError) -> bool
    ensures same_value { IsTrue result ↔ (a.now ≡ b.now) }
{
    a == b
}

fn chain_error_equality(a: &ipv6::ChainError, b: &ipv6::ChainError) -> bool
    ensures same_value { IsTrue result ↔ (a.now ≡ b.now) }
{
    a == b
}

fn sum_16bit_words_equality(a: &Sum16BitWords, b: &Sum16BitWords) -> bool
    ensures same_value { IsTrue result ↔ (a.now ≡ b.now) }
{
    a == b
}

fn len_source_clone(source: &LenSource) -> Result<LenSource, AllocError>
    ensures same_value { result ≡ Ok source.now }
{
    source.clone()
}

fn layer_clone(source: &Layer) -> Result<Layer, AllocError>
    ensures same_value { result ≡ Ok source.now }
{
    source.clone()
}

fn value_type_clone(source: &ValueType) -> Result<ValueType, AllocError>
    ensures same_value { result ≡ Ok source.now }
{
    source.clone()
}

fn len_error_clone(source: &LenError) -> Result<LenError, AllocError>
    ensures same_value { result ≡ Ok source.now }
{
    source.clone()
}

fn slice_write_space_error_clone(
    source: &SliceWriteSpaceError,
) -> Result<SliceWriteSpaceError, AllocError>
    ensures same_value { result ≡ Ok source.now }
{
    source.clone()
}

fn value_too_big_error_u8_clone(
    source: &ValueTooBigError<u8>,
) -> Result<ValueTooBigError<u8>, AllocError>
    ensures same_value { result ≡ Ok source.now }
{
    source.clone()
}

fn value_too_big_error_u16_clone(
    source: &ValueTooBigError<u16>,
) -> Result<ValueTooBigError<u16>, AllocError>
    ensures same_value { result ≡ Ok source.now }
{
    source.clone()
}

fn value_too_big_error_u32_clone(
    source: &ValueTooBigError<u32>,
) -> Result<ValueTooBigError<u32>, AllocError>
    ensures same_value { result ≡ Ok source.now }
{
    source.clone()
}

fn value_too_big_error_usize_clone(
    source: &ValueTooBigError<usize>,
) -> Result<ValueTooBigError<usize>, AllocError>
    ensures same_value { result ≡ Ok source.now }
{
    source.clone()
}

fn ip_dscp_unknown_value_error_clone(
    source: &IpDscpUnknownValueError,
) -> Result<IpDscpUnknownValueError, AllocError>
    ensures same_value { result ≡ Ok source.now }
{
    source.clone()
}

fn bad_options_len_clone(source: &BadOptionsLen) -> Result<BadOptionsLen, AllocError>
    ensures same_value { result ≡ Ok source.now }
{
    source.clone()
}

fn ipv4_header_error_clone(source: &ipv4::HeaderError) -> Result<ipv4::HeaderError, AllocError>
    ensures same_value { result ≡ Ok source.now }
{
    source.clone()
}

fn ipv4_header_slice_error_clone(
    source: &ipv4::HeaderSliceError,
) -> Result<ipv4::HeaderSliceError, AllocError>
    ensures same_value { result ≡ Ok source.now }
{
    source.clone()
}

fn ipv6_header_error_clone(source: &ipv6::HeaderError) -> Result<ipv6::HeaderError, AllocError>
    ensures same_value { result ≡ Ok source.now }
{
    source.clone()
}

fn ipv6_header_slice_error_clone(
    source: &ipv6::HeaderSliceError,
) -> Result<ipv6::HeaderSliceError, AllocError>
    ensures same_value { result ≡ Ok source.now }
{
    source.clone()
}

fn chain_error_clone(source: &ipv6::ChainError) -> Result<ipv6::ChainError, AllocError>
    ensures same_value { result ≡ Ok source.now }
{
    source.clone()
}

fn sum_16bit_words_clone(source: &Sum16BitWords) -> Result<Sum16BitWords, AllocError>
    ensures same_value { result ≡ Ok source.now }
{
    source.clone()
}

fn layer_order(a: &Layer, b: &Layer) -> Ordering
    ensures by_index { result ≡ nat_cmp (layer_index a.now) (layer_index b.now) }
{
    a.cmp(b)
}

fn value_type_order(a: &ValueType, b: &ValueType) -> Ordering
    ensures by_index { result ≡ nat_cmp (value_type_index a.now) (value_type_index b.now) }
{
    a.cmp(b)
}

// The fields of a variant, by their names, are those of the definitions in their order.
fn too_many_fields(limit: usize, next_header: u8, layer_start_offset: usize) -> ipv6::ChainError
    ensures by_name { result ≡ TooMany limit next_header layer_start_offset }
{
    ipv6::ChainError::TooMany {
        limit,
        next_header,
        layer_start_offset,
    }
}
