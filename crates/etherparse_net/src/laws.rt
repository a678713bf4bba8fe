//! What the derived `==`, `clone` and `hash` say, each as the clause of one small function.
//! Nothing calls them: they are there to be proved.

ghost use Rattle.std.specs.Prelude.{◌≡◌, ◌↔◌, ◌++◌, IfOk, IsOk, IsTrue, Ok, fold};
ghost use Rattle.std.specs.Hash as fed;
ghost use Rattle.etherparse_net.specs.declared.err.ipv4_option_error.Ipv4OptionError.TheVariants as v4;
ghost use Rattle.etherparse_net.specs.HeaderErrors.{ext_payload_len_error_writes};
ghost use Rattle.etherparse_net.specs.HeaderErrors.{icv_len_error_writes};
ghost use Rattle.etherparse_net.specs.Ipv6Extensions.{extension_parts};
ghost use Rattle.etherparse_net.specs.OptionErrors.{incomplete_option_writes};
ghost use Rattle.etherparse_net.specs.OptionErrors.{ipv4_option_error_writes};
ghost use Rattle.etherparse_net.specs.OptionErrors.{option_write_error_writes};

use crate::err::ip_auth::{HeaderError, HeaderSliceError};
use crate::err::{
    ExtPayloadLenError, IcvLenError, IncompleteOption, Ipv4OptionError, OptionWriteError,
};
use crate::{
    IpAuthHeader, IpAuthHeaderSlice, Ipv4OptionSlice, Ipv4OptionsIterator, Ipv6ExtensionSlice,
    Ipv6ExtensionSliceIter, Ipv6FragmentHeader, Ipv6FragmentHeaderSlice, Ipv6OptionAction,
    Ipv6OptionSlice, Ipv6OptionsIterator, Ipv6RawExtHeader, Ipv6RawExtHeaderSlice,
};
use std::alloc::AllocError;
use std::hash::{Hash, Hasher};

fn ipv6_fragment_header_equality(a: &Ipv6FragmentHeader, b: &Ipv6FragmentHeader) -> bool
    ensures same_value { IsTrue result ↔ (a.now ≡ b.now) }
{
    a == b
}

fn ipv6_fragment_header_copy(header: &Ipv6FragmentHeader) -> Result<Ipv6FragmentHeader, AllocError>
    ensures same_value { result ≡ Ok header.now }
{
    header.clone()
}

fn ipv6_raw_ext_header_equality(a: &Ipv6RawExtHeader, b: &Ipv6RawExtHeader) -> bool
    ensures same_value { IsTrue result ↔ (a.now ≡ b.now) }
{
    a == b
}

fn ipv6_raw_ext_header_copy(header: &Ipv6RawExtHeader) -> Result<Ipv6RawExtHeader, AllocError>
    ensures same_value { result ≡ Ok header.now }
{
    header.clone()
}

fn ip_auth_header_equality(a: &IpAuthHeader, b: &IpAuthHeader) -> bool
    ensures same_value { IsTrue result ↔ (a.now ≡ b.now) }
{
    a == b
}

fn ip_auth_header_copy(header: &IpAuthHeader) -> Result<IpAuthHeader, AllocError>
    ensures same_value { result ≡ Ok header.now }
{
    header.clone()
}

fn ipv6_option_action_equality(a: &Ipv6OptionAction, b: &Ipv6OptionAction) -> bool
    ensures same_value { IsTrue result ↔ (a.now ≡ b.now) }
{
    a == b
}

fn ipv6_option_action_copy(action: &Ipv6OptionAction) -> Result<Ipv6OptionAction, AllocError>
    ensures same_value { result ≡ Ok action.now }
{
    action.clone()
}

// Views are equal if they show the same bytes.
fn ipv6_fragment_view_equality(a: &Ipv6FragmentHeaderSlice, b: &Ipv6FragmentHeaderSlice) -> bool
    ensures same_bytes { IsTrue result ↔ (a.now.slice.now ≡ b.now.slice.now) }
{
    a == b
}

fn ipv6_raw_ext_view_equality(a: &Ipv6RawExtHeaderSlice, b: &Ipv6RawExtHeaderSlice) -> bool
    ensures same_bytes { IsTrue result ↔ (a.now.slice.now ≡ b.now.slice.now) }
{
    a == b
}

fn ip_auth_view_equality(a: &IpAuthHeaderSlice, b: &IpAuthHeaderSlice) -> bool
    ensures same_bytes { IsTrue result ↔ (a.now.slice.now ≡ b.now.slice.now) }
{
    a == b
}

fn ipv4_option_equality(a: &Ipv4OptionSlice, b: &Ipv4OptionSlice) -> bool
    ensures same_bytes { IsTrue result ↔ (a.now.slice.now ≡ b.now.slice.now) }
{
    a == b
}

fn ipv6_option_equality(a: &Ipv6OptionSlice, b: &Ipv6OptionSlice) -> bool
    ensures same_bytes { IsTrue result ↔ (a.now.slice.now ≡ b.now.slice.now) }
{
    a == b
}

// Those of any extension header also have to be of one kind.
fn ipv6_extension_equality(a: &Ipv6ExtensionSlice, b: &Ipv6ExtensionSlice) -> bool
    ensures same_parts { IsTrue result ↔ (extension_parts a.now ≡ extension_parts b.now) }
{
    a == b
}

// Iterators are equal if they are at one place in the same bytes.
fn ipv4_options_iterator_equality(a: &Ipv4OptionsIterator, b: &Ipv4OptionsIterator) -> bool
    ensures same_place { IsTrue result ↔
        (a.now.options.now ≡ b.now.options.now) × (a.now.offset ≡ b.now.offset) }
{
    a == b
}

fn ipv6_options_iterator_equality(a: &Ipv6OptionsIterator, b: &Ipv6OptionsIterator) -> bool
    ensures same_place { IsTrue result ↔
        (a.now.options.now ≡ b.now.options.now) × (a.now.offset ≡ b.now.offset) }
{
    a == b
}

fn ipv6_extension_iterator_equality(a: &Ipv6ExtensionSliceIter, b: &Ipv6ExtensionSliceIter) -> bool
    ensures same_place { IsTrue result ↔ (a.now.next_header ≡ b.now.next_header)
        × (a.now.rest.now ≡ b.now.rest.now) × (a.now.offset ≡ b.now.offset) }
{
    a == b
}

// The clone of a view shows the same bytes.
fn ipv6_fragment_view_copy<'a>(
    view: &Ipv6FragmentHeaderSlice<'a>,
) -> Result<Ipv6FragmentHeaderSlice<'a>, AllocError>
    ensures same_bytes { IfOk result (λ copy. copy.slice.now ≡ view.now.slice.now) }
    ensures never_fails { IsOk result }
{
    view.clone()
}

fn ipv6_raw_ext_view_copy<'a>(
    view: &Ipv6RawExtHeaderSlice<'a>,
) -> Result<Ipv6RawExtHeaderSlice<'a>, AllocError>
    ensures same_bytes { IfOk result (λ copy. copy.slice.now ≡ view.now.slice.now) }
    ensures never_fails { IsOk result }
{
    view.clone()
}

fn ip_auth_view_copy<'a>(view: &IpAuthHeaderSlice<'a>) -> Result<IpAuthHeaderSlice<'a>, AllocError>
    ensures same_bytes { IfOk result (λ copy. copy.slice.now ≡ view.now.slice.now) }
    ensures never_fails { IsOk result }
{
    view.clone()
}

fn ipv4_option_copy<'a>(view: &Ipv4OptionSlice<'a>) -> Result<Ipv4OptionSlice<'a>, AllocError>
    ensures same_bytes { IfOk result (λ copy. copy.slice.now ≡ view.now.slice.now) }
    ensures never_fails { IsOk result }
{
    view.clone()
}

fn ipv6_option_copy<'a>(view: &Ipv6OptionSlice<'a>) -> Result<Ipv6OptionSlice<'a>, AllocError>
    ensures same_bytes { IfOk result (λ copy. copy.slice.now ≡ view.now.slice.now) }
    ensures never_fails { IsOk result }
{
    view.clone()
}

fn ipv6_extension_copy<'a>(
    view: &Ipv6ExtensionSlice<'a>,
) -> Result<Ipv6ExtensionSlice<'a>, AllocError>
    ensures same_value { result ≡ Ok view.now }
{
    // The borrow checker does not cover `view.clone()` here.
    Clone::clone(view)
}

// A header is hashed by all its fields.
fn ipv6_raw_ext_header_hash<H: Hasher>(header: &Ipv6RawExtHeader, state: &mut H)
    ensures by_fields { state.new ≡ fold H.write state.old
        (fed.u8 header.now.next_header ++ fed.slice fed.u8 header.now.payload) }
{
    header.hash(state);
}

fn ip_auth_header_hash<H: Hasher>(header: &IpAuthHeader, state: &mut H)
    ensures by_fields { state.new ≡ fold H.write state.old (fed.u8 header.now.next_header
        ++ (fed.u32 header.now.spi ++ (fed.u32 header.now.sequence_number
        ++ fed.slice fed.u8 header.now.icv))) }
{
    header.hash(state);
}

// Errors are equal if all that they say is.
fn ext_payload_len_error_equality(a: &ExtPayloadLenError, b: &ExtPayloadLenError) -> bool
    ensures same_value { IsTrue result ↔ (a.now ≡ b.now) }
{
    a == b
}

fn icv_len_error_equality(a: &IcvLenError, b: &IcvLenError) -> bool
    ensures same_value { IsTrue result ↔ (a.now ≡ b.now) }
{
    a == b
}

fn incomplete_option_equality(a: &IncompleteOption, b: &IncompleteOption) -> bool
    ensures same_value { IsTrue result ↔ (a.now ≡ b.now) }
{
    a == b
}

fn ipv4_option_error_equality(a: &Ipv4OptionError, b: &Ipv4OptionError) -> bool
    ensures same_value { IsTrue result ↔ (a.now ≡ b.now) }
{
    a == b
}

fn option_write_error_equality(a: &OptionWriteError, b: &OptionWriteError) -> bool
    ensures same_value { IsTrue result ↔ (a.now ≡ b.now) }
{
    a == b
}

fn ip_auth_header_error_equality(a: &HeaderError, b: &HeaderError) -> bool
    ensures same_value { IsTrue result ↔ (a.now ≡ b.now) }
{
    a == b
}

fn ip_auth_header_slice_error_equality(a: &HeaderSliceError, b: &HeaderSliceError) -> bool
    ensures same_value { IsTrue result ↔ (a.now ≡ b.now) }
{
    a == b
}

// And the clone of an error is equal.
fn ext_payload_len_error_copy(error: &ExtPayloadLenError) -> Result<ExtPayloadLenError, AllocError>
    ensures same_value { result ≡ Ok error.now }
{
    error.clone()
}

fn icv_len_error_copy(error: &IcvLenError) -> Result<IcvLenError, AllocError>
    ensures same_value { result ≡ Ok error.now }
{
    error.clone()
}

fn incomplete_option_copy(error: &IncompleteOption) -> Result<IncompleteOption, AllocError>
    ensures same_value { result ≡ Ok error.now }
{
    error.clone()
}

fn ipv4_option_error_copy(error: &Ipv4OptionError) -> Result<Ipv4OptionError, AllocError>
    ensures same_value { result ≡ Ok error.now }
{
    error.clone()
}

fn option_write_error_copy(error: &OptionWriteError) -> Result<OptionWriteError, AllocError>
    ensures same_value { result ≡ Ok error.now }
{
    error.clone()
}

fn ip_auth_header_error_copy(error: &HeaderError) -> Result<HeaderError, AllocError>
    ensures same_value { result ≡ Ok error.now }
{
    error.clone()
}

fn ip_auth_header_slice_error_copy(error: &HeaderSliceError) -> Result<HeaderSliceError, AllocError>
    ensures same_value { result ≡ Ok error.now }
{
    error.clone()
}

// Errors are hashed by all that they say.
fn ext_payload_len_error_hash<H: Hasher>(error: &ExtPayloadLenError, state: &mut H)
    ensures by_value { state.new ≡ fold H.write state.old (ext_payload_len_error_writes error.now) }
{
    error.hash(state);
}

fn icv_len_error_hash<H: Hasher>(error: &IcvLenError, state: &mut H)
    ensures by_value { state.new ≡ fold H.write state.old (icv_len_error_writes error.now) }
{
    error.hash(state);
}

fn incomplete_option_hash<H: Hasher>(error: &IncompleteOption, state: &mut H)
    ensures by_value { state.new ≡ fold H.write state.old (incomplete_option_writes error.now) }
{
    error.hash(state);
}

fn ipv4_option_error_hash<H: Hasher>(error: &Ipv4OptionError, state: &mut H)
    ensures by_value { state.new ≡ fold H.write state.old (ipv4_option_error_writes error.now) }
{
    error.hash(state);
}

fn option_write_error_hash<H: Hasher>(error: &OptionWriteError, state: &mut H)
    ensures by_value { state.new ≡ fold H.write state.old (option_write_error_writes error.now) }
{
    error.hash(state);
}

// There is one authentication header error only: nothing of it is hashed.
fn ip_auth_header_error_hash<H: Hasher>(error: &HeaderError, state: &mut H)
    ensures nothing { state.new ≡ state.old }
{
    error.hash(state);
}

// The fields of a variant, by their names, are those of the definitions in their order.
fn length_below_two_fields(option_type: u8, option_length: u8, offset: usize) -> Ipv4OptionError
    ensures by_name { result ≡ v4.LengthBelowTwo option_type option_length offset }
{
    Ipv4OptionError::LengthBelowTwo {
        option_type,
        option_length,
        offset,
    }
}
