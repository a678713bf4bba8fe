//! What the derived `==`, `clone` and `hash` say, each as the clause of one small function. Nothing
//! calls them: they are there to be proved.

ghost use Rattle.std.specs.Prelude.{◌≡◌, ◌↔◌, ◌++◌, IsTrue, Ok, fold};
ghost use Rattle.std.specs.Hash as fed;
ghost use Rattle.etherparse_transport.specs.declared.tcp_option_read_error.TcpOptionReadError.TheVariants as read;

use crate::{
    TcpError, TcpHeader, TcpHeaderSlice, TcpOptionElement, TcpOptionReadError, TcpOptionWriteError,
    TcpOptions, TcpOptionsIterator, UdpHeader, UdpHeaderSlice,
};
use std::alloc::AllocError;
use std::hash::{Hash, Hasher};

fn udp_header_equality(a: &UdpHeader, b: &UdpHeader) -> bool
    ensures same_value { IsTrue result ↔ (a.now ≡ b.now) }
{
    a == b
}

fn tcp_header_equality(a: &TcpHeader, b: &TcpHeader) -> bool
    ensures same_value { IsTrue result ↔ (a.now ≡ b.now) }
{
    a == b
}

fn tcp_option_element_equality(a: &TcpOptionElement, b: &TcpOptionElement) -> bool
    ensures same_value { IsTrue result ↔ (a.now ≡ b.now) }
{
    a == b
}

fn tcp_options_equality(a: &TcpOptions, b: &TcpOptions) -> bool
    ensures same_value { IsTrue result ↔ (a.now ≡ b.now) }
{
    a == b
}

// Views are equal if they show the same bytes.
fn udp_view_equality(a: &UdpHeaderSlice, b: &UdpHeaderSlice) -> bool
    ensures same_bytes { IsTrue result ↔ (a.now.slice.now ≡ b.now.slice.now) }
{
    a == b
}

fn tcp_view_equality(a: &TcpHeaderSlice, b: &TcpHeaderSlice) -> bool
    ensures same_bytes { IsTrue result ↔ (a.now.slice.now ≡ b.now.slice.now) }
{
    a == b
}

// Iterators are equal if the same bytes are left.
fn tcp_options_iterator_equality(a: &TcpOptionsIterator, b: &TcpOptionsIterator) -> bool
    ensures same_bytes { IsTrue result ↔ (a.now.options.now ≡ b.now.options.now) }
{
    a == b
}

// A clone is equal, and cloning never fails.
fn udp_header_clone(header: &UdpHeader) -> Result<UdpHeader, AllocError>
    ensures same_value { result ≡ Ok header.now }
{
    header.clone()
}

fn tcp_options_clone(options: &TcpOptions) -> Result<TcpOptions, AllocError>
    ensures same_value { result ≡ Ok options.now }
{
    options.clone()
}

fn tcp_option_element_clone(element: &TcpOptionElement) -> Result<TcpOptionElement, AllocError>
    ensures same_value { result ≡ Ok element.now }
{
    element.clone()
}

fn tcp_options_iterator_clone<'a>(
    options: &TcpOptionsIterator<'a>,
) -> Result<TcpOptionsIterator<'a>, AllocError>
    ensures same_value { result ≡ Ok options.now }
{
    options.clone()
}

fn udp_view_clone<'a>(view: &UdpHeaderSlice<'a>) -> Result<UdpHeaderSlice<'a>, AllocError>
    ensures same_value { result ≡ Ok view.now }
{
    view.clone()
}

fn tcp_view_clone<'a>(view: &TcpHeaderSlice<'a>) -> Result<TcpHeaderSlice<'a>, AllocError>
    ensures same_value { result ≡ Ok view.now }
{
    view.clone()
}

fn tcp_error_clone(error: &TcpError) -> Result<TcpError, AllocError>
    ensures same_value { result ≡ Ok error.now }
{
    error.clone()
}

fn tcp_option_read_error_clone(error: &TcpOptionReadError) -> Result<TcpOptionReadError, AllocError>
    ensures same_value { result ≡ Ok error.now }
{
    error.clone()
}

fn tcp_option_write_error_clone(
    error: &TcpOptionWriteError,
) -> Result<TcpOptionWriteError, AllocError>
    ensures same_value { result ≡ Ok error.now }
{
    error.clone()
}

fn tcp_error_equality(a: &TcpError, b: &TcpError) -> bool
    ensures same_value { IsTrue result ↔ (a.now ≡ b.now) }
{
    a == b
}

fn tcp_option_read_error_equality(a: &TcpOptionReadError, b: &TcpOptionReadError) -> bool
    ensures same_value { IsTrue result ↔ (a.now ≡ b.now) }
{
    a == b
}

fn tcp_option_write_error_equality(a: &TcpOptionWriteError, b: &TcpOptionWriteError) -> bool
    ensures same_value { IsTrue result ↔ (a.now ≡ b.now) }
{
    a == b
}

// Options are hashed by their bytes, a header by all its fields.
fn tcp_options_hash<H: Hasher>(options: &TcpOptions, state: &mut H)
    ensures by_bytes { state.new ≡ fold H.write state.old (fed.slice fed.u8 options.now) }
{
    options.hash(state);
}

fn tcp_header_hash<H: Hasher>(header: &TcpHeader, state: &mut H)
    ensures by_fields { state.new ≡ fold H.write state.old (fed.u16 header.now.source_port
        ++ (fed.u16 header.now.destination_port ++ (fed.u32 header.now.sequence_number
        ++ (fed.u32 header.now.acknowledgment_number ++ (fed.bool header.now.ns
        ++ (fed.bool header.now.fin ++ (fed.bool header.now.syn ++ (fed.bool header.now.rst
        ++ (fed.bool header.now.psh ++ (fed.bool header.now.ack ++ (fed.bool header.now.urg
        ++ (fed.bool header.now.ece ++ (fed.bool header.now.cwr
        ++ (fed.u16 header.now.window_size ++ (fed.u16 header.now.checksum
        ++ (fed.u16 header.now.urgent_pointer
        ++ fed.slice fed.u8 header.now.options)))))))))))))))) }
{
    header.hash(state);
}

// The fields of a variant, by their names, are those of the definitions in their order.
fn unexpected_end_of_slice_fields(
    option_id: u8,
    expected_len: u8,
    actual_len: usize,
) -> TcpOptionReadError
    ensures by_name { result ≡ read.UnexpectedEndOfSlice option_id expected_len actual_len }
{
    TcpOptionReadError::UnexpectedEndOfSlice {
        option_id,
        expected_len,
        actual_len,
    }
}

fn unexpected_size_fields(option_id: u8, size: u8) -> TcpOptionReadError
    ensures by_name { result ≡ read.UnexpectedSize option_id size }
{
    TcpOptionReadError::UnexpectedSize { option_id, size }
}
