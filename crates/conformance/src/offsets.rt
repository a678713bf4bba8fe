//! Errors of what starts further on in a packet.

ghost use Rattle.std.specs.Prelude.{◌+◌, ◌^◌, ◌<◌};
ghost use Rattle.std.specs.Bool.{OnTrue};

use crate::case::{Argument, Case, write_shown};
use crate::shown::Shown;
use etherparse::err::{LenError, ipv4, ipv6};

/// The cases `off.NAME OFFSET ERROR`: each makes an error from its arguments and adds the offset to
/// its place. If the sum does not fit, the case is a bad one.
pub fn answer(name: &str, case: &mut Case) {
    match name {
        "len" => write_moved::<LenError>(case),
        "v4" => write_moved::<ipv4::HeaderSliceError>(case),
        "v6" => write_moved::<ipv6::HeaderSliceError>(case),
        "chain" => write_moved::<ipv6::ChainError>(case),
        _ => case.refuse(),
    }
}

// Reads an offset and an error, and writes the error with the offset added to its place.
fn write_moved<E: Argument + Placed + Shown>(case: &mut Case) {
    let offset = case.number();
    let error: E = case.read();
    match error.moved(offset) {
        Some(moved) => write_shown(moved, case),
        None => case.refuse(),
    }
}

// An error that can tell a place in a packet.
trait Placed: Drop + Sized {
    // The error with an offset added to its place; `None` if the sum does not fit.
    fn moved(self, offset: usize) -> Option<Self>;
}

impl Placed for LenError {
    fn moved(self, offset: usize) -> Option<LenError> {
        if has_room(offset, self.layer_start_offset) {
            Some(self.add_offset(offset))
        } else {
            None
        }
    }
}

impl Placed for ipv4::HeaderSliceError {
    fn moved(self, offset: usize) -> Option<ipv4::HeaderSliceError> {
        let place = match &self {
            ipv4::HeaderSliceError::Len(e) => e.layer_start_offset,
            ipv4::HeaderSliceError::Content(_) => 0,
        };
        if has_room(offset, place) {
            Some(self.add_slice_offset(offset))
        } else {
            None
        }
    }
}

impl Placed for ipv6::HeaderSliceError {
    fn moved(self, offset: usize) -> Option<ipv6::HeaderSliceError> {
        let place = match &self {
            ipv6::HeaderSliceError::Len(e) => e.layer_start_offset,
            ipv6::HeaderSliceError::Content(_) => 0,
        };
        if has_room(offset, place) {
            Some(self.add_slice_offset(offset))
        } else {
            None
        }
    }
}

impl Placed for ipv6::ChainError {
    fn moved(self, offset: usize) -> Option<ipv6::ChainError> {
        let place = match &self {
            ipv6::ChainError::Len(e) => e.layer_start_offset,
            ipv6::ChainError::TooMany {
                layer_start_offset,
                ..
            } => *layer_start_offset,
        };
        if has_room(offset, place) {
            Some(self.add_slice_offset(offset))
        } else {
            None
        }
    }
}

// Whether the place of an error fits after the offset is added.
fn has_room(offset: usize, place: usize) -> bool
    ensures room { OnTrue result (place + offset < 2 ^ 64) }
{
    offset <= usize::MAX - place
}
