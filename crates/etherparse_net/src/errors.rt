//! The error of a slice that is too short.

ghost use Rattle.std.specs.Prelude.{◌≡◌};
ghost use Rattle.etherparse.specs.Reading.{too_short_error};

use etherparse::LenSource;
use etherparse::err::{Layer, LenError};

// The error of a slice that is shorter than the layer needs.
#[cold]
pub(crate) fn too_short(layer: Layer, required_len: usize, len: usize) -> LenError
    ensures value { result ≡ too_short_error layer required_len len }
{
    LenError {
        required_len,
        len,
        len_source: LenSource::Slice,
        layer,
        layer_start_offset: 0,
    }
}
