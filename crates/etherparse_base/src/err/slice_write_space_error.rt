ghost use Rattle.std.specs.Prelude.{Some};
ghost use Rattle.std.specs.Fmt.{DisplaysOnOk};
ghost use Rattle.etherparse_base.specs.SliceWriteSpaceError.{slice_write_space_error_text};
ghost use Rattle.etherparse_base.specs.SliceWriteSpaceError.{space_text, write_start_text};

use super::Layer;
use std::error::Error;
use std::fmt;

/// A slice with too little room for what is written to it. No call here returns this error: it is
/// there under the Rust crate's name, for code of your own.
#[derive(Clone, Debug, PartialEq, Eq, Hash, Drop)]
pub struct SliceWriteSpaceError {
    /// The length that was needed, in bytes.
    pub required_len: usize,
    /// The length that was available, in bytes.
    pub len: usize,
    /// The layer that was written.
    pub layer: Layer,
    /// Where the layer starts, in bytes from the start of the written data.
    pub layer_start_offset: usize,
}

/// Says what was needed, what was available and, unless the layer starts at byte 0, where it
/// starts.
impl fmt::Display for SliceWriteSpaceError {
    ghost output = { λ e. Some (slice_write_space_error_text e) };

    fn fmt<W: fmt::Write>(&self, f: &mut fmt::Formatter<W>) -> fmt::Result {
        self.fmt_space(f)?;
        self.fmt_start(f)?;
        f.write_str(".")
    }
}

impl SliceWriteSpaceError {
    // The layer and the two lengths.
    fn fmt_space<W: fmt::Write>(&self, f: &mut fmt::Formatter<W>) -> fmt::Result
        ensures text { DisplaysOnOk W.write_str_gives f.old result
            (Some (space_text self.now)) f.new }
    {
        let layer = self.layer;
        let required_len = self.required_len;
        let len = self.len;
        write!(
            f,
            "Not enough space to write {layer} to slice. Needed {required_len} byte(s), but only {len} byte(s) were available"
        )
    }

    // Where the layer starts, unless at byte 0.
    fn fmt_start<W: fmt::Write>(&self, f: &mut fmt::Formatter<W>) -> fmt::Result
        ensures text { DisplaysOnOk W.write_str_gives f.old result
            (Some (write_start_text self.now)) f.new }
    {
        let layer = self.layer;
        let layer_start_offset = self.layer_start_offset;
        if layer_start_offset > 0 {
            write!(
                f,
                " (start offset of {layer} write was {layer_start_offset} byte(s))"
            )
        } else {
            Ok(())
        }
    }
}

impl Error for SliceWriteSpaceError {}
