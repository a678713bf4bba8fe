//! What a run is asked for.

ghost use Rattle.std.specs.Prelude.{◌≡◌, IfErr, IfOk};
ghost use Rattle.packet_filter.specs.Text.{is_space};
ghost use Rattle.ipcap.specs.Request.{IsFilter, IsNoFilter};

use packet_filter::{Filter, FilterError};

/// What is written of the records that are listed.
#[derive(Clone, Copy, PartialEq, Eq)]
pub enum Mode {
    /// A line each.
    Lines,
    /// Nothing; the closing line goes to standard output.
    Quiet,
    /// How many there are, in one line.
    Count,
    /// The records as they came, after the file header as it came.
    Packets,
}

/// What a run is asked for.
#[derive(Drop)]
pub struct Request {
    /// What is written of the records that are listed.
    pub mode: Mode,
    /// Whether times are written as dates in UTC.
    pub is_utc: bool,
    /// After how many listed records the run ends; `None` if it goes on to the end of the capture.
    pub limit: Option<u64>,
    /// The expression that records are chosen by; `None` if all are.
    pub filter: Option<Filter>,
}

impl Request {
    ghost use Rattle.ipcap.specs.Request.{copies, has_enough};

    /// Whether as many records are listed as were asked for.
    #[inline(always)]
    pub fn has_enough(&self, listed: u64) -> bool
        ensures value { result ≡ has_enough self.now listed }
    {
        match self.limit {
            None => false,
            Some(limit) => listed >= limit,
        }
    }

    /// Whether the records are written as they came.
    pub fn copies(&self) -> bool
        ensures value { result ≡ copies self.now.mode }
    {
        matches!(self.mode, Mode::Packets)
    }
}

/// The filter that a text is; `None` if it has no word.
pub fn read_filter(text: &[u8]) -> Result<Option<Filter>, FilterError>
    ensures read { IfOk result (IsFilter text.now) }
    ensures refused { IfErr result (IsNoFilter text.now) }
{
    if text.iter().all(|byte| is_space(*byte)) {
        return Ok(None);
    }
    match Filter::from_text(text) {
        Ok(filter) => Ok(Some(filter)),
        Err(e) => Err(e),
    }
}

/// Whether a byte only parts the words of an expression.
pub fn is_space(byte: u8) -> bool
    ensures value { result ≡ is_space byte }
{
    byte == b' ' || byte == b'\t' || byte == b'\n' || byte == b'\r'
}
