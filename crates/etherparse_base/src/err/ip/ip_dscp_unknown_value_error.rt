ghost use Rattle.std.specs.Prelude.{Some};
ghost use Rattle.etherparse_base.specs.IpErrors.{ip_dscp_unknown_value_error_text};

use std::error::Error;
use std::fmt;

/// A differentiated services code point that is none of the known ones.
#[derive(Clone, Debug, PartialEq, Eq, Hash, Drop)]
pub struct IpDscpUnknownValueError {
    /// The number of the code point that was refused.
    pub value: u8,
}

/// Says which code point was refused.
impl fmt::Display for IpDscpUnknownValueError {
    ghost output = { λ e. Some (ip_dscp_unknown_value_error_text e) };

    fn fmt<W: fmt::Write>(&self, f: &mut fmt::Formatter<W>) -> fmt::Result {
        let value = self.value;
        write!(f, "Error DSCP value '{value}' is not known.")
    }
}

impl Error for IpDscpUnknownValueError {}
