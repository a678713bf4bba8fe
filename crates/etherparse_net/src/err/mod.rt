//! Why bytes are no header or no option, and why a header cannot have some bytes.

mod ext_payload_len_error;
mod icv_len_error;
mod incomplete_option;
pub mod ip_auth;
mod ipv4_option_error;
mod option_write_error;

pub use ext_payload_len_error::ExtPayloadLenError;
pub use icv_len_error::IcvLenError;
pub use incomplete_option::IncompleteOption;
pub use ipv4_option_error::Ipv4OptionError;
pub use option_write_error::OptionWriteError;
