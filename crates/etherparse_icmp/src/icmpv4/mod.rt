//! What the messages of ICMP say.

mod problem;
mod redirect_code;
mod redirect_header;
mod time_exceeded_code;
mod timestamp_message;
mod unreachable;

pub use problem::ParameterProblemHeader;
pub use redirect_code::RedirectCode;
pub use redirect_header::RedirectHeader;
pub use time_exceeded_code::TimeExceededCode;
pub use timestamp_message::TimestampMessage;
pub use unreachable::DestUnreachableHeader;
