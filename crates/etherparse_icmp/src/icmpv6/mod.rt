//! What the messages of ICMPv6 say.

mod neighbor;
mod problem_code;
mod problem_header;
mod router;
mod time_exceeded_code;
mod unreachable;

pub use neighbor::NeighborAdvertisementHeader;
pub use problem_code::ParameterProblemCode;
pub use problem_header::ParameterProblemHeader;
pub use router::RouterAdvertisementHeader;
pub use time_exceeded_code::TimeExceededCode;
pub use unreachable::DestUnreachableCode;
