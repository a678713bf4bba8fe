//! Packets chosen by an expression, in the words of pcap-filter(7). A filter takes no memory.
#![tactic(auto)]

mod address;
mod addresses;
mod expected;
mod expression;
mod filter;
mod frame;
mod front;
mod head;
mod holds;
mod jumps;
mod laws;
mod machine;
mod names;
mod number;
mod numbers;
mod partial;
mod quick;
mod reading;
mod text;
mod token;
mod values;

pub use expected::Expected;
pub use expression::{Operator, Version};
pub use filter::Filter;
pub use laws::one_reading;
pub use reading::FilterError;
