//! Transport headers: UDP and TCP.
#![tactic(auto)]

mod laws;
mod payload_len;
mod tcp;
mod tcp_header;
mod tcp_option_element;
mod tcp_option_read_error;
mod tcp_option_write_error;
mod tcp_options;
mod tcp_options_iterator;
mod tcp_pseudo_header;
mod udp;
mod udp_header_slice;

pub use tcp::{TcpError, TcpHeaderSlice};
pub use tcp_header::TcpHeader;
pub use tcp_option_element::TcpOptionElement;
pub use tcp_option_read_error::TcpOptionReadError;
pub use tcp_option_write_error::TcpOptionWriteError;
pub use tcp_options::TcpOptions;
pub use tcp_options_iterator::TcpOptionsIterator;
pub use udp::UdpHeader;
pub use udp_header_slice::UdpHeaderSlice;
