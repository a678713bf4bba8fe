//! The extension headers and options of IP, read and written.
#![tactic(auto)]

mod bytes;
pub mod err;
mod errors;
mod ip_auth_header;
mod ip_auth_header_slice;
mod ip_auth_icv;
mod ipv4_option_slice;
mod ipv4_options_iterator;
mod ipv6_ext_payload;
mod ipv6_extension_slice;
mod ipv6_extension_slice_iter;
mod ipv6_fragment_header;
mod ipv6_fragment_header_slice;
mod ipv6_option_action;
mod ipv6_option_slice;
mod ipv6_option_writing;
mod ipv6_options_iterator;
mod ipv6_raw_ext_header;
mod ipv6_raw_ext_header_slice;
mod laws;

pub use ip_auth_header::IpAuthHeader;
pub use ip_auth_header_slice::IpAuthHeaderSlice;
pub use ip_auth_icv::IpAuthIcv;
pub use ipv4_option_slice::Ipv4OptionSlice;
pub use ipv4_options_iterator::Ipv4OptionsIterator;
pub use ipv6_ext_payload::Ipv6ExtPayload;
pub use ipv6_extension_slice::Ipv6ExtensionSlice;
pub use ipv6_extension_slice_iter::Ipv6ExtensionSliceIter;
pub use ipv6_fragment_header::Ipv6FragmentHeader;
pub use ipv6_fragment_header_slice::Ipv6FragmentHeaderSlice;
pub use ipv6_option_action::Ipv6OptionAction;
pub use ipv6_option_slice::Ipv6OptionSlice;
pub use ipv6_option_writing::append_ipv6_option;
pub use ipv6_options_iterator::Ipv6OptionsIterator;
pub use ipv6_raw_ext_header::Ipv6RawExtHeader;
pub use ipv6_raw_ext_header_slice::Ipv6RawExtHeaderSlice;
