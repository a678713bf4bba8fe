//! The place of a fragment of either version.

/// The place of a fragment, of either version.
#[derive(Clone, Copy, Debug, PartialEq, Eq)]
pub struct Fragment {
    /// Equal in all fragments of one packet: 16 bits in IPv4, 32 in IPv6.
    pub identification: u32,
    /// Its offset in the whole payload, in bytes.
    pub offset: u32,
    /// Whether more fragments follow it.
    pub more_fragments: bool,
}
