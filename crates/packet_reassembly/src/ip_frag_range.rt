//! The place of a fragment in its datagram.

/// The place of a fragment in its datagram.
#[derive(Clone, Copy, Debug)]
pub struct IpFragRange {
    /// The place of its first byte.
    pub start: usize,
    /// The place after its last byte.
    pub end: usize,
    /// Whether more fragments follow it.
    pub more_fragments: bool,
}
