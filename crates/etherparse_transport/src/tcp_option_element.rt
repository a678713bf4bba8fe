/// An option of a TCP header (RFC 9293 section 3.2). All but No-Operation begin with their kind and
/// their length, of one byte each. End of Option List (kind 0) is no element.
#[derive(Clone, Copy, Debug, PartialEq, Eq)]
pub enum TcpOptionElement {
    /// No-Operation (kind 1, 1 byte), which can fill up between other options.
    Noop,
    /// Maximum Segment Size (kind 2, 4 bytes): how much data a segment may have, in bytes.
    MaximumSegmentSize(u16),
    /// Window Scale (kind 3, 3 bytes): by how many bits the window is shifted to the left (RFC 7323
    /// section 2). Any number is read and written, also one above the 14 that is allowed.
    WindowScale(u8),
    /// Selective Acknowledgement is permitted (kind 4, 2 bytes, RFC 2018 section 2).
    SelectiveAcknowledgementPermitted,
    /// Selective Acknowledgement (kind 5, 10, 18, 26 or 34 bytes, RFC 2018 section 3): one to four
    /// blocks that were received, each from its first sequence number to the one after its last.
    /// What is read has the blocks after the first in front of the empty places.
    SelectiveAcknowledgement((u32, u32), [Option<(u32, u32)>; 3]),
    /// Timestamps (kind 8, 10 bytes, RFC 7323 section 3): the value, and the echoed value.
    Timestamp(u32, u32),
}
