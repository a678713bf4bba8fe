//! Another gateway for some packets (RFC 792).

use super::RedirectCode;

/// What a redirect message of ICMP says (RFC 792).
///
/// # Example
///
/// ```
/// // Packets to the host are to go to 192.0.2.1.
/// let bytes = [5, 1, 0x74, 0x36, 192, 0, 2, 1, b'a', b'b', b'c', b'd'];
/// let (header, _) = Icmpv4Header::from_slice(&bytes)?;
/// let redirect = RedirectHeader {
///     code: RedirectCode::RedirectForHost,
///     gateway_internet_address: [192, 0, 2, 1],
/// };
/// assert!(rt; header.icmp_type == Icmpv4Type::Redirect(redirect));
/// ```
#[derive(Clone, Copy, Debug, PartialEq, Eq)]
pub struct RedirectHeader {
    /// Which packets are to take the other gateway.
    pub code: RedirectCode,
    /// Bytes 4 to 7 of the message: the address of that gateway.
    pub gateway_internet_address: [u8; 4],
}
