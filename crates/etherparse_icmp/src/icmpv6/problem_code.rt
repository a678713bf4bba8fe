//! What a packet was discarded for (RFC 4443 section 3.4).

/// The code of a parameter problem message of ICMPv6: 0 to 2 of RFC 4443 section 3.4, 3 of RFC
/// 7112, 4 of RFC 8754, 5 to 10 of RFC 8883.
///
/// # Example
///
/// ```
/// let code = ParameterProblemCode::from_u8(1);
/// assert!(rt; code == Some(ParameterProblemCode::UnrecognizedNextHeader));
/// assert!(rt; ParameterProblemCode::UnrecognizedNextHeader.code_u8() == 1);
/// assert!(rt; ParameterProblemCode::from_u8(11).is_none());
/// ```
#[derive(Clone, Copy, Debug, PartialEq, Eq)]
pub enum ParameterProblemCode {
    /// 0: a header field is erroneous.
    ErroneousHeaderField,
    /// 1: a next header is unrecognized.
    UnrecognizedNextHeader,
    /// 2: an option is unrecognized.
    UnrecognizedIpv6Option,
    /// 3: the first fragment does not have all the headers.
    Ipv6FirstFragmentIncompleteHeaderChain,
    /// 4: the upper layer's header is in error, at a segment routing endpoint.
    SrUpperLayerHeaderError,
    /// 5: a next header is unrecognized by a node on the way.
    UnrecognizedNextHeaderByIntermediateNode,
    /// 6: an extension header is too big.
    ExtensionHeaderTooBig,
    /// 7: the extension headers together are too long.
    ExtensionHeaderChainTooLong,
    /// 8: there are too many extension headers.
    TooManyExtensionHeaders,
    /// 9: there are too many options in an extension header.
    TooManyOptionsInExtensionHeader,
    /// 10: an option is too big.
    OptionTooBig,
}

impl ParameterProblemCode {
    ghost use Rattle.std.specs.Prelude.{◌≡◌, ◌≤◌, ◌↔◌, IfSome, IsSome};
    ghost use Rattle.etherparse_icmp.specs.Icmpv6Codes.{parameter_problem_number};

    /// The code of this number, if it has a name: the numbers from 0 to 10 have one.
    pub fn from_u8(code_u8: u8) -> Option<ParameterProblemCode>
        ensures number { IfSome result (λ code. parameter_problem_number code ≡ code_u8) }
        ensures named { IsSome result ↔ (code_u8 ≤ 10) }
    {
        match code_u8 {
            0 => Some(ParameterProblemCode::ErroneousHeaderField),
            1 => Some(ParameterProblemCode::UnrecognizedNextHeader),
            2 => Some(ParameterProblemCode::UnrecognizedIpv6Option),
            3 => Some(ParameterProblemCode::Ipv6FirstFragmentIncompleteHeaderChain),
            4 => Some(ParameterProblemCode::SrUpperLayerHeaderError),
            5 => Some(ParameterProblemCode::UnrecognizedNextHeaderByIntermediateNode),
            6 => Some(ParameterProblemCode::ExtensionHeaderTooBig),
            7 => Some(ParameterProblemCode::ExtensionHeaderChainTooLong),
            8 => Some(ParameterProblemCode::TooManyExtensionHeaders),
            9 => Some(ParameterProblemCode::TooManyOptionsInExtensionHeader),
            10 => Some(ParameterProblemCode::OptionTooBig),
            _ => None,
        }
    }

    /// The number of the code, from 0 to 10.
    pub fn code_u8(&self) -> u8
        ensures number { result ≡ parameter_problem_number self.now }
    {
        match self {
            ParameterProblemCode::ErroneousHeaderField => 0,
            ParameterProblemCode::UnrecognizedNextHeader => 1,
            ParameterProblemCode::UnrecognizedIpv6Option => 2,
            ParameterProblemCode::Ipv6FirstFragmentIncompleteHeaderChain => 3,
            ParameterProblemCode::SrUpperLayerHeaderError => 4,
            ParameterProblemCode::UnrecognizedNextHeaderByIntermediateNode => 5,
            ParameterProblemCode::ExtensionHeaderTooBig => 6,
            ParameterProblemCode::ExtensionHeaderChainTooLong => 7,
            ParameterProblemCode::TooManyExtensionHeaders => 8,
            ParameterProblemCode::TooManyOptionsInExtensionHeader => 9,
            ParameterProblemCode::OptionTooBig => 10,
        }
    }
}
