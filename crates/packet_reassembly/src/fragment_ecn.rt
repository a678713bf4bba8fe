//! The ECN codepoints of fragments, and the one of their packet (RFC 3168 section 5.3).

ghost use Rattle.std.specs.Prelude.{◌≡◌, ◌↔◌, IsTrue};
ghost use Rattle.packet_reassembly.specs.Ecn.{IsDropped, ecn_of, ecn_with, marked_ipv4, marked_ipv6};

use etherparse::{IpEcn, Ipv4Header, Ipv6Header};

/// Which of two ECN codepoints the fragments of a datagram have. The packet depends on them (RFC
/// 3168 section 5.3): a mark of congestion must not be lost, so it has `CE` if any fragment has it.
/// But it must not have `CE` if another fragment has `Not-ECT`: such a packet is dropped.
#[derive(Clone, Copy, Debug, PartialEq, Eq)]
pub struct FragmentEcn {
    /// A fragment has `CE`: a router that it passed met congestion.
    pub ce: bool,
    /// A fragment has `Not-ECT`: the sender's transport does not use the notification.
    pub not_ect: bool,
}

impl FragmentEcn {
    /// No fragment has either, as before any has come.
    pub const NONE: FragmentEcn = FragmentEcn {
        ce: false,
        not_ect: false,
    };

    /// Those of one fragment, whose IP header has this codepoint.
    pub fn of(ecn: IpEcn) -> FragmentEcn
        ensures value { result ≡ ecn_of ecn }
    {
        match ecn {
            IpEcn::NotEct => FragmentEcn {
                ce: false,
                not_ect: true,
            },
            IpEcn::Ect0 => FragmentEcn::NONE,
            IpEcn::Ect1 => FragmentEcn::NONE,
            IpEcn::CongestionExperienced => FragmentEcn {
                ce: true,
                not_ect: false,
            },
        }
    }

    /// Those of these fragments and of others.
    pub fn with(self, others: FragmentEcn) -> FragmentEcn
        ensures value { result ≡ ecn_with self others }
    {
        FragmentEcn {
            ce: self.ce || others.ce,
            not_ect: self.not_ect || others.not_ect,
        }
    }

    /// Whether their packet must be dropped: one has `CE` and another `Not-ECT`.
    ///
    /// # Example
    ///
    /// ```
    /// let marked = FragmentEcn::of(IpEcn::CongestionExperienced);
    /// assert!(rt; !marked.with(FragmentEcn::of(IpEcn::Ect0)).is_dropped());
    /// assert!(rt; marked.with(FragmentEcn::of(IpEcn::NotEct)).is_dropped());
    /// ```
    pub fn is_dropped(self) -> bool
        ensures dropped { IsTrue result ↔ IsDropped self }
    {
        self.ce && self.not_ect
    }

    /// The header of the first fragment, with `CE` if any fragment has it. The header checksum stays.
    pub(crate) fn mark_ipv4(self, first: Ipv4Header) -> Ipv4Header
        ensures value { result ≡ marked_ipv4 self first }
    {
        if self.ce {
            Ipv4Header {
                ecn: IpEcn::CongestionExperienced,
                ..first
            }
        } else {
            first
        }
    }

    /// The same of IPv6, in the lower 2 bits of the traffic class.
    pub(crate) fn mark_ipv6(self, first: Ipv6Header) -> Ipv6Header
        ensures value { result ≡ marked_ipv6 self first }
    {
        let mut header = first;
        if self.ce {
            header.set_ecn(IpEcn::CongestionExperienced);
        }
        header
    }
}

const _: () = prove!(!FragmentEcn::NONE.ce && !FragmentEcn::NONE.not_ect);
