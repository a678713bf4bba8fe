//! Whole datagrams from all that came of them, and the laws of reassembly.

ghost use Rattle.std.specs.Prelude.{ℕ, ◌≡◌, ◌≢◌, ◌≤◌, ◌↔◌, ◌++◌, [], ◌∷◌, List, None, length};
ghost use Rattle.packet_reassembly.specs.Arrivals.{HaveConflict, HaveSameRight, HoldDatagram};
ghost use Rattle.packet_reassembly.specs.Arrivals.{StandsFor, came};
ghost use Rattle.packet_reassembly.specs.Fragment.{AreCutFrom, Fragment as F, IsWhole, fragment};

use crate::ip_defrag_buf::IpDefragBuf;
use etherparse::IpFragOffset;

/// A fragment as it comes.
#[derive(Clone, Copy, Debug)]
pub struct IpFragment<'a> {
    /// Its place in the datagram, in units of 8 bytes.
    pub offset: IpFragOffset,
    /// Whether more fragments follow it.
    pub more_fragments: bool,
    /// Its bytes.
    pub payload: &'a [u8],
}

/// What all these fragments are together, as if each were added. Those that [`IpDefragBuf::add`]
/// refuses are passed over. If some are missing, they can be added. `bytes` has to have at least
/// [`IpDefragBuf::MAX_LEN`] bytes, and `units` at least [`IpDefragBuf::UNITS`].
pub fn reassemble<'a>(
    bytes: &'a mut [u8],
    units: &'a mut [u8],
    fragments: &[IpFragment],
) -> IpDefragBuf<'a>
    requires bytes { 65535 ≤ length bytes.old }
    requires units { 8192 ≤ length units.old }
    ensures whole { (datagram : List ℕ) →
        (IsWhole result datagram ↔ HoldDatagram (came fragments.now) datagram) }
    ensures discarded { (result ≡ None) ↔ HaveConflict (came fragments.now) }
    ensures stands { StandsFor result (came fragments.now) }
{
    let mut buf = IpDefragBuf::new(bytes, units);
    for fragment in fragments {
        add_or_pass(
            &mut buf,
            fragment.offset,
            fragment.more_fragments,
            fragment.payload,
        );
    }
    buf
}

// One fragment more.
#[tactic(auto, using(crate::proofs::Arrivals::stands_more, crate::proofs::Arrivals::stands_refused))]
fn add_or_pass(buf: &mut IpDefragBuf, offset: IpFragOffset, more_fragments: bool, payload: &[u8])
    ensures stands { (fragments : List F) → StandsFor buf.old fragments →
        StandsFor buf.new (fragments ++ fragment offset more_fragments payload.now ∷ []) }
{
    match buf.add(offset, more_fragments, payload) {
        Ok(()) => {}
        Err(_) => {}
    }
}

/// What datagram the fragments are depends only on which of them came, not on their order, nor on
/// how often each came, nor on those that are refused.
#[tactic(auto, using(crate::proofs::Arrivals::held_same, crate::proofs::Arrivals::conflict_same))]
pub fn order_law()
    ensures whole { (xs ys : List F) → HaveSameRight xs ys → (datagram : List ℕ) →
        HoldDatagram xs datagram → HoldDatagram ys datagram }
    ensures discarded { (xs ys : List F) → HaveSameRight xs ys → HaveConflict xs → HaveConflict ys }
{}

/// They are one datagram at most.
pub fn one_law()
    ensures one { (xs : List F) → (datagram other : List ℕ) →
        HoldDatagram xs datagram → HoldDatagram xs other → datagram ≡ other }
{}

/// They are none if two of them contradict each other.
#[tactic(auto, using(crate::proofs::Arrivals::not_held))]
pub fn conflict_law()
    ensures none { (xs : List F) → HaveConflict xs → (datagram : List ℕ) →
        ¬ HoldDatagram xs datagram }
{}
