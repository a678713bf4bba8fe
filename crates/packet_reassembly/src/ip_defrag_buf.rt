//! The fragments of one datagram, put together in memory that the caller lends.

ghost use Rattle.std.specs.Prelude.{ℕ, ◌≡◌, ◌≤◌, ◌↔◌, ◌+◌, ◌*◌, List, [], Contains, IsTrue, length};
ghost use Rattle.std.specs.Prelude.{Some, None, IfErr, IfNone, IfOk, IfSome, OnErr, OnOk};
ghost use Rattle.packet_reassembly.specs.Fragment.{Fragment as F, IsRight, IsWhole, Takes, fragment};
ghost use Rattle.packet_reassembly.specs.Fragment.{units_of};
ghost use Rattle.packet_reassembly.specs.Refusal.{Refuses};
ghost use Rattle.packet_reassembly.specs.Table.{Fits, fragment_of};

use crate::ip_defrag_error::IpDefragError;
use crate::ip_frag_range::IpFragRange;
use crate::table::{Arrival, Extent, arrival_of, clear, keep};
use etherparse::IpFragOffset;
use std::marker::Model;

/// The fragments that have come of one datagram, in memory that the caller lends.
///
/// # Example
///
/// ```
/// let mut bytes = [0; IpDefragBuf::MAX_LEN];
/// let mut units = [0; IpDefragBuf::UNITS];
/// let mut buf = IpDefragBuf::new(&mut bytes, &mut units);
/// // The second fragment, the first, and the second again.
/// buf.add(IpFragOffset::try_new(1)?, false, b"bytes")?;
/// assert!(rt; buf.datagram().is_none());
/// buf.add(IpFragOffset::ZERO, true, b"thirteen")?;
/// buf.add(IpFragOffset::try_new(1)?, false, b"bytes")?;
/// assert!(rt; buf.datagram() == Some(b"thirteenbytes".as_slice()));
/// // One that overlaps the first and has other bytes.
/// buf.add(IpFragOffset::ZERO, true, b"nineteen")?;
/// assert!(rt; buf.is_discarded() && buf.datagram().is_none());
/// ```
#[derive(Drop)]
pub struct IpDefragBuf<'a> {
    bytes: &'a mut [u8],
    units: &'a mut [u8],
    extent: Extent,
    discarded: bool,
}

impl<'a> Model for IpDefragBuf<'a> {
    ghost use Rattle.std.specs.Prelude.{List, Option};
    ghost use Rattle.packet_reassembly.specs.Fragment.{Fragment};

    ghost Value = { Option (List Fragment) };

    ghost use Rattle.packet_reassembly.specs.Table.{AreKept, kept};

    ghost view = { λ s. kept s.discarded s.bytes.now s.units.now s.extent };

    ghost invariant = { λ s. AreKept s.bytes.now s.units.now s.extent };
}

impl<'a> IpDefragBuf<'a> {
    /// The memory that a datagram takes, in bytes: 65535.
    pub const MAX_LEN: usize = 65535;

    /// The memory that its table takes, in bytes: 8192, one for each 8 bytes of the datagram.
    pub const UNITS: usize = 8192;

    /// A datagram of which nothing has come. `bytes` has to have at least [`IpDefragBuf::MAX_LEN`]
    /// bytes, and `units` at least [`IpDefragBuf::UNITS`]; what they hold makes no difference.
    #[tactic(auto, using(crate::proofs::TableLaws::held_none, crate::proofs::TableLaws::table_none))]
    pub fn new(bytes: &'a mut [u8], units: &'a mut [u8]) -> IpDefragBuf<'a>
        requires bytes { 65535 ≤ length bytes.old }
        requires units { 8192 ≤ length units.old }
        ensures empty { result ≡ Some [] }
    {
        let len = units.len();
        clear(units, len);
        IpDefragBuf {
            bytes,
            units,
            extent: Extent::NONE,
            discarded: false,
        }
    }

    /// Takes a fragment. An exact duplicate of one that has come changes nothing.
    ///
    /// The datagram is discarded for good if the fragment contradicts one that has come: they
    /// overlap and are not the same (RFC 5722, RFC 8200 section 4.5; of IPv4 too, by choice), or one
    /// goes past the end that the other tells.
    ///
    /// # Errors
    ///
    /// In this order: `Empty`, `UnalignedFragmentPayloadLen`, `SegmentTooBig`. Each depends on the
    /// fragment alone, and nothing changes.
    pub fn add(
        &mut self,
        offset: IpFragOffset,
        more_fragments: bool,
        payload: &[u8],
    ) -> Result<(), IpDefragError>
        ensures taken { OnOk result (Takes self.old (fragment offset more_fragments payload.now)
            self.new) }
        ensures right { OnOk result (IsRight (fragment offset more_fragments payload.now)) }
        ensures refused { IfErr result (Refuses (fragment offset more_fragments payload.now)) }
        ensures unchanged { OnErr result (self.new ≡ self.old) }
    {
        self.add_counted(offset, more_fragments, payload).0
    }

    /// The result of [`IpDefragBuf::add`], and how many entries of the table were read or written,
    /// as the code counts them: at most two for each 8 bytes of the fragment and one more, whatever
    /// has come before. An entry is a byte. For a new fragment that is kept it is exactly that: each
    /// is read once and written once, and the first is written again. For a duplicate it is one for
    /// each 8 bytes and two more, and for a fragment that conflicts with another at most that. None
    /// is read if the datagram was discarded before, or if the fragment is refused. Apart from this
    /// the payload is compared or copied at most once.
    ///
    /// # Errors
    ///
    /// Those of [`IpDefragBuf::add`].
    ///
    /// # Example
    ///
    /// ```
    /// let mut bytes = [0; IpDefragBuf::MAX_LEN];
    /// let mut units = [0; IpDefragBuf::UNITS];
    /// let mut buf = IpDefragBuf::new(&mut bytes, &mut units);
    /// let (added, entries) = buf.add_counted(IpFragOffset::ZERO, true, b"two units of 8b.");
    /// assert!(rt; added.is_ok() && entries == 5);
    /// // A duplicate: the entries of its units, that of the last one again, and the one after it.
    /// let (added, entries) = buf.add_counted(IpFragOffset::ZERO, true, b"two units of 8b.");
    /// assert!(rt; added.is_ok() && entries == 4);
    /// ```
    pub fn add_counted(
        &mut self,
        offset: IpFragOffset,
        more_fragments: bool,
        payload: &[u8],
    ) -> (Result<(), IpDefragError>, usize)
        ensures taken { OnOk result.0 (Takes self.old (fragment offset more_fragments payload.now)
            self.new) }
        ensures right { OnOk result.0 (IsRight (fragment offset more_fragments payload.now)) }
        ensures refused { IfErr result.0 (Refuses (fragment offset more_fragments payload.now)) }
        ensures unchanged { OnErr result.0 (self.new ≡ self.old) }
        ensures entries { OnOk result.0 ((old new : List F) →
            self.old ≡ Some old → self.new ≡ Some new →
            ¬ Contains old (fragment offset more_fragments payload.now) →
            result.1 ≡ 2 * units_of (fragment offset more_fragments payload.now) + 1) }
        ensures entries_of_duplicate { OnOk result.0 ((old new : List F) →
            self.old ≡ Some old → self.new ≡ Some new →
            Contains old (fragment offset more_fragments payload.now) →
            result.1 ≡ units_of (fragment offset more_fragments payload.now) + 2) }
        ensures entries_of_conflict { OnOk result.0 (self.new ≡ None →
            result.1 ≤ units_of (fragment offset more_fragments payload.now) + 2) }
        ensures no_entries_once_discarded { self.old ≡ None → result.1 ≡ 0 }
        ensures no_entries_if_refused { OnErr result.0 (result.1 ≡ 0) }
        ensures few_entries { result.1 ≤ 2 * units_of (fragment offset more_fragments payload.now) + 1 }
    {
        let range = match range_of(offset, more_fragments, payload) {
            Ok(range) => range,
            Err(e) => return (Err(e), 0),
        };
        if self.discarded {
            return (Ok(()), 0);
        }
        let bytes = &mut *self.bytes;
        let units = &mut *self.units;
        let (arrival, read) = arrival_of(bytes, units, self.extent, range, payload);
        match arrival {
            Arrival::New => {
                let (extent, written) = keep(bytes, units, self.extent, range, payload);
                self.extent = extent;
                (Ok(()), read + written)
            }
            Arrival::Same => (Ok(()), read),
            Arrival::Conflict => {
                self.discarded = true;
                (Ok(()), read)
            }
        }
    }

    /// Whether it is discarded: two of the fragments that came contradict each other, or one has the
    /// ECN codepoint `CE` and another `Not-ECT`. No datagram is then found, for good.
    pub fn is_discarded(&self) -> bool
        ensures discarded { IsTrue result ↔ (self.now ≡ None) }
    {
        self.discarded
    }

    /// Discards the datagram for good.
    pub(crate) fn discard(&mut self)
        ensures discarded { self.new ≡ None }
    {
        self.discarded = true;
    }

    /// The datagram, once each of its bytes has come.
    pub fn datagram(&self) -> Option<&[u8]>
        ensures whole { IfSome result (λ datagram. IsWhole self.now datagram.now) }
        ensures not_yet { IfNone result ((datagram : List ℕ) → ¬ IsWhole self.now datagram) }
        ensures only { (datagram : List ℕ) → IsWhole self.now datagram →
            IfSome result (λ found. found.now ≡ datagram) }
    {
        if self.discarded {
            return None;
        }
        if !self.extent.ended || self.extent.units < self.extent.reach.div_ceil(8) {
            return None;
        }
        Some(&self.bytes[..self.extent.reach])
    }

    /// Forgets all that has come.
    pub fn clear(&mut self)
        ensures empty { self.new ≡ Some [] }
    {
        clear(&mut *self.units, self.extent.reach.div_ceil(8));
        self.extent = Extent::NONE;
        self.discarded = false;
    }
}

const _: () = prove!(IpDefragBuf::MAX_LEN == 65535 && IpDefragBuf::UNITS == 8192);

/// The range of a fragment, if a datagram can have it.
pub(crate) fn range_of(
    offset: IpFragOffset,
    more_fragments: bool,
    payload: &[u8],
) -> Result<IpFragRange, IpDefragError>
    ensures range { IfOk result (λ range. Fits range payload.now) }
    ensures same { IfOk result (λ range.
        fragment_of range payload.now ≡ fragment offset more_fragments payload.now) }
    ensures right { OnOk result (IsRight (fragment offset more_fragments payload.now)) }
    ensures refused { IfErr result (Refuses (fragment offset more_fragments payload.now)) }
{
    let payload_len = payload.len();
    if payload.is_empty() {
        return Err(IpDefragError::Empty { offset });
    }
    if more_fragments && payload_len % 8 != 0 {
        return Err(IpDefragError::UnalignedFragmentPayloadLen {
            offset,
            payload_len,
        });
    }
    let start = usize::from(offset.byte_offset());
    if payload_len > IpDefragBuf::MAX_LEN - start {
        return Err(IpDefragError::SegmentTooBig {
            offset,
            payload_len,
            max: u16::MAX,
        });
    }
    Ok(IpFragRange {
        start,
        end: start + payload_len,
        more_fragments,
    })
}
