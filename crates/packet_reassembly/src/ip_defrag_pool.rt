//! Many datagrams at once, in slots that the caller lends.

ghost use Rattle.std.specs.Prelude.{ℕ, ◌≡◌, ◌≢◌, ◌<◌, ◌≤◌, ◌+◌, ◌↔◌, ◌⊎◌, [], IfNone, IfSome};
ghost use Rattle.std.specs.Prelude.{IfErr, IfOk, OnErr, OnOk, IsTrue, None, Some, length};
ghost use Rattle.std.specs.Prelude.{option_map};
ghost use Rattle.std.specs.Option.{option_or};
ghost use Rattle.packet_reassembly.specs.Pool.{AreSameBut, Begins, GoesOn, Has, HasFirst};
ghost use Rattle.packet_reassembly.specs.Pool.{HaveFirstHeaders};
ghost use Rattle.packet_reassembly.specs.Pool.{IsAdded, IsExpired, IsFree, IsPlaced, IsState};
ghost use Rattle.packet_reassembly.specs.Pool.{OthersStay, TakesWith, slot_at};
ghost use Rattle.packet_reassembly.specs.Ecn.{ecn_with, no_ecn};
ghost use Rattle.packet_reassembly.specs.Fragment.{IsRight, fragment};
ghost use Rattle.packet_reassembly.specs.Headers.{HasHeaders};
ghost use Rattle.packet_reassembly.specs.Refusal.{Refuses};

use crate::fragment_ecn::FragmentEcn;
use crate::ip_defrag_buf::{IpDefragBuf, range_of};
use crate::ip_defrag_error::IpDefragError;
use crate::ip_defrag_headers::IpDefragHeaders;
use crate::ip_frag_id::IpFragId;
use crate::ip_fragment_slice::IpFragmentSlice;
use etherparse::IpFragOffset;

/// The memory of one datagram, and which one has it.
#[derive(Drop)]
pub struct IpDefragSlot<'a> {
    /// The datagram that has it; `None` if none has.
    pub id: Option<IpFragId>,
    /// The ECN codepoints of those of its fragments that came by [`IpDefragPool::add_packet`] and were
    /// not refused (RFC 3168 section 5.3).
    pub ecn: FragmentEcn,
    /// When its first-arriving fragment came, by the caller's clock.
    pub since: u64,
    /// The headers of the first fragment of it that came by [`IpDefragPool::add_packet`] and is at
    /// offset 0.
    pub headers: IpDefragHeaders<'a>,
    /// What has come of it.
    pub buf: IpDefragBuf<'a>,
}

/// What is known of a datagram.
#[derive(Clone, Copy, Debug, PartialEq, Eq)]
pub enum DatagramState {
    /// Not all of it has come.
    Incomplete,
    /// All of it has come.
    Complete,
    /// Two of its fragments contradict each other, or one has the ECN codepoint `CE` and another
    /// `Not-ECT` (RFC 3168 section 5.3).
    Discarded,
}

/// What became of a fragment.
#[derive(Clone, Copy, Debug, PartialEq, Eq)]
pub struct Added {
    /// The slot of its datagram.
    pub slot: usize,
    /// What is known of the datagram.
    pub state: DatagramState,
    /// The datagram that was given up for it: the oldest, if no slot was left, or an older one with
    /// the same id, after the timeout.
    pub given_up: Option<IpFragId>,
}

/// Many datagrams at once, in slots that the caller lends. Once the pool is dropped, they are what
/// it left, and another can go on with them: each call says so by `same_reference`.
///
/// # Example
///
/// ```
/// // Two datagrams from 192.168.0.1 to 192.168.0.199.
/// let id_of = |identification| IpFragId {
///     outer_vlan_id: None,
///     inner_vlan_id: None,
///     ip: IpFragVersionSpecId::Ipv4 {
///         source: [192, 168, 0, 1],
///         destination: [192, 168, 0, 199],
///         protocol: 17,
///         identification,
///     },
/// };
/// let (id, other) = (id_of(1), id_of(2));
/// let mut bytes = [0; IpDefragBuf::MAX_LEN];
/// let mut units = [0; IpDefragBuf::UNITS];
/// let mut headers = [0; IpDefragHeaders::MAX_LEN];
/// let mut slots = [IpDefragSlot {
///     id: None,
///     ecn: FragmentEcn::NONE,
///     since: 0,
///     headers: IpDefragHeaders::new(&mut headers),
///     buf: IpDefragBuf::new(&mut bytes, &mut units),
/// }];
/// let mut pool = IpDefragPool {
///     slots: &mut slots,
///     timeout: IpDefragPool::TIMEOUT_SECONDS,
/// };
/// let added = pool.add(id, IpFragOffset::ZERO, true, b"thirteen", 0)?;
/// assert!(rt; added.state == DatagramState::Incomplete && added.given_up.is_none());
/// let added = pool.add(id, IpFragOffset::try_new(1)?, false, b"bytes", 59)?;
/// assert!(rt; added.state == DatagramState::Complete);
/// assert!(rt; pool.slots[added.slot].buf.datagram() == Some(b"thirteenbytes".as_slice()));
/// // Another datagram takes the only slot.
/// let added = pool.add(other, IpFragOffset::ZERO, true, b"thirteen", 60)?;
/// assert!(rt; added.given_up == Some(id));
/// ```
#[derive(Drop)]
pub struct IpDefragPool<'a, 'b> {
    /// The slots: at least one.
    pub slots: &'a mut [IpDefragSlot<'b>],
    /// How long a datagram is kept after its first-arriving fragment, in ticks of the caller's
    /// clock: [`IpDefragPool::TIMEOUT_SECONDS`], if those are seconds.
    pub timeout: u64,
}

impl<'a, 'b> IpDefragPool<'a, 'b> {
    /// How long RFC 8200 section 4.5 has a datagram kept, in seconds: 60. For IPv4 it is the least
    /// that RFC 1122 section 3.3.2 recommends.
    pub const TIMEOUT_SECONDS: u64 = 60;

    /// Adds a fragment to its datagram. If no datagram has this id, one begins in the first free
    /// slot, or else in that of the oldest datagram, the first of equally old ones. A datagram as
    /// old as the timeout, or older, is given up when a fragment with its id comes. The other slots
    /// do not change. The pool has to have at least one slot.
    ///
    /// No headers are kept, and no ECN codepoint counts: if the fragment at offset 0 comes only
    /// this way, [`IpDefragPool::write_packet`] finds no packet.
    ///
    /// # Errors
    ///
    /// Those of [`IpDefragBuf::add`]. Nothing changes.
    pub fn add(
        &mut self,
        id: IpFragId,
        offset: IpFragOffset,
        more_fragments: bool,
        payload: &[u8],
        now: u64,
    ) -> Result<Added, IpDefragError>
        requires some { 0 < length self.old.slots.now }
        ensures added { IfOk result (λ added. IsAdded self.old.slots.now id self.old.timeout now
            (fragment offset more_fragments payload.now) None no_ecn added self.new.slots.now) }
        ensures others { IfOk result (λ added.
            OthersStay self.old.slots.now id added.given_up self.new.slots.now) }
        ensures right { OnOk result (IsRight (fragment offset more_fragments payload.now)) }
        ensures refused { IfErr result (Refuses (fragment offset more_fragments payload.now)) }
        ensures unchanged { OnErr result (self.new.slots.now ≡ self.old.slots.now) }
        ensures timeout { self.new.timeout ≡ self.old.timeout }
        ensures same_reference { self.new.slots.ghost_name ≡ self.old.slots.ghost_name }
    {
        let timeout = self.timeout;
        let slots = &mut *self.slots;
        let first = None;
        add_to(
            slots,
            id,
            timeout,
            now,
            offset,
            more_fragments,
            payload,
            first,
            FragmentEcn::NONE,
        )
    }

    /// Takes the slot at an index from its datagram; the pool has to have that slot. What has come
    /// of the datagram stays until another one takes the slot.
    #[tactic(auto, using(crate::proofs::FirstHeaders::released_have))]
    pub fn release(&mut self, slot: usize)
        requires within { slot < length self.old.slots.now }
        ensures others { AreSameBut slot self.old.slots.now self.new.slots.now }
        ensures free { slot_at self.new.slots.now slot
            ≡ record (slot_at self.old.slots.now slot) { id = None } }
        ensures headers { HaveFirstHeaders self.old.slots.now →
            HaveFirstHeaders self.new.slots.now }
        ensures timeout { self.new.timeout ≡ self.old.timeout }
        ensures same_reference { self.new.slots.ghost_name ≡ self.old.slots.ghost_name }
    {
        let slots = &mut *self.slots;
        release_at(slots, slot);
    }
}

const _: () = prove!(IpDefragPool::TIMEOUT_SECONDS == 60);

// Takes the slot at an index from its datagram.
fn release_at(slots: &mut [IpDefragSlot], k: usize)
    requires within { k < length slots.old }
    ensures others { AreSameBut k slots.old slots.new }
    ensures free { slot_at slots.new k ≡ record (slot_at slots.old k) { id = None } }
{
    let slot = &mut slots[k];
    slot.id = None;
}

// Whether the datagram with this id has the slot.
fn has(slot: &IpDefragSlot, id: IpFragId) -> bool
    ensures has { IsTrue result ↔ (slot.now.id ≡ Some id) }
{
    slot.id == Some(id)
}

// The first slot that a datagram has.
fn find(slots: &[IpDefragSlot], id: IpFragId) -> Option<usize>
    ensures found { IfSome result (λ k. HasFirst slots.now k id) }
    ensures none { IfNone result ((k : ℕ) → ¬ Has slots.now k id) }
{
    slots.iter().position(|slot| has(slot, id))
}

// The slot for a new datagram.
fn free(slots: &[IpDefragSlot]) -> usize
    requires some { 0 < length slots.now }
    ensures free { IsFree slots.now result }
{
    let mut oldest = 0;
    let mut k = 0;
    while k < slots.len() {
        if slots[k].id.is_none() {
            return k;
        }
        if slots[k].since < slots[oldest].since {
            oldest = k;
        }
        k += 1;
    }
    oldest
}

// Takes a slot for a datagram. Returns the one that had it.
fn take(slot: &mut IpDefragSlot, id: IpFragId, now: u64) -> Option<IpFragId>
    ensures id { slot.new.id ≡ Some id }
    ensures since { slot.new.since ≡ now }
    ensures headers { slot.new.headers ≡ None }
    ensures ecn { slot.new.ecn ≡ no_ecn }
    ensures empty { slot.new.buf ≡ Some [] }
    ensures given_up { result ≡ slot.old.id }
{
    let given_up = slot.id;
    slot.id = Some(id);
    slot.since = now;
    slot.headers.clear();
    slot.ecn = FragmentEcn::NONE;
    slot.buf.clear();
    given_up
}

/// The state of a datagram.
fn state_of(buf: &IpDefragBuf) -> DatagramState
    ensures state { IsState buf.now result }
{
    if buf.is_discarded() {
        return DatagramState::Discarded;
    }
    match buf.datagram() {
        Some(_) => DatagramState::Complete,
        None => DatagramState::Incomplete,
    }
}

// Whether the datagram in a slot is to be given up.
fn is_expired(slot: &IpDefragSlot, timeout: u64, now: u64) -> bool
    ensures expired { IsTrue result ↔ IsExpired slot.now timeout now }
{
    now >= slot.since && now - slot.since >= timeout
}

// Takes the slot at an index for a datagram. Returns the one that had it.
fn take_at(slots: &mut [IpDefragSlot], k: usize, id: IpFragId, now: u64) -> Option<IpFragId>
    requires within { k < length slots.old }
    ensures others { AreSameBut k slots.old slots.new }
    ensures id { (slot_at slots.new k).id ≡ Some id }
    ensures since { (slot_at slots.new k).since ≡ now }
    ensures headers { (slot_at slots.new k).headers ≡ None }
    ensures ecn { (slot_at slots.new k).ecn ≡ no_ecn }
    ensures empty { (slot_at slots.new k).buf ≡ Some [] }
    ensures given_up { result ≡ (slot_at slots.old k).id }
{
    let slot = &mut slots[k];
    take(slot, id, now)
}

// The slot for a datagram: that which it has, or one that it takes.
fn place(
    slots: &mut [IpDefragSlot],
    id: IpFragId,
    timeout: u64,
    now: u64,
) -> (usize, Option<IpFragId>)
    requires some { 0 < length slots.old }
    ensures placed { IsPlaced slots.old id timeout now result.0 result.1 slots.new }
{
    if let Some(k) = find(slots, id) {
        if is_expired(&slots[k], timeout, now) {
            return (k, take_at(slots, k, id, now));
        }
        return (k, None);
    }
    let k = free(slots);
    (k, take_at(slots, k, id, now))
}

// Adds a fragment that a datagram can have, whose fragments then have these ECN codepoints.
fn add_with(
    buf: &mut IpDefragBuf,
    ecn: FragmentEcn,
    offset: IpFragOffset,
    more_fragments: bool,
    payload: &[u8],
)
    requires right { IsRight (fragment offset more_fragments payload.now) }
    ensures takes { TakesWith ecn buf.old (fragment offset more_fragments payload.now) buf.new }
{
    if ecn.is_dropped() {
        buf.discard();
        return;
    }
    match buf.add(offset, more_fragments, payload) {
        Ok(()) => {}
        Err(_) => unreachable!(), // A datagram can have it.
    }
}

// Adds a fragment that a datagram can have to the datagram in the slot at an index, with its ECN
// codepoint, and keeps the headers that the first one brings.
fn add_at(
    slots: &mut [IpDefragSlot],
    k: usize,
    offset: IpFragOffset,
    more_fragments: bool,
    payload: &[u8],
    first: Option<&IpFragmentSlice>,
    ecn: FragmentEcn,
) -> DatagramState
    requires within { k < length slots.old }
    requires right { IsRight (fragment offset more_fragments payload.now) }
    requires first { IfSome first (λ f. HasHeaders f.now) }
    ensures others { AreSameBut k slots.old slots.new }
    ensures id { (slot_at slots.new k).id ≡ (slot_at slots.old k).id }
    ensures since { (slot_at slots.new k).since ≡ (slot_at slots.old k).since }
    ensures headers { (slot_at slots.new k).headers
        ≡ option_or (slot_at slots.old k).headers (option_map (λ f. f.now.headers.now) first.entry) }
    ensures ecn { (slot_at slots.new k).ecn ≡ ecn_with (slot_at slots.old k).ecn ecn }
    ensures takes { TakesWith (slot_at slots.new k).ecn (slot_at slots.old k).buf
        (fragment offset more_fragments payload.now) (slot_at slots.new k).buf }
    ensures state { IsState (slot_at slots.new k).buf result }
{
    let slot = &mut slots[k];
    if let Some(fragment) = first {
        slot.headers.keep(fragment);
    }
    let ecn = slot.ecn.with(ecn);
    slot.ecn = ecn;
    let buf = &mut slot.buf;
    add_with(buf, ecn, offset, more_fragments, payload);
    state_of(buf)
}

/// Adds a fragment to its datagram, with its ECN codepoint, and the headers that the first one
/// brings.
pub(crate) fn add_to(
    slots: &mut [IpDefragSlot],
    id: IpFragId,
    timeout: u64,
    now: u64,
    offset: IpFragOffset,
    more_fragments: bool,
    payload: &[u8],
    first: Option<&IpFragmentSlice>,
    ecn: FragmentEcn,
) -> Result<Added, IpDefragError>
    requires some { 0 < length slots.old }
    requires first { IfSome first (λ f. HasHeaders f.now) }
    ensures added { IfOk result (λ added. IsAdded slots.old id timeout now
        (fragment offset more_fragments payload.now) (option_map (λ f. f.now.headers.now) first.entry) ecn
        added slots.new) }
    ensures others { IfOk result (λ added. OthersStay slots.old id added.given_up slots.new) }
    ensures right { OnOk result (IsRight (fragment offset more_fragments payload.now)) }
    ensures refused { IfErr result (Refuses (fragment offset more_fragments payload.now)) }
    ensures unchanged { OnErr result (slots.new ≡ slots.old) }
{
    if let Err(e) = range_of(offset, more_fragments, payload) {
        return Err(e);
    }
    let (slot, given_up) = place(slots, id, timeout, now);
    let state = add_at(slots, slot, offset, more_fragments, payload, first, ecn);
    Ok(Added {
        slot,
        state,
        given_up,
    })
}
