//! Packets that are added to a pool, and packets that are taken from it.

ghost use Rattle.std.specs.Prelude.{ℕ, ◌≡◌, ◌<◌, IfSome, IsFalse, IsTrue, List, Option, length};
ghost use Rattle.std.specs.Prelude.{Some, option_map};
ghost use Rattle.packet_reassembly.specs.ErrorText.{ip_defrag_packet_error_text};
ghost use Rattle.packet_reassembly.specs.HeaderChain.{HasWholeChain, LacksChain};
ghost use Rattle.packet_reassembly.specs.IpFragment.{IsNoFragment};
ghost use Rattle.packet_reassembly.specs.PacketAdded.{HasShortHeaders, IsFirstOfIpv6, headers_of};
ghost use Rattle.packet_reassembly.specs.PacketAdded.{IsPacketAdded, RefusesPacket};
ghost use Rattle.packet_reassembly.specs.declared.ip_defrag_packet.IpDefragPacketError.{IpDefragPacketError as Refused};
ghost use Rattle.packet_reassembly.specs.declared.ip_defrag_pool.Added.{Added as What};
ghost use Rattle.packet_reassembly.specs.declared.ip_defrag_pool.IpDefragSlot.{IpDefragSlot as Slot};

use crate::fragment_ecn::FragmentEcn;
use crate::header_chain::has_whole_chain;
use crate::ip_defrag_error::IpDefragError;
use crate::ip_defrag_headers::IpDefragHeaders;
use crate::ip_defrag_pool::{Added, IpDefragPool, IpDefragSlot, add_to};
use crate::ip_frag_id::{IpFragId, IpFragVersionSpecId};
use crate::ip_fragment_slice::{IpFragmentSlice, ip_fragment};
use etherparse::err::ValueTooBigError;
use packet_parts::ip_slice::IpSliceError;
use std::error::Error;
use std::fmt;

/// Why a packet is not added to a pool.
#[derive(Debug, Drop)]
pub enum IpDefragPacketError {
    /// It is no IP packet, or not all of it is there, or it is one of IPv6 that ends within an
    /// extension header with no fragment header before it that is not atomic.
    Packet(IpSliceError),
    /// It is the first fragment of an IPv6 packet, and lacks a part of the header chain (RFC 7112
    /// section 5): after its fragment header it ends within an extension header, or within the
    /// header of the upper layer, or it has the fragment header of a later fragment.
    HeaderChain,
    /// It is the first fragment of a datagram, and its headers are longer than
    /// [`IpDefragHeaders::MAX_LEN`].
    HeadersTooLong {
        /// Their length in bytes.
        len: usize,
    },
    /// It is a fragment that no datagram can have.
    Fragment(IpDefragError),
}

impl fmt::Display for IpDefragPacketError {
    ghost output = { λ error. Some (ip_defrag_packet_error_text error) };

    fn fmt<W: fmt::Write>(&self, f: &mut fmt::Formatter<W>) -> fmt::Result {
        match self {
            IpDefragPacketError::Packet(e) => fmt::Display::fmt(e, f),
            IpDefragPacketError::HeaderChain => f.write_str(
                "IPv6 Fragment Error: The first fragment lacks a part of the header chain.",
            ),
            &IpDefragPacketError::HeadersTooLong { len } => write!(
                f,
                "IP Fragment Error: The headers of the first fragment have {len} bytes, and there is room for 1280."
            ),
            IpDefragPacketError::Fragment(e) => fmt::Display::fmt(e, f),
        }
    }
}

impl Error for IpDefragPacketError {}

impl<'a, 'b> IpDefragPool<'a, 'b> {
    ghost use Rattle.std.specs.Prelude.{ℕ, ◌≡◌, ◌<◌, ◌≤◌, IfErr, IfNone, IfOk, IfSome, IsSome, List};
    ghost use Rattle.std.specs.Prelude.{OnErr, drop, length, take};
    ghost use Rattle.packet_reassembly.specs.Fragment.{IsWhole};
    ghost use Rattle.packet_reassembly.specs.IpFragment.{IsNoFragment};
    ghost use Rattle.packet_reassembly.specs.PacketAdded.{HasErrorOfPacket, HasNoPacket};
    ghost use Rattle.packet_reassembly.specs.PacketAdded.{HasTooLongPacket};
    ghost use Rattle.packet_reassembly.specs.PacketAdded.{IsPacketAdded, IsPacketIn, RefusesPacket};
    ghost use Rattle.packet_reassembly.specs.Pool.{HasFirstHeaders, HaveFirstHeaders, slot_at};

    /// Adds the fragment that an IP packet is, in the VLANs that it came in, as
    /// [`IpDefragPool::add`] adds it. `None` if the packet is no fragment: then nothing changes, and
    /// the packet is whole. What follows the packet, as the padding of a frame, does not count.
    ///
    /// The slot keeps the headers of the first fragment at offset 0 that comes of its datagram. Of a
    /// later copy they can differ, as in the time to live, and do not count. But the ECN codepoint of
    /// each fragment counts, also that of an exact duplicate: if one has `CE` and another `Not-ECT`,
    /// the datagram is discarded for good (RFC 3168 section 5.3).
    ///
    /// The pool has to have at least one slot. Once the datagram is complete,
    /// [`IpDefragPool::write_packet`] writes its packet.
    ///
    /// # Errors
    ///
    /// In this order: `Packet` with the error of [`ip_fragment`]; `HeaderChain`; `HeadersTooLong`;
    /// `Fragment` with the error of [`IpDefragPool::add`]. Each depends on the packet alone, and
    /// nothing changes.
    ///
    /// # Example
    ///
    /// ```
    /// let mut headers = [0; IpDefragHeaders::MAX_LEN];
    /// let mut bytes = [0; IpDefragBuf::MAX_LEN];
    /// let mut units = [0; IpDefragBuf::UNITS];
    /// let mut slots = [IpDefragSlot {
    ///     id: None,
    ///     ecn: FragmentEcn::NONE,
    ///     since: 0,
    ///     headers: IpDefragHeaders::new(&mut headers),
    ///     buf: IpDefragBuf::new(&mut bytes, &mut units),
    /// }];
    /// let mut pool = IpDefragPool {
    ///     slots: &mut slots,
    ///     timeout: IpDefragPool::TIMEOUT_SECONDS,
    /// };
    /// // Two fragments of an IPv4 packet, of 8 bytes and of 5.
    /// let first = [
    ///     0x45, 0, 0, 28, 0x12, 0x34, 0x20, 0, 64, 17, 0, 0, 192, 168, 0, 1, 192, 168, 0, 199, b't',
    ///     b'h', b'i', b'r', b't', b'e', b'e', b'n',
    /// ];
    /// let last = [
    ///     0x45, 0, 0, 25, 0x12, 0x34, 0, 1, 64, 17, 0, 0, 192, 168, 0, 1, 192, 168, 0, 199, b'b',
    ///     b'y', b't', b'e', b's',
    /// ];
    /// let mut added = Added {
    ///     slot: 0,
    ///     state: DatagramState::Incomplete,
    ///     given_up: None,
    /// };
    /// assert!(rt; pool.add_packet(&last, None, None, 0)? == Some(added));
    /// added.state = DatagramState::Complete;
    /// assert!(rt; pool.add_packet(&first, None, None, 1)? == Some(added));
    /// assert!(rt; pool.slots[0].buf.datagram() == Some(b"thirteenbytes".as_slice()));
    /// // The packet, with the header of the first fragment.
    /// let mut out = [0; 65575];
    /// assert!(rt; pool.write_packet(0, &mut out)? == Some(33));
    /// let packet = [
    ///     0x45, 0, 0, 33, 0x12, 0x34, 0, 0, 64, 17, 0xe6, 0x7f, 192, 168, 0, 1, 192, 168, 0, 199,
    ///     b't', b'h', b'i', b'r', b't', b'e', b'e', b'n', b'b', b'y', b't', b'e', b's',
    /// ];
    /// assert!(rt; &out[..33] == packet.as_slice());
    /// ```
    pub fn add_packet(
        &mut self,
        packet: &[u8],
        outer_vlan_id: Option<u16>,
        inner_vlan_id: Option<u16>,
        now: u64,
    ) -> Result<Option<Added>, IpDefragPacketError>
        requires some { 0 < length self.old.slots.now }
        ensures added { IfOk result (λ found. IfSome found (IsPacketAdded self.old.slots.now
            packet.now outer_vlan_id inner_vlan_id self.old.timeout now self.new.slots.now)) }
        ensures none { IfOk result (λ found. IfNone found (IsNoFragment packet.now)) }
        ensures kept { IfOk result (λ found.
            IfNone found (self.new.slots.now ≡ self.old.slots.now)) }
        ensures refused { IfErr result (RefusesPacket packet.now) }
        ensures unchanged { OnErr result (self.new.slots.now ≡ self.old.slots.now) }
        ensures headers { HaveFirstHeaders self.old.slots.now →
            HaveFirstHeaders self.new.slots.now }
        ensures timeout { self.new.timeout ≡ self.old.timeout }
        ensures same_reference { self.new.slots.ghost_name ≡ self.old.slots.ghost_name }
    {
        let fragment = match ip_fragment(packet) {
            Ok(Some(fragment)) => fragment,
            Ok(None) => return Ok(None),
            Err(e) => return Err(IpDefragPacketError::Packet(e)),
        };
        if lacks_chain(&fragment) {
            return Err(IpDefragPacketError::HeaderChain);
        }
        if has_long_headers(&fragment) {
            return Err(IpDefragPacketError::HeadersTooLong {
                len: fragment.headers.len(),
            });
        }
        let id = IpFragId {
            outer_vlan_id,
            inner_vlan_id,
            ip: fragment.ip,
        };
        let timeout = self.timeout;
        let slots = &mut *self.slots;
        match add_to(
            slots,
            id,
            timeout,
            now,
            fragment.offset,
            fragment.more_fragments,
            fragment.payload,
            first_of(&fragment),
            FragmentEcn::of(fragment.ecn),
        ) {
            Ok(added) => Ok(Some(added)),
            Err(e) => Err(IpDefragPacketError::Fragment(e)),
        }
    }

    /// Writes the packet of the datagram in the slot at an index, as [`IpDefragSlot::write_packet`]
    /// does: the pool has to have that slot, and `out` at least 65575 bytes. The slots do not
    /// change: release this one when the packet is done with.
    ///
    /// # Errors
    ///
    /// Those of [`IpDefragSlot::write_packet`].
    pub fn write_packet(
        &mut self,
        slot: usize,
        out: &mut [u8],
    ) -> Result<Option<usize>, ValueTooBigError<usize>>
        requires within { slot < length self.old.slots.now }
        requires room { 65575 ≤ length out.old }
        ensures packet { IfOk result (λ found. IfSome found (λ len.
            IsPacketIn (slot_at self.old.slots.now slot) (take len out.new))) }
        ensures within { IfOk result (λ found. IfSome found (λ len. len ≤ length out.new)) }
        ensures after { IfOk result (λ found. IfSome found (λ len.
            drop len out.new ≡ drop len out.old)) }
        ensures none { IfOk result (λ found.
            IfNone found (HasNoPacket (slot_at self.old.slots.now slot))) }
        ensures refused { IfErr result (λ e. HasTooLongPacket (slot_at self.old.slots.now slot)) }
        ensures error { IfErr result (HasErrorOfPacket (slot_at self.old.slots.now slot)) }
        ensures some { HasFirstHeaders (slot_at self.old.slots.now slot) → (datagram : List ℕ) →
            IsWhole (slot_at self.old.slots.now slot).buf datagram → IfOk result IsSome }
        ensures unchanged { OnErr result (out.new ≡ out.old) }
        ensures nothing { IfOk result (λ found. IfNone found (out.new ≡ out.old)) }
        ensures slots { self.new.slots.now ≡ self.old.slots.now }
        ensures timeout { self.new.timeout ≡ self.old.timeout }
        ensures same_reference { self.new.slots.ghost_name ≡ self.old.slots.ghost_name }
    {
        let slots = &mut *self.slots;
        let slots = &*slots;
        let slot = &slots[slot];
        slot.write_packet(out)
    }
}

impl<'a> IpDefragSlot<'a> {
    ghost use Rattle.std.specs.Prelude.{ℕ, ◌≡◌, ◌≤◌, IfErr, IfNone, IfOk, IfSome, IsSome, List};
    ghost use Rattle.std.specs.Prelude.{OnErr, drop, length, take};
    ghost use Rattle.packet_reassembly.specs.Fragment.{IsWhole};
    ghost use Rattle.packet_reassembly.specs.PacketAdded.{HasErrorOfPacket, HasNoPacket};
    ghost use Rattle.packet_reassembly.specs.PacketAdded.{HasTooLongPacket, IsPacketIn};
    ghost use Rattle.packet_reassembly.specs.Pool.{HasFirstHeaders};

    /// Writes the packet of the datagram that has the slot, as [`IpDefragHeaders::write_packet`]
    /// does, with `CE` if any fragment had it (RFC 3168 section 5.3). `out` has to have at least
    /// 65575 bytes. Returns the length of the packet in bytes; `None` if the datagram is not
    /// complete, or if no fragment of it at offset 0 came by [`IpDefragPool::add_packet`].
    ///
    /// # Errors
    ///
    /// A `ValueTooBigError` if the datagram is complete, and its packet would be longer than its
    /// total length or its payload length can say. Nothing is written.
    pub fn write_packet(&self, out: &mut [u8]) -> Result<Option<usize>, ValueTooBigError<usize>>
        requires room { 65575 ≤ length out.old }
        ensures packet { IfOk result (λ found. IfSome found (λ len.
            IsPacketIn self.now (take len out.new))) }
        ensures within { IfOk result (λ found. IfSome found (λ len. len ≤ length out.new)) }
        ensures after { IfOk result (λ found. IfSome found (λ len.
            drop len out.new ≡ drop len out.old)) }
        ensures none { IfOk result (λ found. IfNone found (HasNoPacket self.now)) }
        ensures refused { IfErr result (λ e. HasTooLongPacket self.now) }
        ensures error { IfErr result (HasErrorOfPacket self.now) }
        ensures some { HasFirstHeaders self.now → (datagram : List ℕ) →
            IsWhole self.now.buf datagram → IfOk result IsSome }
        ensures unchanged { OnErr result (out.new ≡ out.old) }
        ensures nothing { IfOk result (λ found. IfNone found (out.new ≡ out.old)) }
    {
        match self.buf.datagram() {
            Some(datagram) => self.headers.write_packet(self.ecn, datagram, out),
            None => Ok(None),
        }
    }
}

// Whether a fragment is the first of its datagram, and there is no room for its headers.
fn has_long_headers(fragment: &IpFragmentSlice) -> bool
    ensures first { IsTrue result → fragment.now.offset ≡ 0 }
    ensures long { IsTrue result → 1280 < length fragment.now.headers.now }
    ensures short { IsFalse result → HasShortHeaders fragment.now }
{
    fragment.offset.value() == 0 && fragment.headers.len() > IpDefragHeaders::MAX_LEN
}

// The fragment, if it is the first of its datagram.
fn first_of<'a, 'b>(fragment: &'b IpFragmentSlice<'a>) -> Option<&'b IpFragmentSlice<'a>>
    ensures headers { option_map (λ f. f.now.headers.now) result ≡ headers_of fragment.now }
    ensures same { IfSome result (λ f. f.now ≡ fragment.now) }
{
    if fragment.offset.value() == 0 {
        return Some(fragment);
    }
    None
}

// Whether a fragment has to have the whole header chain, and lacks a part of it.
fn lacks_chain(fragment: &IpFragmentSlice) -> bool
    ensures first { IsTrue result → IsFirstOfIpv6 fragment.now }
    ensures lacks { IsTrue result → LacksChain fragment.now.next_header fragment.now.payload.now }
    ensures whole { IsFalse result → IsFirstOfIpv6 fragment.now →
        HasWholeChain fragment.now.next_header fragment.now.payload.now }
{
    match fragment.ip {
        IpFragVersionSpecId::Ipv6 { .. } if fragment.offset.value() == 0 => {
            !has_whole_chain(fragment.next_header, fragment.payload)
        }
        _ => false,
    }
}

/// A packet has one answer: it is added, or it is no fragment, or it is refused for one reason.
pub fn packet_law()
    ensures one_reason { (packet : List ℕ) → (e other : Refused) → RefusesPacket packet e →
        RefusesPacket packet other → e ≡ other }
    ensures refused_or_whole { (packet : List ℕ) → (e : Refused) → RefusesPacket packet e →
        ¬ IsNoFragment packet }
    ensures refused_or_added { (old new : List Slot) → (packet : List ℕ) →
        (outer inner : Option ℕ) → (timeout now : ℕ) → (added : What) → (e : Refused) →
        IsPacketAdded old packet outer inner timeout now new added → ¬ RefusesPacket packet e }
    ensures whole_or_added { (old new : List Slot) → (packet : List ℕ) →
        (outer inner : Option ℕ) → (timeout now : ℕ) → (added : What) →
        IsPacketAdded old packet outer inner timeout now new added → ¬ IsNoFragment packet }
{}
