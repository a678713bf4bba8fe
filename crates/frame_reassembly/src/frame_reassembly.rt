//! Frames whose IP packets are fragments.

ghost use Rattle.std.specs.Prelude.{◌≡◌, ◌≤◌, ◌+◌, ◌-◌, ◌<◌, ◌||◌, ◌↔◌, IfNone, IfSome, IsTrue};
ghost use Rattle.std.specs.Prelude.{List, ℕ, drop, length, map, option_map, take};
ghost use Rattle.std.specs.Option.{is_some};
ghost use Rattle.packet.specs.Vlan.{tags_of};
ghost use Rattle.packet_reassembly.specs.Fragment.{IsWhole};
ghost use Rattle.packet_reassembly.specs.PacketAdded.{HasTooLongPacket, IsPacketIn};
ghost use Rattle.packet_reassembly.specs.Pool.{Has, HaveFirstHeaders, IsState, slot_at};
ghost use Rattle.packet_reassembly.specs.declared.ip_frag_id.IpFragId.{IpFragId};
ghost use Rattle.frame_reassembly.specs.Carrying.{CarriesNone, CarriesPacket, inner_id, outer_id};
ghost use Rattle.frame_reassembly.specs.Known.{known_of};
ghost use Rattle.frame_reassembly.specs.Step.{Follows, HasWrongHeaderChecksum, IsReleased};
ghost use Rattle.frame_reassembly.specs.Step.{TakesFrame, TakesPacket, reassembly_timeout};

use crate::datagrams::Datagrams;
use arrayvec::ArrayVec;
use etherparse::Ipv4HeaderSlice;
use etherparse::checksum::u64_16bit_word;
use packet::link::LinkType;
use packet::link_layers::LinkLayers;
use packet::vlan::VlanSlice;
use packet_reassembly::ip_defrag_pool::{Added, DatagramState, IpDefragPool, IpDefragSlot};
use packet_reassembly::ip_fragment_slice::ip_fragment;
use std::marker::Model;

/// Puts together the packets of frames, many at once, in memory that the caller lends.
///
/// A contract sees it as the list of the slots of the datagrams.
#[derive(Drop)]
pub struct FrameReassembly<'a, 'b> {
    pool: IpDefragPool<'a, 'b>,
}

// What is known of a slot before a fragment is added.
#[derive(Clone, Copy, Default)]
struct Known {
    // No datagram has it.
    is_free: bool,
    // Its datagram is discarded.
    is_discarded: bool,
}

// An IP packet in a frame, and the VLANs that it came in.
#[derive(Drop)]
struct Carried<'a> {
    packet: &'a [u8],
    outer: Option<u16>,
    inner: Option<u16>,
}

impl<'a, 'b> Model for FrameReassembly<'a, 'b> {
    ghost use Rattle.std.specs.Prelude.{◌≡◌, ◌<◌, ◌≤◌, List, length};
    ghost use Rattle.packet_reassembly.specs.Pool.{HaveFirstHeaders};
    ghost use Rattle.packet_reassembly.specs.declared.ip_defrag_pool.IpDefragSlot.{IpDefragSlot};
    ghost use Rattle.frame_reassembly.specs.Step.{reassembly_timeout};

    ghost Value = { List IpDefragSlot };

    ghost view = { λ s. s.pool.slots.now };

    ghost invariant = { λ s. (0 < length s.pool.slots.now) × (length s.pool.slots.now ≤ 32)
        × HaveFirstHeaders s.pool.slots.now × (s.pool.timeout ≡ reassembly_timeout) };
}

impl<'a, 'b> FrameReassembly<'a, 'b> {
    /// The most datagrams at once: 32.
    pub const SLOTS: usize = 32;

    /// The longest packet that is put together, in bytes: 65,575, an IPv6 header and the longest
    /// payload.
    pub const MAX_PACKET_LEN: usize = 65_575;

    /// How long after its first-arriving fragment a datagram is given up, in nanoseconds: 60
    /// seconds (RFC 8200 section 4.5, RFC 1122 section 3.3.2).
    pub const TIMEOUT_NANOSECONDS: u64 = 60_000_000_000;

    /// With these slots, from one to [`FrameReassembly::SLOTS`] of them. Datagrams that have slots
    /// go on. Their fragments must have come by [`IpDefragPool::add_packet`], so that the headers of
    /// the first are kept. Once the `FrameReassembly` is dropped, no contract says what the slots
    /// hold: set each `id` to `None` before they are lent again.
    pub fn new(slots: &'a mut [IpDefragSlot<'b>]) -> FrameReassembly<'a, 'b>
        requires some { 0 < length slots.old }
        requires few { length slots.old ≤ 32 }
        requires headers { HaveFirstHeaders slots.old }
        ensures slots { result ≡ slots.old }
    {
        FrameReassembly {
            pool: IpDefragPool {
                slots,
                timeout: FrameReassembly::TIMEOUT_NANOSECONDS,
            },
        }
    }

    /// Takes a frame of a link type, at a time in nanoseconds. If its IP packet is a fragment, that is
    /// added to its datagram: fragments whose tags have different identifiers, or of which one has
    /// a tag and the other none, are not put together; the kind of the tag does not count. If the
    /// fragment completes it, `out` gets the completed frame: what stands before the packet, and the
    /// whole packet; the datagram leaves its slot, and the length of that frame is returned. A
    /// fragment of it that comes again then begins another datagram, unless the lent slots had its
    /// id twice.
    /// Otherwise, and for all other frames, `None`. `out` has to have the length of `frame` and
    /// [`FrameReassembly::MAX_PACKET_LEN`] bytes more.
    ///
    /// A packet that is not all there is not added, nor one that [`IpDefragPool::add_packet`]
    /// refuses, nor one whose IPv4 header checksum is wrong: a host discards it (RFC 1122 section
    /// 3.2.1.2). A datagram is given up 60 seconds after its first-arriving fragment, once another
    /// one of them comes; or for room, if it is the oldest.
    ///
    /// # Example
    ///
    /// ```
    /// let mut headers = [0; IpDefragHeaders::MAX_LEN];
    /// let mut bytes = [0; IpDefragBuf::MAX_LEN];
    /// let mut units = [0; IpDefragBuf::UNITS];
    /// let mut slots = [IpDefragSlot {
    ///     id: None,
    ///     ecn: FragmentEcn::NONE,
    ///     since: 0,
    ///     headers: IpDefragHeaders::new(&mut headers),
    ///     buf: IpDefragBuf::new(&mut bytes, &mut units),
    /// }];
    /// let mut frames = FrameReassembly::new(&mut slots);
    /// let mut out = [0; 65_700];
    /// // Ethernet, a tag of VLAN 5, and two fragments of an IPv4 packet, of 8 bytes and of 5.
    /// let first = [
    ///     2, 0, 0, 0, 0, 2, 2, 0, 0, 0, 0, 1, 0x81, 0, 0, 5, 8, 0, 0x45, 0, 0, 28, 0x12, 0x34, 0x20,
    ///     0, 64, 17, 0xc6, 0x84, 192, 168, 0, 1, 192, 168, 0, 199, b't', b'h', b'i', b'r', b't',
    ///     b'e', b'e', b'n',
    /// ];
    /// let last = [
    ///     2, 0, 0, 0, 0, 2, 2, 0, 0, 0, 0, 1, 0x81, 0, 0, 5, 8, 0, 0x45, 0, 0, 25, 0x12, 0x34, 0, 1,
    ///     64, 17, 0xe6, 0x86, 192, 168, 0, 1, 192, 168, 0, 199, b'b', b'y', b't', b'e', b's',
    /// ];
    /// let mut datagrams = Datagrams::none();
    /// let taken = frames.take(LinkType::Ethernet2, &last, 0, &mut datagrams, &mut out);
    /// assert!(rt; taken.is_none() && datagrams.left_over() == 1);
    /// let taken = frames.take(LinkType::Ethernet2, &first, 1, &mut datagrams, &mut out);
    /// assert!(rt; taken == Some(51) && datagrams.put_together == 1);
    /// assert!(rt; out[..18] == first[..18] && &out[38..51] == b"thirteenbytes".as_slice());
    /// ```
    pub fn take(
        &mut self,
        link_type: LinkType,
        frame: &[u8],
        now: u64,
        datagrams: &mut Datagrams,
        out: &mut [u8],
    ) -> Option<usize>
        requires room { length frame.now + 65575 ≤ length out.old }
        ensures takes { TakesFrame link_type frame.now now self.old self.new datagrams.old
            datagrams.new (option_map (λ len. take len out.new) result) }
        ensures within { IfSome result (λ len. len ≤ length out.new) }
        ensures after { IfSome result (λ len. drop len out.new ≡ drop len out.old) }
        ensures nothing { IfNone result (out.new ≡ out.old) }
        ensures same_len { length out.new ≡ length out.old }
    {
        let carried = packet_in(link_type, frame)?;
        let front = frame.len() - carried.packet.len();
        let pool = &mut self.pool;
        let len = take_packet(pool, &carried, now, datagrams, &mut out[front..])?;
        out[..front].copy_from_slice(&frame[..front]);
        Some(front + len)
    }
}

const _: () = prove!(FrameReassembly::SLOTS == 32 && FrameReassembly::MAX_PACKET_LEN == 65575);

const _: () = prove!(FrameReassembly::TIMEOUT_NANOSECONDS == 60_000_000_000);

// The IP packet in a frame; `None` if there is none.
fn packet_in(link_type: LinkType, frame: &[u8]) -> Option<Carried>
    ensures found { IfSome result (λ c. (tags : List (List ℕ))
        × CarriesPacket link_type frame.now (take (length frame.now - length c.packet.now) frame.now)
        c.packet.now tags × (c.outer ≡ outer_id tags) × (c.inner ≡ inner_id tags)) }
    ensures within { IfSome result (λ c. length c.packet.now ≤ length frame.now) }
    ensures none { IfNone result (CarriesNone link_type frame.now) }
{
    let layers = match LinkLayers::from_link_type(link_type, frame) {
        Ok(layers) => layers,
        Err(_) => return None,
    };
    if layers.stop.is_some() || !layers.carries_ip() {
        return None;
    }
    let (outer, inner) = vlan_ids(&layers.vlan);
    Some(Carried {
        packet: layers.payload,
        outer,
        inner,
    })
}

// The identifiers of the VLANs in tags.
fn vlan_ids(vlan: &Option<VlanSlice>) -> (Option<u16>, Option<u16>)
    ensures outer { result.0 ≡ outer_id (tags_of vlan.now) }
    ensures inner { result.1 ≡ inner_id (tags_of vlan.now) }
{
    match vlan {
        None => (None, None),
        Some(VlanSlice::SingleVlan(tag)) => (Some(tag.vlan_identifier()), None),
        Some(VlanSlice::DoubleVlan { outer, inner }) => {
            (Some(outer.vlan_identifier()), Some(inner.vlan_identifier()))
        }
    }
}

// Adds a packet to its datagram, if it is a fragment without a wrong header checksum. Writes the
// packet that it completes, if it does, and returns its length.
fn take_packet(
    pool: &mut IpDefragPool,
    carried: &Carried,
    now: u64,
    datagrams: &mut Datagrams,
    out: &mut [u8],
) -> Option<usize>
    requires some { 0 < length pool.old.slots.now }
    requires few { length pool.old.slots.now ≤ 32 }
    requires timeout { pool.old.timeout ≡ reassembly_timeout }
    requires headers { HaveFirstHeaders pool.old.slots.now }
    requires room { 65575 ≤ length out.old }
    ensures takes { TakesPacket carried.now.packet.now carried.now.outer carried.now.inner now
        pool.old.slots.now pool.new.slots.now datagrams.old datagrams.new
        (option_map (λ len. take len out.new) result) }
    ensures within { IfSome result (λ len. len ≤ length out.new) }
    ensures after { IfSome result (λ len. drop len out.new ≡ drop len out.old) }
    ensures nothing { IfNone result (out.new ≡ out.old) }
    ensures same_len { length out.new ≡ length out.old }
    ensures slots { length pool.new.slots.now ≡ length pool.old.slots.now }
    ensures timeout { pool.new.timeout ≡ reassembly_timeout }
    ensures headers { HaveFirstHeaders pool.new.slots.now }
{
    // Most packets are no fragments.
    match ip_fragment(carried.packet) {
        Ok(Some(_)) => {}
        Ok(None) => return None,
        Err(_) => return None,
    }
    if has_wrong_header_checksum(carried.packet) {
        return None;
    }
    let slots = &mut *pool.slots;
    let known = all_known(slots);
    match pool.add_packet(carried.packet, carried.outer, carried.inner, now) {
        Ok(Some(added)) => follow(pool, known[added.slot], added, datagrams, out),
        Ok(None) => None,
        Err(_) => None,
    }
}

// Whether a packet begins with an IPv4 header whose checksum is wrong.
fn has_wrong_header_checksum(packet: &[u8]) -> bool
    ensures value { IsTrue result ↔ HasWrongHeaderChecksum packet.now }
{
    match Ipv4HeaderSlice::from_slice(packet) {
        Ok(view) => u64_16bit_word::checksum(0, view.slice()) != 0,
        Err(_) => false,
    }
}

// What is known of each slot.
fn all_known(slots: &[IpDefragSlot]) -> ArrayVec<Known, 32>
    requires few { length slots.now ≤ 32 }
    ensures all { result.items ≡ map known_of slots.now }
{
    let mut all = ArrayVec::new();
    'slots: for slot in slots {
        all.push(what_is_known(slot));
    }
    all
}

// What is known of a slot.
fn what_is_known(slot: &IpDefragSlot) -> Known
    ensures value { result ≡ known_of slot.now }
{
    Known {
        is_free: slot.id.is_none(),
        is_discarded: slot.buf.is_discarded(),
    }
}

// Counts a fragment that was added to a slot, of which this was known before. Writes the packet that
// is complete with it, and returns its length.
fn follow(
    pool: &mut IpDefragPool,
    was: Known,
    added: Added,
    datagrams: &mut Datagrams,
    out: &mut [u8],
) -> Option<usize>
    requires room { 65575 ≤ length out.old }
    requires headers { HaveFirstHeaders pool.old.slots.now }
    requires has { (id : IpFragId) × Has pool.old.slots.now added.slot id }
    requires state { IsState (slot_at pool.old.slots.now added.slot).buf added.state }
    ensures follows { Follows added.state (was.is_free || is_some added.given_up) was.is_discarded
        added.slot pool.old.slots.now pool.new.slots.now datagrams.old datagrams.new
        (option_map (λ len. take len out.new) result) }
    ensures within { IfSome result (λ len. len ≤ length out.new) }
    ensures after { IfSome result (λ len. drop len out.new ≡ drop len out.old) }
    ensures headers { HaveFirstHeaders pool.new.slots.now }
    ensures nothing { IfNone result (out.new ≡ out.old) }
    ensures same_len { length out.new ≡ length out.old }
    ensures slots { length pool.new.slots.now ≡ length pool.old.slots.now }
    ensures timeout { pool.new.timeout ≡ pool.old.timeout }
{
    let begins = was.is_free || added.given_up.is_some();
    match added.state {
        DatagramState::Incomplete => {
            *datagrams = datagrams.count(begins, false, false);
            None
        }
        DatagramState::Discarded => {
            *datagrams = datagrams.count(begins, false, !was.is_discarded);
            None
        }
        DatagramState::Complete => {
            let len = complete(pool, added.slot, out);
            *datagrams = datagrams.count(begins, len.is_some(), len.is_none());
            len
        }
    }
}

// Writes the packet of the datagram in a slot, which is complete, and takes the slot from it. Returns
// the length of the packet; `None` if it would be too long.
fn complete(pool: &mut IpDefragPool, slot: usize, out: &mut [u8]) -> Option<usize>
    requires room { 65575 ≤ length out.old }
    requires headers { HaveFirstHeaders pool.old.slots.now }
    requires has { (id : IpFragId) × Has pool.old.slots.now slot id }
    requires whole { (datagram : List ℕ) × IsWhole (slot_at pool.old.slots.now slot).buf datagram }
    ensures released { IsReleased slot pool.old.slots.now pool.new.slots.now }
    ensures packet { IfSome result (λ len.
        IsPacketIn (slot_at pool.old.slots.now slot) (take len out.new)) }
    ensures none { IfNone result (HasTooLongPacket (slot_at pool.old.slots.now slot)) }
    ensures within { IfSome result (λ len. len ≤ length out.new) }
    ensures after { IfSome result (λ len. drop len out.new ≡ drop len out.old) }
    ensures headers { HaveFirstHeaders pool.new.slots.now }
    ensures nothing { IfNone result (out.new ≡ out.old) }
    ensures same_len { length out.new ≡ length out.old }
    ensures slots { length pool.new.slots.now ≡ length pool.old.slots.now }
    ensures timeout { pool.new.timeout ≡ pool.old.timeout }
{
    match pool.write_packet(slot, out) {
        Ok(Some(len)) => {
            pool.release(slot);
            Some(len)
        }
        Ok(None) => unreachable!(), // Its first fragment has come.
        Err(_) => {
            pool.release(slot);
            None
        }
    }
}
