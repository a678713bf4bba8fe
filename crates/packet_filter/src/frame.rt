//! Frames chosen by an expression.

ghost use Rattle.std.specs.Prelude.{◌≡◌, ◌↔◌, IsTrue};
ghost use Rattle.packet.specs.SlicedPacket.{layers_of};
ghost use Rattle.packet.specs.declared.lax_sliced_packet.LaxSlicedPacket.{LaxSlicedPacket as Lax};
ghost use Rattle.packet_filter.specs.Frame.{Answers, nothing};
ghost use Rattle.packet_filter.specs.Meaning.{Matches};
ghost use Rattle.packet_filter.specs.Program.{expression_of};

use crate::filter::Filter;
use crate::front::plain_in;
use packet::lax_sliced_packet::LaxSlicedPacket;
use packet::link::LinkType;
use packet::sliced_packet::SlicedPacket;

impl Filter {
    /// Whether the expression says something true of a frame. `len` is its length on the wire, in
    /// bytes; a capture can have fewer.
    ///
    /// The packet in the frame is what [`LaxSlicedPacket::from_link_type`] finds. In a frame that
    /// ends within its link header there is none: no primitive about a header, an address or a port
    /// is true of it, and `less` and `greater` go by `len` as ever.
    ///
    /// # Example
    ///
    /// ```
    /// // Ethernet, IPv4 from 10.0.0.1, and a datagram to port 53.
    /// let frame = [
    ///     2, 0, 0, 0, 0, 2, 2, 0, 0, 0, 0, 1, 8, 0, 0x45, 0, 0, 30, 0, 0, 0, 0, 64, 0x11, 0, 0, 10,
    ///     0, 0, 1, 10, 0, 0, 2, 4, 0, 0, 53, 0, 10, 0, 0, b'h', b'i',
    /// ];
    /// let filter = Filter::from_text(b"udp port 53 or (not ip and less 60)")?;
    /// assert!(rt; filter.matches_frame(LinkType::Ethernet2, &frame, frame.len()));
    /// // A frame that ends within its link header.
    /// assert!(rt; filter.matches_frame(LinkType::Ethernet2, &frame[..13], 13));
    /// ```
    pub fn matches_frame(&self, link_type: LinkType, frame: &[u8], len: usize) -> bool
        ensures value { Answers (expression_of self.now) link_type frame.now len result }
    {
        // Registers alone hold the packet, since no call takes it.
        if let Some(lax) = plain_in(link_type, frame) {
            if let Some(value) = self.matches_by_prepared(&lax, len) {
                return value;
            }
        }
        self.matches_odd(link_type, frame, len)
    }

    // The same of a frame that is not plain.
    #[inline(never)]
    fn matches_odd(&self, link_type: LinkType, frame: &[u8], len: usize) -> bool
        ensures value { Answers (expression_of self.now) link_type frame.now len result }
    {
        match LaxSlicedPacket::from_link_type(link_type, frame) {
            Ok(lax) => self.matches(&lax, len),
            Err(_) => self.matches_nothing(len),
        }
    }

    // Whether the expression says something true of a packet of nothing.
    #[cold]
    #[inline(never)] // A frame that has a packet then needs no room for this one.
    fn matches_nothing(&self, len: usize) -> bool
        ensures value { (lax : Lax) × (layers_of lax.packet ≡ nothing) × (lax.stop ≡ None)
            × (IsTrue result ↔ Matches (expression_of self.now) lax len) }
    {
        self.matches(&nothing(), len)
    }
}

// A packet of nothing.
fn nothing() -> LaxSlicedPacket<'static>
    ensures layers { layers_of result.packet ≡ nothing }
    ensures whole { result.stop ≡ None }
{
    LaxSlicedPacket {
        packet: SlicedPacket {
            link: None,
            vlan: None,
            ether_type: None,
            payload: &[],
            net: None,
            transport: None,
        },
        stop: None,
    }
}
