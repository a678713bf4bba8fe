//! The checksum of an IPv4 header, and setters that update the stored one.

use super::Ipv4Header;
use super::fixed_and_options::{add_options, are_bytes, sum_of_fixed};
use crate::checksum::{update_2bytes, update_4bytes};
use crate::{IpDscp, IpEcn};

impl Ipv4Header {
    ghost use Rattle.std.specs.Prelude.{ℕ, ◌≡◌, ◌+◌, ◌-◌, ◌*◌, ◌^◌, ◌<◌, ◌≤◌, ◌↔◌};
    ghost use Rattle.std.specs.Prelude.{List, [], ◌∷◌, IsTrue};
    ghost use Rattle.std.specs.Bool.{OnFalse, OnTrue};
    ghost use Rattle.std.specs.Int.{from_be_bytes, w16};
    ghost use Rattle.etherparse_base.specs.WordSums.{SumsToAllOnes, updated_checksum};
    ghost use Rattle.etherparse_base.specs.WordSums.{updated_checksum_of_words};
    ghost use Rattle.etherparse_fields.specs.IpEcn.{ecn_value};
    ghost use Rattle.etherparse.specs.HeaderChecksum.{ChangesInPlace, KeepsChecksum};
    ghost use Rattle.etherparse.specs.HeaderChecksum.{header_checksum_of};
    ghost use Rattle.etherparse.specs.Ipv4Header.{IsIpv4LayoutWith, ipv4_first_word, ipv4_ihl};

    /// The checksum that the header should have: the complement of the ones-complement sum of its
    /// words in network byte order, with 0 for the checksum, whatever `header_checksum` is (RFC 791
    /// section 3.1, RFC 1071 section 1). It is never 0xffff. The reserved bit counts as 0, so a
    /// packet that has it set looks wrong: sum the bytes of the view to check what was
    /// received.
    #[inline(always)]
    pub fn calc_header_checksum(&self) -> u16
        ensures value { (bytes : List ℕ) → IsIpv4LayoutWith self.now 0 bytes →
            result ≡ header_checksum_of bytes }
        ensures whatever_is_stored { (stored : ℕ) → (bytes : List ℕ) →
            IsIpv4LayoutWith (record self.now { header_checksum = stored }) 0 bytes →
            result ≡ header_checksum_of bytes }
        ensures within { result < 65535 }
    {
        let fixed = sum_of_fixed(self.front(0));
        add_options(fixed, self.options.as_slice())
            .ones_complement()
            .swap_bytes()
    }

    /// Stores the checksum that the header should have, [`Ipv4Header::calc_header_checksum`]. The
    /// bytes that [`Ipv4Header::to_bytes`] then writes sum to all ones, by which a receiver finds
    /// the checksum right. Call it last: a field that is assigned later leaves it as it was.
    ///
    /// The Rust crate has no such call.
    ///
    /// # Example
    ///
    /// ```
    /// let (source, destination) = ([192, 168, 0, 1], [192, 168, 0, 199]);
    /// let mut header = Ipv4Header::new(95, 64, IpNumber::UDP, source, destination)?;
    /// header.set_checksum();
    /// assert!(rt; header.header_checksum == 0xb861);
    /// ```
    #[inline]
    pub fn set_checksum(&mut self)
        ensures set { self.new ≡ record self.old { header_checksum = self.new.header_checksum } }
        ensures computed { (bytes : List ℕ) → IsIpv4LayoutWith self.new 0 bytes →
            self.new.header_checksum ≡ header_checksum_of bytes }
        ensures all_ones { (bytes : List ℕ) → IsIpv4LayoutWith self.new 0 bytes →
            SumsToAllOnes bytes }
    {
        self.header_checksum = self.calc_header_checksum();
    }

    /// Sets the differentiated services code point, and updates the stored checksum for the first
    /// word, with [`update_2bytes`] (RFC 1624 section 3, equation 3). A right checksum stays
    /// right; a wrong one is not repaired.
    ///
    /// The Rust crate has no such call.
    ///
    /// # Example
    ///
    /// With the header of [`Ipv4Header::set_checksum`]:
    ///
    /// ```
    /// header.set_dscp(IpDscp::EF);
    /// assert_eq!(rt; header.header_checksum, 0xb7a9);
    /// ```
    #[inline]
    pub fn set_dscp(&mut self, dscp: IpDscp)
        ensures set { self.new ≡ record self.old {
          dscp = dscp;
          header_checksum = updated_checksum self.old.header_checksum
              (ipv4_first_word self.old) (ipv4_first_word (record self.old { dscp = dscp }));
        } }
        ensures keeps_checksum { KeepsChecksum self.old self.new }

        // In a packet, that changes bytes 1, 10 and 11 and no others.
        ensures in_place { ChangesInPlace self.old self.new 1
            ((dscp * 2 ^ 2 + ecn_value self.old.ecn) ∷ []) }
    {
        let before = self.first_word();
        self.dscp = dscp;
        self.header_checksum = update_2bytes(self.header_checksum, before, self.first_word());
    }

    /// Sets the explicit congestion notification, and updates the stored checksum for the first
    /// word, with [`update_2bytes`] (RFC 1624 section 3, equation 3). A right checksum stays
    /// right; a wrong one is not repaired.
    ///
    /// The Rust crate has no such call.
    ///
    /// # Example
    ///
    /// A router marks that the packet of [`Ipv4Header::set_dscp`] met congestion (RFC 3168 section
    /// 5):
    ///
    /// ```
    /// header.set_ecn(IpEcn::CongestionExperienced);
    /// assert_eq!(rt; header.header_checksum, 0xb7a6);
    /// ```
    #[inline]
    pub fn set_ecn(&mut self, ecn: IpEcn)
        ensures set { self.new ≡ record self.old {
          ecn = ecn;
          header_checksum = updated_checksum self.old.header_checksum
              (ipv4_first_word self.old) (ipv4_first_word (record self.old { ecn = ecn }));
        } }
        ensures keeps_checksum { KeepsChecksum self.old self.new }

        // In a packet, that changes bytes 1, 10 and 11 and no others.
        ensures in_place { ChangesInPlace self.old self.new 1
            ((self.old.dscp * 2 ^ 2 + ecn_value ecn) ∷ []) }
    {
        let before = self.first_word();
        self.ecn = ecn;
        self.header_checksum = update_2bytes(self.header_checksum, before, self.first_word());
    }

    // The version, the IHL, the code point and the notification.
    #[inline(always)]
    pub(super) fn first_word(&self) -> [u8; 2]
        ensures value { result ≡ (4 * 2 ^ 4 + ipv4_ihl self.now)
            ∷ (self.now.dscp * 2 ^ 2 + ecn_value self.now.ecn) ∷ [] }
        ensures number { from_be_bytes w16 result ≡ ipv4_first_word self.now }
        ensures dscp { self.now.dscp < 2 ^ 6 }
    {
        let dscp = self.dscp.value();
        [(4 << 4) + self.ihl(), (dscp << 2) + self.ecn.value()]
    }

    /// Sets the time to live, and updates the stored checksum for the word of the time to live and
    /// the protocol, with [`update_2bytes`] (RFC 1624 section 3, equation 3). A right checksum
    /// stays right; a wrong one is not repaired.
    ///
    /// The Rust crate has no such call.
    ///
    /// # Example
    ///
    /// ```
    /// for stored in [0, 0xffff] {
    ///     let mut header = Ipv4Header::default();
    ///     header.identification = 0x7a00;
    ///     header.header_checksum = stored;
    ///     header.set_time_to_live(1);
    ///     assert_eq!(rt; header.header_checksum, 0xfeff);
    ///     assert_eq!(rt; header.calc_header_checksum(), 0xfeff);
    /// }
    /// ```
    #[inline]
    pub fn set_time_to_live(&mut self, time_to_live: u8)
        ensures set { self.new ≡ record self.old {
          time_to_live = time_to_live;
          header_checksum = updated_checksum self.old.header_checksum
              (self.old.time_to_live * 2 ^ 8 + self.old.protocol)
              (time_to_live * 2 ^ 8 + self.old.protocol);
        } }
        ensures keeps_checksum { KeepsChecksum self.old self.new }

        // In a packet, that changes bytes 8, 10 and 11 and no others.
        ensures in_place { ChangesInPlace self.old self.new 8 (time_to_live ∷ []) }
    {
        let protocol = u8::from(self.protocol);
        self.header_checksum = update_2bytes(
            self.header_checksum,
            [self.time_to_live, protocol],
            [time_to_live, protocol],
        );
        self.time_to_live = time_to_live;
    }

    /// Lowers the time to live by one, as a router does (RFC 1812 section 5.3.1), and updates the
    /// stored checksum as [`Ipv4Header::set_time_to_live`] does. If the time to live is 0 or 1, it
    /// returns `false` and leaves the header as it was: the packet is then to be discarded.
    ///
    /// The Rust crate has no such call.
    ///
    /// # Example
    ///
    /// ```
    /// let mut header = Ipv4Header::default();
    /// header.time_to_live = 2;
    /// assert!(rt; header.lower_time_to_live());
    /// // The next router discards the packet.
    /// assert!(rt; !header.lower_time_to_live());
    /// ```
    #[inline]
    pub fn lower_time_to_live(&mut self) -> bool
        ensures lowered { IsTrue result ↔ (2 ≤ self.old.time_to_live) }
        ensures set { OnTrue result (self.new ≡ record self.old {
          time_to_live = self.old.time_to_live - 1;
          header_checksum = updated_checksum self.old.header_checksum
              (self.old.time_to_live * 2 ^ 8 + self.old.protocol)
              ((self.old.time_to_live - 1) * 2 ^ 8 + self.old.protocol);
        }) }
        ensures keeps_checksum { OnTrue result (KeepsChecksum self.old self.new) }
        ensures unchanged { OnFalse result (self.new ≡ self.old) }

        // In a packet, that changes bytes 8, 10 and 11 and no others.
        ensures in_place { OnTrue result
            (ChangesInPlace self.old self.new 8 ((self.old.time_to_live - 1) ∷ [])) }
    {
        if self.time_to_live < 2 {
            return false;
        }
        let lowered = self.time_to_live - 1;
        self.set_time_to_live(lowered);
        true
    }

    /// Sets the source address, and updates the stored checksum for it, with [`update_4bytes`]. A
    /// right checksum stays right; a wrong one is not repaired.
    ///
    /// The Rust crate has no such call.
    ///
    /// # Example
    ///
    /// With the header of [`Ipv4Header::set_checksum`]:
    ///
    /// ```
    /// header.set_source([10, 0, 0, 1]);
    /// assert_eq!(rt; header.header_checksum, 0x6f0a);
    /// ```
    #[inline]
    pub fn set_source(&mut self, source: [u8; 4])
        ensures set { self.new ≡ record self.old {
          source = source;
          header_checksum = updated_checksum_of_words 2 self.old.header_checksum
              self.old.source source;
        } }
        ensures keeps_checksum { KeepsChecksum self.old self.new }

        // In a packet, that changes bytes 10 to 15 and no others.
        ensures in_place { ChangesInPlace self.old self.new 12 source }
    {
        are_bytes(&source);
        self.header_checksum = update_4bytes(self.header_checksum, self.source, source);
        self.source = source;
    }

    /// Sets the destination address, and updates the stored checksum for it, with
    /// [`update_4bytes`]. A right checksum stays right; a wrong one is not repaired.
    ///
    /// The Rust crate has no such call.
    ///
    /// # Example
    ///
    /// With the header of [`Ipv4Header::set_source`]:
    ///
    /// ```
    /// header.set_destination([10, 0, 0, 2]);
    /// assert_eq!(rt; header.header_checksum, 0x2678);
    /// ```
    #[inline]
    pub fn set_destination(&mut self, destination: [u8; 4])
        ensures set { self.new ≡ record self.old {
          destination = destination;
          header_checksum = updated_checksum_of_words 2 self.old.header_checksum
              self.old.destination destination;
        } }
        ensures keeps_checksum { KeepsChecksum self.old self.new }

        // In a packet, that changes bytes 10 and 11 and bytes 16 to 19, and no others.
        ensures in_place { ChangesInPlace self.old self.new 16 destination }
    {
        are_bytes(&destination);
        self.header_checksum = update_4bytes(self.header_checksum, self.destination, destination);
        self.destination = destination;
    }
}
