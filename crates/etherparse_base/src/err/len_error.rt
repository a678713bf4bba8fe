ghost use Rattle.std.specs.Prelude.{◌≡◌, ◌+◌, ◌^◌, ◌<◌, Some};
ghost use Rattle.std.specs.Fmt.{DisplaysOnOk};
ghost use Rattle.etherparse_base.specs.LenError.{len_error_moved, len_error_text, lengths_text};
ghost use Rattle.etherparse_base.specs.LenError.{place_text};
ghost use Rattle.etherparse_base.specs.LenSource.{len_source_text};

use super::Layer;
use crate::LenSource;
use std::error::Error;
use std::fmt;
use std::marker::Model;

/// A length that does not fit the layer: too small if `required_len` is above `len`, otherwise too
/// great.
#[derive(Clone, Debug, PartialEq, Eq, Hash, Drop)]
pub struct LenError {
    /// The least length that was needed, or the greatest that was allowed, in bytes.
    pub required_len: usize,
    /// The length that was found, in bytes.
    pub len: usize,
    /// Where `len` came from.
    pub len_source: LenSource,
    /// The layer that the length is about.
    pub layer: Layer,
    /// Where the layer starts, in bytes from the start of the parsed data.
    pub layer_start_offset: usize,
}

/// A contract sees the fields. Without this `impl` the check refuses `?` on a result that holds a
/// reference beside an `IpNumber`.
impl Model for LenError {
    ghost use Rattle.etherparse_base.specs.LenErrorFields.{LenErrorFields};

    ghost Value = { LenErrorFields };

    ghost view = { λ e. record {
      required_len = e.required_len;
      len = e.len;
      len_source = e.len_source;
      layer = e.layer;
      layer_start_offset = e.layer_start_offset;
    } };

    ghost inverse = { λ e. record {
      required_len = e.required_len;
      len = e.len;
      len_source = e.len_source;
      layer = e.layer;
      layer_start_offset = e.layer_start_offset;
    } };
}

impl LenError {
    /// The error of the same layer in data that starts `offset` bytes earlier: `layer_start_offset`
    /// grows by `offset`, and every other field stays the same. The sum has to fit `usize`.
    ///
    /// # Example
    ///
    /// ```
    /// // A UDP header of 8 bytes after an IPv4 header of 20, of which 5 bytes are there.
    /// let error = LenError {
    ///     required_len: 8,
    ///     len: 5,
    ///     len_source: LenSource::Ipv4HeaderTotalLen,
    ///     layer: Layer::UdpHeader,
    ///     layer_start_offset: 20,
    /// };
    /// // The IPv4 header itself stands after 14 bytes of Ethernet.
    /// assert!(rt; error.add_offset(14).layer_start_offset == 34);
    /// ```
    #[inline]
    pub fn add_offset(self, offset: usize) -> LenError
        requires fits { self.layer_start_offset + offset < 2 ^ 64 }
        ensures moved { result ≡ len_error_moved offset self }
    {
        LenError {
            layer_start_offset: self.layer_start_offset + offset,
            ..self
        }
    }
}

/// Says what was needed, what was found and, unless the layer starts at byte 0, where it starts.
impl fmt::Display for LenError {
    ghost output = { λ e. Some (len_error_text e) };

    fn fmt<W: fmt::Write>(&self, f: &mut fmt::Formatter<W>) -> fmt::Result {
        self.fmt_lengths(f)?;
        self.fmt_place(f)?;
        f.write_str(".")
    }
}

impl LenError {
    // The two lengths, and where the second came from.
    fn fmt_lengths<W: fmt::Write>(&self, f: &mut fmt::Formatter<W>) -> fmt::Result
        ensures text { DisplaysOnOk W.write_str_gives f.old result
            (Some (lengths_text self.now)) f.new }
    {
        let title = self.layer.error_title();
        let layer = self.layer;
        let required_len = self.required_len;
        let len = self.len;
        let len_source = len_source_name(self.len_source);
        if required_len > len {
            write!(
                f,
                "{title}: Not enough data to decode '{layer}'. {required_len} byte(s) would be required, but only {len} byte(s) are available based on the {len_source}"
            )
        } else {
            write!(
                f,
                "{title}: Length of {len} byte(s) is too big for an '{layer}' (maximum is {required_len} bytes). The {len_source} was used to determine the length"
            )
        }
    }

    // Where the layer starts, unless at byte 0.
    fn fmt_place<W: fmt::Write>(&self, f: &mut fmt::Formatter<W>) -> fmt::Result
        ensures text { DisplaysOnOk W.write_str_gives f.old result
            (Some (place_text self.now)) f.new }
    {
        let layer = self.layer;
        let layer_start_offset = self.layer_start_offset;
        if layer_start_offset > 0 {
            write!(
                f,
                " ('{layer}' starts at overall parsed byte {layer_start_offset})"
            )
        } else {
            Ok(())
        }
    }
}

impl Error for LenError {}

// What the text calls the source of the length.
fn len_source_name(len_source: LenSource) -> &'static str
    ensures text { result.now ≡ len_source_text len_source }
{
    match len_source {
        LenSource::Slice => "slice length",
        LenSource::MacsecShortLength =>
            "length calculated from the MACsec header 'short length' field",
        LenSource::Ipv4HeaderTotalLen =>
            "length calculated from the IPv4 header 'total length' field",
        LenSource::Ipv6HeaderPayloadLen =>
            "length calculated from the IPv6 header 'payload length' field",
        LenSource::UdpHeaderLen => "length calculated from the UDP header 'length' field",
        LenSource::TcpHeaderLen => "length calculated from the TCP header 'length' field",
        LenSource::ArpAddrLengths =>
            "length calculated from the ARP 'hw_addr_size' & 'proto_addr_size' fields",
    }
}
