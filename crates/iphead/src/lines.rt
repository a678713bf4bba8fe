ghost use Rattle.std.specs.Prelude.{ℕ, Some, codes, ◌≡◌, ◌≤◌, OnOk, IfSome, length};
ghost use Rattle.std.specs.Io.KnownBytes.{Appends};
ghost use Rattle.hex.specs.Hex.{encode_lower};
ghost use Rattle.etherparse.specs.Ipv4Header.{OfIpv4Header};
ghost use Rattle.etherparse.specs.Ipv6Header.{OfIpv6Header};
ghost use Rattle.iphead.specs.Output.{dotted, error_line, fixed_lines, good_or_bad, ipv4_lines};
ghost use Rattle.iphead.specs.Output.{ipv6_lines, line, options_text, upper_layer_lines};

use etherparse::checksum::u64_16bit_word;
use etherparse::{Ipv4Header, Ipv4HeaderSlice, Ipv6HeaderSlice};
use std::fmt::Display;
use std::io::Write;
use std::{fmt, io};

/// Writes the one line that says why there is no header.
#[tactic(auto, unfolding(crate::specs::Output::line))]
pub fn write_error<W: Write, D: Display + Drop>(writer: &mut W, reason: D) -> io::Result<()>
    ensures appends { OnOk result (IfSome (D.output reason) (λ text.
        Appends (W.contents writer.old) (W.contents writer.new) (error_line text))) }
{
    writeln!(writer, "error: {reason}")
}

/// Writes the fields of an IPv6 header, one per line.
pub fn write_ipv6<W: Write>(writer: &mut W, view: &Ipv6HeaderSlice) -> io::Result<()>
    ensures appends { OnOk result (OfIpv6Header view.now.slice.now (λ header.
        Appends (W.contents writer.old) (W.contents writer.new) (ipv6_lines header))) }
{
    write_field(writer, "version", view.version())?;
    write_field(writer, "traffic_class", view.traffic_class())?;
    write_field(writer, "flow_label", view.flow_label())?;
    write_field(writer, "payload_length", view.payload_length())?;
    let next_header = view.next_header();
    write_field(writer, "next_header", next_header.0)?;
    write_field(writer, "hop_limit", view.hop_limit())?;
    write_hex_field(writer, "source", &view.source())?;
    write_hex_field(writer, "destination", &view.destination())?;
    Ok(())
}

/// Writes what follows an IPv6 header: the number of the upper layer, where its bytes start, and
/// how many they are.
pub fn write_upper_layer<W: Write>(
    writer: &mut W,
    number: u8,
    place: usize,
    rest_len: usize,
) -> io::Result<()>
    ensures appends { OnOk result (Appends (W.contents writer.old) (W.contents writer.new)
        (upper_layer_lines number place rest_len)) }
{
    write_field(writer, "upper", number)?;
    write_field(writer, "place", place)?;
    write_field(writer, "rest", rest_len)?;
    Ok(())
}

/// Writes the fields of an IPv4 header, one per line, the checksum that it should have, whether its
/// bytes sum to all ones, and the number of bytes after it.
pub fn write_ipv4<W: Write>(
    writer: &mut W,
    view: &Ipv4HeaderSlice,
    rest_len: usize,
) -> io::Result<()>
    ensures appends { OnOk result (OfIpv4Header view.now.slice.now (λ header.
        Appends (W.contents writer.old) (W.contents writer.new)
        (ipv4_lines header view.now.slice.now rest_len))) }
{
    write_fixed_fields(writer, view)?;
    write_options(writer, view.options())?;
    let computed = view.to_header().calc_header_checksum();
    write_hex_field(writer, "computed", &computed.to_be_bytes())?;
    write_field(writer, "sum", good_or_bad(view))?;
    write_field(writer, "rest", rest_len)?;
    Ok(())
}

// Writes the fields of an IPv4 header before its options.
fn write_fixed_fields<W: Write>(writer: &mut W, view: &Ipv4HeaderSlice) -> io::Result<()>
    ensures appends { OnOk result (OfIpv4Header view.now.slice.now (λ header.
        Appends (W.contents writer.old) (W.contents writer.new) (fixed_lines header))) }
{
    write_field(writer, "version", view.version())?;
    write_field(writer, "ihl", view.ihl())?;
    write_field(writer, "dscp", view.dcp())?;
    write_field(writer, "ecn", view.ecn())?;
    write_field(writer, "total_len", view.total_len())?;
    write_field(writer, "identification", view.identification())?;
    write_field(writer, "dont_fragment", view.dont_fragment())?;
    write_field(writer, "more_fragments", view.more_fragments())?;
    write_field(writer, "fragment_offset", view.fragments_offset())?;
    write_field(writer, "time_to_live", view.ttl())?;
    let protocol = view.protocol();
    write_field(writer, "protocol", protocol.0)?;
    write_hex_field(
        writer,
        "header_checksum",
        &view.header_checksum().to_be_bytes(),
    )?;
    write_field(writer, "source", Dotted(view.source()))?;
    write_field(writer, "destination", Dotted(view.destination()))?;
    Ok(())
}

// Whether the bytes of a header sum to all ones: its fixed fields, and its options.
fn good_or_bad(view: &Ipv4HeaderSlice) -> &'static str
    ensures text { result.now ≡ good_or_bad view.now.slice.now }
{
    let (fixed, options) = view.slice().split_at(Ipv4Header::MIN_LEN);
    let sum = u64_16bit_word::add_slices(&[fixed, options]);
    if u64_16bit_word::ones_complement(sum) == 0 {
        "good"
    } else {
        "bad"
    }
}

// An IPv4 address as it is printed.
#[derive(Clone, Copy)]
struct Dotted([u8; 4]);

impl fmt::Display for Dotted {
    ghost output = { λ address. Some (dotted address.0) };

    fn fmt<W: fmt::Write>(&self, f: &mut fmt::Formatter<W>) -> fmt::Result {
        let [a, b, c, d] = self.0;
        write!(f, "{a}.{b}.{c}.{d}")
    }
}

// Writes the line with the options.
fn write_options<W: Write>(writer: &mut W, options: &[u8]) -> io::Result<()>
    requires short { length options.now ≤ 40 }
    ensures appends { OnOk result (Appends (W.contents writer.old) (W.contents writer.new)
        (line (codes "options") (options_text options.now))) }
{
    if options.is_empty() {
        write_field(writer, "options", "-")
    } else {
        write_hex_field(writer, "options", options)
    }
}

// Writes a line with a value.
#[tactic(auto, unfolding(crate::specs::Output::line))]
fn write_field<W: Write, T: Display + Drop>(writer: &mut W, name: &str, value: T) -> io::Result<()>
    ensures appends { OnOk result (IfSome (T.output value) (λ text.
        Appends (W.contents writer.old) (W.contents writer.new) (line name.now text))) }
{
    writeln!(writer, "{name} {value}")
}

// Writes a line with at most 40 bytes in hex digits.
#[tactic(auto, unfolding(crate::specs::Output::line))]
fn write_hex_field<W: Write>(writer: &mut W, name: &str, bytes: &[u8]) -> io::Result<()>
    requires short { length bytes.now ≤ 40 }
    ensures appends { OnOk result (Appends (W.contents writer.old) (W.contents writer.new)
        (line name.now (encode_lower bytes.now))) }
{
    let mut room = [0; 80];
    let digits = &mut room[..2 * bytes.len()];
    hex::encode_to_slice(bytes, digits).unwrap();
    write!(writer, "{name} ")?;
    writer.write_all(digits)?;
    writer.write_all(b"\n")
}
