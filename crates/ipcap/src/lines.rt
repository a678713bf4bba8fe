//! The line of a record, and the lines at the end.

ghost use Rattle.std.specs.Prelude.{◌≡◌, ◌++◌, Some, MatchOption, option_map};
ghost use Rattle.std.specs.Fmt.{DisplaysOnOk};
ghost use Rattle.ipcap.specs.Lines.{detail_text, parties_text, payload_text, place_text};
ghost use Rattle.ipcap.specs.Lines.{byte_text, capture_error_line, carried_text, closing_line};
ghost use Rattle.ipcap.specs.Lines.{closing_text, count_text};
ghost use Rattle.ipcap.specs.Lines.{cut_text, link_type_name, magic_text, name_text};
ghost use Rattle.ipcap.specs.Lines.{other_format_named};
ghost use Rattle.ipcap.specs.Lines.{packets_line, report_text};
ghost use Rattle.ipcap.specs.Lines.{damage_text, datagrams_text};
ghost use Rattle.ipcap.specs.Ends.{end_text};
ghost use Rattle.packet_capture.specs.Any.{nanoseconds_of, seconds_of};
ghost use Rattle.ipcap.specs.Lines.{date_at, dated_text, fraction_text, head_text};
ghost use Rattle.ipcap.specs.Lines.{header_verdict_text};
ghost use Rattle.ipcap.specs.Lines.{hex_text, keyword_of, kinds_text, link_type_line};
ghost use Rattle.ipcap.specs.Lines.{no_packet_text, reading_text, record_line, shown_text};
ghost use Rattle.ipcap.specs.Lines.{upper_text};

use crate::dates::{DateTime, date_time_of};
use crate::ends::write_end;
use crate::place::End;
use crate::reading::{NoPacket, Reading, is_cut};
use crate::request::Mode;
use crate::shown::{Detail, Shown, has_no_length, hops_of, len_of};
use crate::streams::FitsLine;
use crate::totals::Totals;
use frame_reassembly::datagrams::Datagrams;
use packet_capture::any::{PacketHead, Time};
use packet_capture::capture::CaptureError;
use packet_capture::file_format::{FileFormat, format_named};
use packet_links::header::Carried;
use packet_parts::fragment::Fragment;
use packet_parts::ip_slice::IpHeaderSlice;
use std::fmt;
use std::fmt::Formatter;

// A protocol as it is shown.
#[derive(Clone, Copy)]
struct Upper(u8);

impl fmt::Display for Upper {
    ghost output = { λ upper. Some (upper_text upper.0) };

    fn fmt<W: fmt::Write>(&self, f: &mut Formatter<W>) -> fmt::Result {
        match keyword(self.0) {
            Some(keyword) => f.write(keyword),
            None => f.write(self.0),
        }
    }
}

// The keyword of a protocol's number.
#[tactic(auto, unfolding(crate::specs::Lines::keyword_of))]
fn keyword(number: u8) -> Option<&'static str>
    ensures value { MatchOption result (keyword_of number ≡ None)
        (λ keyword. keyword_of number ≡ Some keyword.now) }
{
    let keyword = match number {
        1 => "ICMP",
        2 => "IGMP",
        4 => "IPv4",
        6 => "TCP",
        17 => "UDP",
        41 => "IPv6",
        46 => "RSVP",
        47 => "GRE",
        50 => "ESP",
        51 => "AH",
        58 => "IPv6-ICMP",
        59 => "IPv6-NoNxt",
        88 => "EIGRP",
        89 => "OSPFIGP",
        94 => "IPIP",
        103 => "PIM",
        108 => "IPComp",
        112 => "VRRP",
        115 => "L2TP",
        132 => "SCTP",
        136 => "UDPLite",
        137 => "MPLS-in-IP",
        _ => return None,
    };
    Some(keyword)
}

/// The line of a record.
#[derive(Drop)]
pub struct RecordLine<'a> {
    /// Whether its time is written as a date in UTC.
    pub is_utc: bool,
    /// The number of the packet, from 1.
    pub number: u64,
    /// Its time, and how much of it was captured.
    pub head: PacketHead,
    /// What its frame is found to carry.
    pub reading: Reading<'a>,
    /// Whether the packet is put together.
    pub is_reassembled: bool,
}

impl FitsLine for RecordLine<'_> {}

impl fmt::Display for RecordLine<'_> {
    ghost output = { λ line. Some (record_line line.is_utc line.number
        line.is_reassembled line.head line.reading) };

    fn fmt<W: fmt::Write>(&self, f: &mut Formatter<W>) -> fmt::Result {
        write_head(f, self.is_utc, self.number, &self.head)?;
        write_reading(f, &self.head, &self.reading)?;
        let mark = if self.is_reassembled {
            " reassembled\n"
        } else {
            "\n"
        };
        f.write_str(mark)
    }
}

// Writes the number of a packet and its time.
fn write_head<W: fmt::Write>(
    f: &mut Formatter<W>,
    is_utc: bool,
    number: u64,
    head: &PacketHead,
) -> fmt::Result
    ensures text { DisplaysOnOk W.write_str_gives f.old result
        (Some (head_text is_utc number head.now)) f.new }
{
    let time = head.time();
    let date = date_at(is_utc, time.seconds);
    write_dated(f, date, number, head, time)
}

// The date of a time, if dates are asked for.
fn date_at(is_utc: bool, seconds: u64) -> Option<DateTime>
    ensures value { result ≡ date_at is_utc seconds }
{
    if is_utc { date_time_of(seconds) } else { None }
}

// Writes the number of a packet and its time, as this date if there is one.
#[tactic(auto, unfolding(crate::specs::Lines::dated_text))]
fn write_dated<W: fmt::Write>(
    f: &mut Formatter<W>,
    date: Option<DateTime>,
    number: u64,
    head: &PacketHead,
    time: Time,
) -> fmt::Result
    requires seconds { time.seconds ≡ seconds_of head.now.stamp }
    requires nanoseconds { time.nanoseconds ≡ nanoseconds_of head.now.stamp }
    ensures text { DisplaysOnOk W.write_str_gives f.old result
        (Some (dated_text date number head.now)) f.new }
{
    let seconds = time.seconds;
    let fraction = Fraction {
        is_fine: head.is_fine(),
        nanoseconds: time.nanoseconds,
    };
    match date {
        Some(date) => write!(f, "{number} {date}.{fraction}Z "),
        None => write!(f, "{number} {seconds}.{fraction} "),
    }
}

// A fraction of a second.
#[derive(Clone, Copy)]
struct Fraction {
    is_fine: bool,
    nanoseconds: u64,
}

impl fmt::Display for Fraction {
    ghost output = { λ fraction. Some (fraction_text fraction.is_fine fraction.nanoseconds) };

    #[tactic(auto, using(crate::proofs::Written::padded_with_zeros))]
    fn fmt<W: fmt::Write>(&self, f: &mut Formatter<W>) -> fmt::Result {
        let nanoseconds = self.nanoseconds;
        if self.is_fine {
            write!(f, "{nanoseconds:09}")
        } else {
            let microseconds = nanoseconds / 1000;
            write!(f, "{microseconds:06}")
        }
    }
}

// Writes what the frame of a record is found to carry, and how much of it was captured, if not all.
#[tactic(auto, unfolding(crate::specs::Lines::reading_text))]
fn write_reading<W: fmt::Write>(
    f: &mut Formatter<W>,
    head: &PacketHead,
    reading: &Reading,
) -> fmt::Result
    ensures text { DisplaysOnOk W.write_str_gives f.old result
        (Some (reading_text head.now reading.now)) f.new }
{
    let (captured_len, cut) = (head.captured_len, Cut(*head));
    match reading {
        Reading::Packet(shown) => {
            write_shown(f, shown)?;
            write!(f, "{cut}")
        }
        Reading::Refused(e) => write!(f, "error: {e}{cut}"),
        Reading::Other(reason) => {
            let reason = *reason;
            write!(f, "other: {reason}{cut}")
        }
        Reading::Skipped => write!(f, "skipped: record too long ({captured_len} bytes)"),
    }
}

impl fmt::Display for NoPacket {
    ghost output = { λ reason. Some (no_packet_text reason) };

    fn fmt<W: fmt::Write>(&self, f: &mut Formatter<W>) -> fmt::Result {
        match *self {
            NoPacket::NoLinkHeader(len) => write!(f, "truncated link header ({len} bytes)"),
            NoPacket::OtherType(ether_type) => {
                let ether_type = Hex(ether_type);
                write!(f, "type 0x{ether_type}")
            }
            NoPacket::OtherFamily(family) => write!(f, "family {family}"),
            NoPacket::OtherDevice(number) => write!(f, "ARPHRD {number}"),
            NoPacket::OtherCarried(carried) => write_carried(f, carried),
            NoPacket::OtherLinkType(number) => {
                let name = Name(link_type_name(u32::from(number)));
                write!(f, "link type {number}{name}")
            }
        }
    }
}

// Writes what another framing tells of the bytes after its header.
#[tactic(auto, unfolding(crate::specs::Lines::carried_text))]
fn write_carried<W: fmt::Write>(f: &mut Formatter<W>, carried: Carried) -> fmt::Result
    ensures text { DisplaysOnOk W.write_str_gives f.old result (Some (carried_text carried)) f.new }
{
    let words = match carried {
        Carried::EtherType(number) => {
            let number = Hex(number);
            return write!(f, "type 0x{number}");
        }
        Carried::PppProtocol(number) => {
            let number = Hex(number);
            return write!(f, "protocol 0x{number}");
        }
        Carried::Nlpid(number) => {
            let number = HexByte(number);
            return write!(f, "NLPID 0x{number}");
        }
        Carried::Llc(dsap) => {
            let dsap = HexByte(dsap);
            return write!(f, "LLC 0x{dsap}");
        }
        Carried::Ip => "IP",
        Carried::Snap => "SNAP",
        Carried::Management => "management frame",
        Carried::Control => "control frame",
        Carried::Extension => "extension frame",
        Carried::NoData => "no data",
        Carried::Encrypted => "encrypted",
        Carried::Fragment => "fragment",
        Carried::Aggregate => "aggregate",
        Carried::Unknown => "unknown link header",
    };
    f.write_str(words)
}

// A number in two hex digits.
#[derive(Clone, Copy)]
struct HexByte(u8);

impl fmt::Display for HexByte {
    ghost output = { λ hex. Some (byte_text hex.0) };

    #[tactic(auto, using(crate::proofs::Written::padded_with_zeros))]
    fn fmt<W: fmt::Write>(&self, f: &mut Formatter<W>) -> fmt::Result {
        let number = self.0;
        write!(f, "{number:02x}")
    }
}

// A number in four hex digits.
#[derive(Clone, Copy)]
struct Hex(u16);

impl fmt::Display for Hex {
    ghost output = { λ hex. Some (hex_text hex.0) };

    #[tactic(auto, using(crate::proofs::Written::padded_with_zeros))]
    fn fmt<W: fmt::Write>(&self, f: &mut Formatter<W>) -> fmt::Result {
        let number = self.0;
        write!(f, "{number:04x}")
    }
}

// Writes what is shown of a packet.
fn write_shown<W: fmt::Write>(f: &mut Formatter<W>, shown: &Shown) -> fmt::Result
    ensures text { DisplaysOnOk W.write_str_gives f.old result (Some (shown_text shown.now)) f.new }
{
    write_parties(f, shown)?;
    write_payload(f, shown)
}

// Writes sender, receiver and protocol of a packet.
#[tactic(auto, unfolding(crate::specs::Lines::parties_text))]
fn write_parties<W: fmt::Write>(f: &mut Formatter<W>, shown: &Shown) -> fmt::Result
    ensures text { DisplaysOnOk W.write_str_gives f.old result
        (Some (parties_text shown.now)) f.new }
{
    let slice = &shown.lax.slice;
    let (source, destination) = (slice.source(), slice.destination());
    let (upper, detail) = (Upper(slice.upper.0), shown.detail);
    write!(f, "{source} > {destination} {upper} {detail}")
}

// Writes the length of a packet's payload, the hops left, the place of a fragment, the verdicts on
// checksums, and whether the length field says nothing.
#[tactic(auto, unfolding(crate::specs::Lines::payload_text))]
fn write_payload<W: fmt::Write>(f: &mut Formatter<W>, shown: &Shown) -> fmt::Result
    ensures text { DisplaysOnOk W.write_str_gives f.old result
        (Some (payload_text shown.now)) f.new }
{
    let slice = &shown.lax.slice;
    let (len, hops, place) = (len_of(slice), hops_of(slice), Place(slice.fragment));
    let (header, payload) = (HeaderVerdict(shown.is_header_right), shown.verdict);
    let no_length = match (has_no_length(slice), &slice.header) {
        (false, _) => "",
        (true, IpHeaderSlice::Ipv4(_)) => " total length 0",
        (true, IpHeaderSlice::Ipv6(_)) => " payload length 0",
    };
    write!(
        f,
        " length {len} hops {hops} fragment {place} checksums {header} {payload}{no_length}"
    )
}

impl fmt::Display for Detail {
    ghost output = { λ detail. Some (detail_text detail) };

    fn fmt<W: fmt::Write>(&self, f: &mut Formatter<W>) -> fmt::Result {
        match *self {
            Detail::Ports(source, destination) => write!(f, "{source}>{destination}"),
            Detail::Message(kind, code) => write!(f, "{kind}/{code}"),
            Detail::Nothing => f.write_str("-"),
        }
    }
}

// The place of a fragment, as it is shown.
#[derive(Clone, Copy)]
struct Place(Option<Fragment>);

impl fmt::Display for Place {
    ghost output = { λ place. Some (place_text place.0) };

    fn fmt<W: fmt::Write>(&self, f: &mut Formatter<W>) -> fmt::Result {
        match self.0 {
            None => f.write_str("-"),
            Some(fragment) => {
                let (identification, offset) = (fragment.identification, fragment.offset);
                let more = if fragment.more_fragments { "+" } else { "" };
                write!(f, "{identification}@{offset}{more}")
            }
        }
    }
}

// Whether the checksum of a header is right, as it is shown.
#[derive(Clone, Copy)]
struct HeaderVerdict(Option<bool>);

impl fmt::Display for HeaderVerdict {
    ghost output = { λ verdict. Some (header_verdict_text verdict.0) };

    fn fmt<W: fmt::Write>(&self, f: &mut Formatter<W>) -> fmt::Result {
        let verdict = match self.0 {
            Some(true) => "right",
            Some(false) => "wrong",
            None => "none",
        };
        f.write_str(verdict)
    }
}

// How much of a packet was captured, if not all of it.
#[derive(Clone, Copy)]
struct Cut(PacketHead);

impl fmt::Display for Cut {
    ghost output = { λ cut. Some (cut_text cut.0) };

    fn fmt<W: fmt::Write>(&self, f: &mut Formatter<W>) -> fmt::Result {
        let (captured_len, original_len) = (self.0.captured_len, self.0.original_len);
        if is_cut(&self.0) {
            write!(f, " cut {captured_len}/{original_len}")
        } else {
            Ok(())
        }
    }
}

/// The lines on standard error at the end: the one on how the listing ends, if it ends before the
/// capture does, and the closing line, unless it has its place on standard output.
#[derive(Clone, Copy)]
pub struct Report {
    /// How the listing ends before the capture does.
    pub end: Option<End>,
    /// What is counted.
    pub closing: Closing,
}

impl FitsLine for Report {}

impl fmt::Display for Report {
    ghost output = { λ report. Some (end_text report.closing.totals.bytes report.end
        ++ report_text report.closing.mode report.closing.has_filter report.closing.totals) };

    fn fmt<W: fmt::Write>(&self, f: &mut Formatter<W>) -> fmt::Result {
        write_end(f, self.closing.totals.bytes, self.end)?;
        match self.closing.mode {
            Mode::Lines | Mode::Packets => write_closing(f, &self.closing),
            Mode::Quiet | Mode::Count => Ok(()),
        }
    }
}

/// What stands on standard output after the records.
#[derive(Clone, Copy)]
pub struct Closing {
    /// What is written of the records.
    pub mode: Mode,
    /// Whether records were chosen by an expression.
    pub has_filter: bool,
    /// What is counted.
    pub totals: Totals,
}

impl FitsLine for Closing {}

impl fmt::Display for Closing {
    ghost output = { λ closing. Some (closing_text closing.mode closing.has_filter
        closing.totals) };

    fn fmt<W: fmt::Write>(&self, f: &mut Formatter<W>) -> fmt::Result {
        match self.mode {
            Mode::Quiet => write_closing(f, self),
            Mode::Count => write_packets(f, self.totals),
            Mode::Lines | Mode::Packets => Ok(()),
        }
    }
}

// Writes the closing line.
fn write_closing<W: fmt::Write>(f: &mut Formatter<W>, closing: &Closing) -> fmt::Result
    ensures text { DisplaysOnOk W.write_str_gives f.old result
        (Some (closing_line closing.now.has_filter closing.now.totals)) f.new }
{
    write_kinds(f, closing.has_filter, closing.totals)?;
    write_damage(f, closing.totals)?;
    write_datagrams(f, closing.totals.datagrams)
}

// Writes how many records are listed.
#[tactic(auto, unfolding(crate::specs::Lines::packets_line))]
fn write_packets<W: fmt::Write>(f: &mut Formatter<W>, totals: Totals) -> fmt::Result
    ensures text { DisplaysOnOk W.write_str_gives f.old result (Some (packets_line totals)) f.new }
{
    let listed = totals.listed;
    if listed == 1 {
        write!(f, "{listed} packet\n")
    } else {
        write!(f, "{listed} packets\n")
    }
}

// Writes how many records there are, and of which kinds.
#[tactic(auto, unfolding(crate::specs::Lines::kinds_text))]
fn write_kinds<W: fmt::Write>(f: &mut Formatter<W>, has_filter: bool, totals: Totals) -> fmt::Result
    ensures text { DisplaysOnOk W.write_str_gives f.old result
        (Some (kinds_text has_filter totals)) f.new }
{
    let (count, ipv4, ipv6) = (Count(has_filter, totals), totals.ipv4, totals.ipv6);
    let (other, refused) = (totals.other, totals.refused);
    write!(
        f,
        "{count} packets: {ipv4} IPv4, {ipv6} IPv6, {other} other, {refused} refused, "
    )
}

// How many records there are, and with an expression how many of them match.
#[derive(Clone, Copy)]
struct Count(bool, Totals);

impl fmt::Display for Count {
    ghost output = { λ count. Some (count_text count.0 count.1) };

    fn fmt<W: fmt::Write>(&self, f: &mut Formatter<W>) -> fmt::Result {
        let (records, listed) = (self.1.records, self.1.listed);
        if self.0 {
            write!(f, "{listed} of {records}")
        } else {
            write!(f, "{records}")
        }
    }
}

// Writes how many are skipped, cut, or have a wrong checksum.
#[tactic(auto, unfolding(crate::specs::Lines::damage_text))]
fn write_damage<W: fmt::Write>(f: &mut Formatter<W>, totals: Totals) -> fmt::Result
    ensures text { DisplaysOnOk W.write_str_gives f.old result (Some (damage_text totals)) f.new }
{
    let (skipped, cut, wrong) = (totals.skipped, totals.cut, totals.wrong);
    write!(
        f,
        "{skipped} skipped, {cut} cut, {wrong} with a wrong checksum"
    )
}

// Writes how many datagrams there were, if packets are put together, and the end of the line.
#[tactic(auto, unfolding(crate::specs::Lines::datagrams_text))]
fn write_datagrams<W: fmt::Write>(f: &mut Formatter<W>, datagrams: Option<Datagrams>) -> fmt::Result
    ensures text { DisplaysOnOk W.write_str_gives f.old result
        (Some (datagrams_text datagrams)) f.new }
{
    match datagrams {
        None => f.write_str("\n"),
        Some(datagrams) => {
            let (whole, discarded) = (datagrams.put_together, datagrams.discarded);
            let left_over = datagrams.left_over();
            write!(
                f,
                "; datagrams: {whole} reassembled, {discarded} discarded, {left_over} incomplete\n"
            )
        }
    }
}

/// The line on an input that is no capture.
#[derive(Clone, Copy)]
pub struct NoCaptureLine(pub CaptureError);

impl FitsLine for NoCaptureLine {}

impl fmt::Display for NoCaptureLine {
    ghost output = { λ line. Some (capture_error_line line.0) };

    #[tactic(auto, unfolding(crate::specs::Lines::capture_error_line))]
    fn fmt<W: fmt::Write>(&self, f: &mut Formatter<W>) -> fmt::Result {
        match self.0 {
            CaptureError::CutOff(e) => {
                let len = e.len;
                write!(f, "error: no capture: {len} bytes are no file header\n")
            }
            CaptureError::Magic(magic) => {
                let magic = Magic(magic);
                write!(f, "error: no capture: {magic}\n")
            }
            CaptureError::Version { major, minor } => {
                write!(f, "error: no capture: the version is {major}.{minor}\n")
            }
        }
    }
}

// A magic number that is none of a capture.
#[derive(Clone, Copy)]
struct Magic(u32);

impl fmt::Display for Magic {
    ghost output = { λ magic. Some (magic_text (other_format_named magic.0) magic.0) };

    #[tactic(auto, using(crate::proofs::Written::padded_with_zeros))]
    fn fmt<W: fmt::Write>(&self, f: &mut Formatter<W>) -> fmt::Result {
        let magic = self.0;
        match other_format_named(magic) {
            Some(other) => write!(f, "this is {other}"),
            None => write!(f, "the magic number is 0x{magic:08x}"),
        }
    }
}

// The format of a file that begins with this magic number, if it is known and not read, and the
// command that makes a capture of the file.
fn other_format_named(magic: u32) -> Option<&'static str>
    ensures value { MatchOption result (other_format_named magic ≡ None)
        (λ other. other_format_named magic ≡ Some other.now) }
{
    let other = match format_named(magic)? {
        FileFormat::ModifiedPcap => "a modified pcap: tshark -r FILE -w - | ipcap",
        FileFormat::Snoop => "snoop: tshark -r FILE -w - | ipcap",
        FileFormat::Gzip => "gzip: zcat FILE | ipcap",
        FileFormat::Zstandard => "zstd: zstdcat FILE | ipcap",
        FileFormat::Xz => "xz: xzcat FILE | ipcap",
        FileFormat::Bzip2 => "bzip2: bzcat FILE | ipcap",
        FileFormat::Lz4 => "lz4: lz4cat FILE | ipcap",
        FileFormat::Zip => "zip: unzip -p FILE | ipcap",
        FileFormat::Pcap | FileFormat::Pcapng => return None,
    };
    Some(other)
}

/// The line on a capture with a link type that is not read.
#[derive(Clone, Copy)]
pub struct LinkTypeLine(pub u32);

impl FitsLine for LinkTypeLine {}

impl fmt::Display for LinkTypeLine {
    ghost output = { λ line. Some (link_type_line line.0) };

    #[tactic(auto, unfolding(crate::specs::Lines::link_type_line))]
    fn fmt<W: fmt::Write>(&self, f: &mut Formatter<W>) -> fmt::Result {
        let (number, name) = (self.0, Name(link_type_name(self.0)));
        write!(f, "error: link type {number}{name} is not read\n")
    }
}

// A name in parentheses after a number.
#[derive(Clone, Copy)]
struct Name(Option<&'static str>);

impl fmt::Display for Name {
    ghost output = { λ name. Some (name_text (option_map (λ text. text.now) name.0)) };

    fn fmt<W: fmt::Write>(&self, f: &mut Formatter<W>) -> fmt::Result {
        match self.0 {
            None => Ok(()),
            Some(name) => write!(f, " ({name})"),
        }
    }
}

// The name of a link type that is not read.
#[tactic(auto, unfolding(crate::specs::Lines::link_type_name))]
fn link_type_name(number: u32) -> Option<&'static str>
    ensures value { option_map (λ text. text.now) result ≡ link_type_name number }
{
    let name = match number {
        3 => "AX25",
        6 => "IEEE802_5",
        7 => "ARCNET_BSD",
        10 => "FDDI",
        51 => "PPP_ETHER",
        100 => "ATM_RFC1483",
        117 => "PFLOG",
        119 => "IEEE802_11_PRISM",
        122 => "IP_OVER_FC",
        123 => "SUNATM",
        138 => "APPLE_IP_OVER_IEEE1394",
        139 => "MTP2_WITH_PHDR",
        140 => "MTP2",
        141 => "MTP3",
        142 => "SCCP",
        143 => "DOCSIS",
        147 => "USER0",
        163 => "IEEE802_11_AVS",
        165 => "BACNET_MS_TP",
        166 => "PPP_PPPD",
        177 => "LINUX_LAPD",
        187 => "BLUETOOTH_HCI_H4",
        189 => "USB_LINUX",
        192 => "PPI",
        195 => "IEEE802_15_4_WITHFCS",
        197 => "ERF",
        201 => "BLUETOOTH_HCI_H4_WITH_PHDR",
        204 => "PPP_WITH_DIR",
        215 => "IEEE802_15_4_NONASK_PHY",
        220 => "USB_LINUX_MMAPPED",
        227 => "CAN_SOCKETCAN",
        230 => "IEEE802_15_4_NOFCS",
        239 => "NFLOG",
        243 => "MPEG_2_TS",
        247 => "INFINIBAND",
        249 => "USBPCAP",
        251 => "BLUETOOTH_LE_LL",
        252 => "WIRESHARK_UPPER_PDU",
        253 => "NETLINK",
        256 => "BLUETOOTH_LE_LL_WITH_PHDR",
        272 => "NORDIC_BLE",
        283 => "IEEE802_15_4_TAP",
        _ => return None,
    };
    Some(name)
}
