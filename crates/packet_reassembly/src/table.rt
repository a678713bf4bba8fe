//! The table of the fragments that have come: a byte for each 8 bytes of the datagram, a unit.

ghost use Rattle.std.specs.Prelude.{ℕ, ◌≡◌, ◌*◌, ◌+◌, ◌-◌, ◌<◌, ◌≤◌, ◌%◌, ◌/◌, ◌≢◌, Some, length};
ghost use Rattle.std.specs.Prelude.{◌↔◌, ◌⊎◌, IsTrue, IsFalse, slice_index, slice_range, true, false};
ghost use Rattle.packet_reassembly.specs.Fragment.{Takes};
ghost use Rattle.packet_reassembly.specs.declared.table.Arrival.TheVariants.{New, Same};
ghost use Rattle.packet_reassembly.specs.Table.{AreKept, Arrives, Begins, Fits, HasCome, IsMarked};
ghost use Rattle.packet_reassembly.specs.Table.{IsInside, IsRange, IsTable, fragment_of, held};
ghost use Rattle.packet_reassembly.specs.Table.{has_more as more_after, range_at, units_at};
ghost use Rattle.packet_reassembly.specs.Table.{units_to};

use crate::ip_frag_range::IpFragRange;

/// A unit that has not come.
pub const EMPTY: u8 = 0;

/// The first unit of a fragment that has come.
pub const BEGINS: u8 = 1;

/// Any other unit of a fragment that has come.
pub const GOES_ON: u8 = 2;

/// How far a datagram goes, by the fragments that have come.
#[derive(Clone, Copy, Debug, PartialEq, Eq)]
pub struct Extent {
    /// The place after the last byte that has come.
    pub reach: usize,
    /// Whether the last fragment has come.
    pub ended: bool,
    /// How many units of 8 bytes have come; the last unit of a datagram can be shorter.
    pub units: usize,
}

impl Extent {
    /// Nothing has come.
    pub const NONE: Extent = Extent {
        reach: 0,
        ended: false,
        units: 0,
    };
}

/// How a fragment stands to those that have come.
#[derive(Clone, Copy, Debug, PartialEq, Eq)]
pub enum Arrival {
    /// It is new, and no datagram is ruled out by it.
    New,
    /// It has come before.
    Same,
    /// No datagram has it and one of those that have come.
    Conflict,
}

/// Takes out what the table has for its first units; it has nothing for the others.
pub fn clear(units: &mut [u8], count: usize)
    requires within { count ≤ length units.old }
    requires others { (k : ℕ) → count ≤ k → slice_index units.old k ≡ 0 }
    ensures len { length units.new ≡ length units.old }
    ensures empty { (k : ℕ) → slice_index units.new k ≡ 0 }
{
    units[..count].fill(EMPTY);
}

/// Notes a new fragment in the table. Returns how many units it has.
pub fn mark(units: &mut [u8], range: IpFragRange) -> usize
    requires table { 8192 ≤ length units.old }
    requires range { IsRange range }
    ensures marked { IsMarked units.old range units.new }
    ensures count { result ≡ units_at range }
{
    let first = range.start / 8;
    let after = range.end.div_ceil(8);
    units[first..after].fill(GOES_ON);
    units[first] = BEGINS;
    after - first
}

// Whether a fragment begins with one of the units of a range after its first.
fn begins_inside(units: &[u8], range: IpFragRange) -> bool
    requires table { 8192 ≤ length units.now }
    requires range { IsRange range }
    ensures some { IsTrue result → (k : ℕ) × IsInside range k × Begins units.now k }
    ensures none { IsFalse result → (k : ℕ) → IsInside range k → ¬ Begins units.now k }
{
    let first = range.start / 8;
    let after = range.end.div_ceil(8);
    units[first + 1..after].contains(&BEGINS)
}

// Whether a fragment ends before a unit, and has the one before it.
fn ends_before(units: &[u8], unit: usize) -> bool
    requires some { 0 < unit }
    requires within { unit ≤ length units.now }
    ensures ends { IsTrue result ↔
        (HasCome units.now (unit - 1) × (slice_index units.now unit ≢ 2)) }
{
    units[unit - 1] != EMPTY && (unit == units.len() || units[unit] != GOES_ON)
}

// Whether more fragments follow one that is kept and ends at a place.
fn has_more(extent: Extent, end: usize) -> bool
    ensures more { result ≡ more_after extent end }
{
    !(extent.ended && end == extent.reach)
}

// Whether the memory holds a payload at a range.
fn holds(bytes: &[u8], range: IpFragRange, payload: &[u8]) -> bool
    requires some { range.start ≤ range.end }
    requires within { range.end ≤ length bytes.now }
    ensures same { IsTrue result ↔ (slice_range bytes.now range.start range.end ≡ payload.now) }
{
    &bytes[range.start..range.end] == payload
}

// Whether a fragment has the range of the one that begins with the same unit.
fn is_range(units: &[u8], extent: Extent, range: IpFragRange) -> bool
    requires table { IsTable units.now extent }
    requires fits { IsRange range }
    requires begins { Begins units.now (range.start / 8) }
    requires alone { (k : ℕ) → IsInside range k → ¬ Begins units.now k }
    requires before_end { extent.ended ≡ true → range.end ≤ extent.reach }
    ensures same { IsTrue result ↔ (range_at units.now extent (range.start / 8) ≡ range) }
{
    range.more_fragments == has_more(extent, range.end) && ends_before(units, range.end.div_ceil(8))
}

// Whether a fragment goes past the end of the datagram, or ends it before what has come.
fn goes_past(extent: Extent, range: IpFragRange) -> bool
    ensures past { IsTrue result → ((extent.ended ≡ true) × (extent.reach < range.end))
        ⊎ ((range.more_fragments ≡ false) × (range.end < extent.reach)) }
    ensures before_end { IsFalse result → extent.ended ≡ true → range.end ≤ extent.reach }
    ensures at_end { IsFalse result → range.more_fragments ≡ false → extent.reach ≤ range.end }
{
    extent.ended && range.end > extent.reach || !range.more_fragments && range.end < extent.reach
}

/// How a fragment stands to those that have come, and how many entries of the table were read.
pub fn arrival_of(
    bytes: &[u8],
    units: &[u8],
    extent: Extent,
    range: IpFragRange,
    payload: &[u8],
) -> (Arrival, usize)
    requires kept { AreKept bytes.now units.now extent }
    requires fits { Fits range payload.now }
    ensures arrives { Arrives bytes.now units.now extent range payload.now result.0 }
    ensures all { result.0 ≡ New → result.1 ≡ units_at range }
    ensures same { result.0 ≡ Same → result.1 ≡ units_at range + 2 }
    ensures few { result.1 ≤ units_at range + 2 }
{
    if goes_past(extent, range) {
        return (Arrival::Conflict, 0);
    }
    let first = range.start / 8;
    let entries = range.end.div_ceil(8) - first;
    if begins_inside(units, range) {
        return (Arrival::Conflict, entries - 1);
    }
    let found = units[first];
    if found == EMPTY {
        return (Arrival::New, entries);
    }
    if found == GOES_ON {
        return (Arrival::Conflict, entries);
    }
    if is_range(units, extent, range) && holds(bytes, range, payload) {
        (Arrival::Same, entries + 2)
    } else {
        (Arrival::Conflict, entries + 2)
    }
}

/// Keeps a new fragment. Returns how far the datagram goes then, and how many entries of the table
/// were written; the first is written twice.
pub fn keep(
    bytes: &mut [u8],
    units: &mut [u8],
    extent: Extent,
    range: IpFragRange,
    payload: &[u8],
) -> (Extent, usize)
    requires kept { AreKept bytes.old units.old extent }
    requires fits { Fits range payload.now }
    requires new { Arrives bytes.old units.old extent range payload.now New }
    ensures kept { AreKept bytes.new units.new result.0 }
    ensures takes { Takes (Some (held bytes.old units.old extent)) (fragment_of range payload.now)
        (Some (held bytes.new units.new result.0)) }
    ensures all { result.1 ≡ units_at range + 1 }
{
    bytes[range.start..range.end].copy_from_slice(payload);
    let count = mark(units, range);
    let extent = Extent {
        reach: extent.reach.max(range.end),
        ended: extent.ended | !range.more_fragments,
        units: extent.units + count,
    };
    (extent, count + 1)
}
