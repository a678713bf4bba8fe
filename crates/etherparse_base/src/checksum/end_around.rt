//! Sums with the end-around carry: a carry out of the width is added at the low end (RFC 1071
//! section 1).

ghost use Rattle.std.specs.Prelude.{◌≡◌, ◌+◌};
ghost use Rattle.etherparse_base.specs.Private.WideSums.{SameFold};
ghost use Rattle.etherparse_base.specs.WordSums.{checksum_of, end_around_sum, folded_sum};
ghost use Rattle.etherparse_base.specs.WordSums.{with_no_zero};

/// The sum of two numbers of 64 bits.
#[inline(always)]
pub(super) fn add_u64(a: u64, b: u64) -> u64
    ensures sum { result ≡ end_around_sum u64.MAX a b }
    ensures folded { SameFold result (a + b) }
{
    let (sum, carry) = a.overflowing_add(b);
    if carry { sum + 1 } else { sum }
}

/// The sum of two numbers of 32 bits.
#[inline(always)]
pub(super) fn add_u32(a: u32, b: u32) -> u32
    ensures sum { result ≡ end_around_sum u32.MAX a b }
    ensures folded { SameFold result (a + b) }
{
    let (sum, carry) = a.overflowing_add(b);
    if carry { sum + 1 } else { sum }
}

/// The sum of two numbers of 16 bits.
#[inline(always)]
fn add_u16(a: u16, b: u16) -> u16
    ensures sum { result ≡ end_around_sum u16.MAX a b }
{
    let (sum, carry) = a.overflowing_add(b);
    if carry { sum + 1 } else { sum }
}

/// A sum of 64 bits reduced to 32.
#[inline(always)]
pub(super) fn halve_u64(sum: u64) -> u32
    ensures folded { folded_sum result ≡ folded_sum sum }
{
    add_u32((sum & 0xffff_ffff) as u32, (sum >> 32) as u32)
}

/// A sum of 32 bits reduced to 16, which is its fold.
#[inline(always)]
pub(super) fn halve_u32(sum: u32) -> u16
    ensures folded { result ≡ folded_sum sum }
{
    add_u16((sum & 0xffff) as u16, (sum >> 16) as u16)
}

/// The complement of the fold of a sum of 64 bits.
#[inline(always)]
pub(super) fn complement_u64(sum: u64) -> u16
    ensures value { result ≡ checksum_of sum }
{
    !halve_u32(halve_u64(sum))
}

/// A checksum with 0xffff in place of 0.
#[inline(always)]
pub(super) fn without_zero(checksum: u16) -> u16
    ensures value { result ≡ with_no_zero checksum }
{
    if checksum == 0 { 0xffff } else { checksum }
}
