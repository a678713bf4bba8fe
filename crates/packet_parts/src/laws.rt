//! What the derived `==`, `clone` and `hash` of the layers' values say, each as the clause of one
//! small function. Nothing calls them: they are there to be proved.

ghost use Rattle.std.specs.Prelude.{◌≡◌, ◌↔◌, ◌++◌, IsTrue, Ok, fold};
ghost use Rattle.std.specs.Hash as fed;
ghost use Rattle.packet_parts.specs.IpSlice.{ip_parts};

use crate::address::Ipv6Text;
use crate::checksum::{Absence, Verdict};
use crate::fragment::Fragment;
use crate::fragment_key::{Ipv4Key, Ipv6Key};
use crate::ip_slice::{IpHeaderSlice, LaxIpSlice};
use std::alloc::AllocError;
use std::hash::{Hash, Hasher};

fn ipv4_key_equality(a: &Ipv4Key, b: &Ipv4Key) -> bool
    ensures same_value { IsTrue result ↔ (a.now ≡ b.now) }
{
    a == b
}

fn ipv6_key_equality(a: &Ipv6Key, b: &Ipv6Key) -> bool
    ensures same_value { IsTrue result ↔ (a.now ≡ b.now) }
{
    a == b
}

fn ipv6_text_equality(a: &Ipv6Text, b: &Ipv6Text) -> bool
    ensures same_value { IsTrue result ↔ (a.now ≡ b.now) }
{
    a == b
}

fn verdict_equality(a: &Verdict, b: &Verdict) -> bool
    ensures same_value { IsTrue result ↔ (a.now ≡ b.now) }
{
    a == b
}

// Slices of packets are equal if they show the same parts, wherever these lie in memory.
fn lax_ip_slice_equality(a: &LaxIpSlice, b: &LaxIpSlice) -> bool
    ensures same_parts { IsTrue result ↔
        (ip_parts a.now.slice ≡ ip_parts b.now.slice) × (a.now.stop ≡ b.now.stop) }
{
    a == b
}

// A clone is equal, and cloning never fails.
fn absence_clone(absence: &Absence) -> Result<Absence, AllocError>
    ensures same_value { result ≡ Ok absence.now }
{
    absence.clone()
}

fn fragment_clone(fragment: &Fragment) -> Result<Fragment, AllocError>
    ensures same_value { result ≡ Ok fragment.now }
{
    fragment.clone()
}

fn ip_header_slice_clone<'a>(header: &IpHeaderSlice<'a>) -> Result<IpHeaderSlice<'a>, AllocError>
    ensures same_value { result ≡ Ok header.now }
{
    header.clone()
}

fn ipv4_key_clone(key: &Ipv4Key) -> Result<Ipv4Key, AllocError>
    ensures same_value { result ≡ Ok key.now }
{
    key.clone()
}

fn ipv6_key_clone(key: &Ipv6Key) -> Result<Ipv6Key, AllocError>
    ensures same_value { result ≡ Ok key.now }
{
    key.clone()
}

fn ipv6_text_clone(text: &Ipv6Text) -> Result<Ipv6Text, AllocError>
    ensures same_value { result ≡ Ok text.now }
{
    text.clone()
}

fn verdict_clone(verdict: &Verdict) -> Result<Verdict, AllocError>
    ensures same_value { result ≡ Ok verdict.now }
{
    verdict.clone()
}

fn lax_ip_slice_clone<'a>(slice: &LaxIpSlice<'a>) -> Result<LaxIpSlice<'a>, AllocError>
    ensures same_value { result ≡ Ok slice.now }
{
    slice.clone()
}

// A key is hashed by all its fields.
fn ipv4_key_hash<H: Hasher>(key: &Ipv4Key, state: &mut H)
    ensures by_fields { state.new ≡ fold H.write state.old (fed.slice fed.u8 key.now.source
        ++ (fed.slice fed.u8 key.now.destination ++ (fed.u8 key.now.protocol
        ++ fed.u16 key.now.identification))) }
{
    key.hash(state);
}

fn ipv6_key_hash<H: Hasher>(key: &Ipv6Key, state: &mut H)
    ensures by_fields { state.new ≡ fold H.write state.old (fed.slice fed.u8 key.now.source
        ++ (fed.slice fed.u8 key.now.destination ++ fed.u32 key.now.identification)) }
{
    key.hash(state);
}
