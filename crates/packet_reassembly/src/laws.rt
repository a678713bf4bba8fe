//! Laws of what the types derive. Nothing calls these functions; they are there to be proved.

ghost use Rattle.std.specs.Prelude.{◌≡◌, ◌↔◌, IsTrue, Ok};
ghost use Rattle.packet_reassembly.specs.Ecn.{ecn_with};
ghost use Rattle.packet_reassembly.specs.declared.fragment_ecn.FragmentEcn.{FragmentEcn as Ecn};
ghost use Rattle.packet_reassembly.specs.declared.ip_frag_id.IpFragVersionSpecId.TheVariants as id;

use crate::fragment_ecn::FragmentEcn;
use crate::ip_defrag_error::IpDefragError;
use crate::ip_defrag_pool::{Added, DatagramState, IpDefragPool, IpDefragSlot};
use crate::ip_frag_id::{IpFragId, IpFragVersionSpecId};
use crate::reassemble::IpFragment;
use std::alloc::AllocError;

/// Errors are equal exactly if all that they say is.
pub fn ip_defrag_error_equality(one: &IpDefragError, other: &IpDefragError) -> bool
    ensures same_value { IsTrue result ↔ (one.now ≡ other.now) }
{
    one == other
}

/// Ids are equal exactly if all their fields are.
pub fn ip_frag_id_equality(one: &IpFragId, other: &IpFragId) -> bool
    ensures same_value { IsTrue result ↔ (one.now ≡ other.now) }
{
    one == other
}

/// The fields of an id of IPv4, by their names, are those of the definitions in their order.
pub fn ipv4_id_fields(
    source: [u8; 4],
    destination: [u8; 4],
    protocol: u8,
    identification: u16,
) -> IpFragVersionSpecId
    ensures by_name { result ≡ id.Ipv4 source destination protocol identification }
{
    IpFragVersionSpecId::Ipv4 {
        source,
        destination,
        protocol,
        identification,
    }
}

/// The same of IPv6.
pub fn ipv6_id_fields(
    source: [u8; 16],
    destination: [u8; 16],
    identification: u32,
) -> IpFragVersionSpecId
    ensures by_name { result ≡ id.Ipv6 source destination identification }
{
    IpFragVersionSpecId::Ipv6 {
        source,
        destination,
        identification,
    }
}

/// States are equal exactly if they are the same variant.
pub fn datagram_state_equality(one: &DatagramState, other: &DatagramState) -> bool
    ensures same_value { IsTrue result ↔ (one.now ≡ other.now) }
{
    one == other
}

/// What became of two fragments is equal exactly if they have the same slot, the same is known of
/// their datagrams, and the same datagram was given up for them.
pub fn added_equality(one: &Added, other: &Added) -> bool
    ensures same_value { IsTrue result ↔ (one.now ≡ other.now) }
{
    one == other
}

/// The codepoints of fragments are equal exactly if both fields are.
pub fn fragment_ecn_equality(one: &FragmentEcn, other: &FragmentEcn) -> bool
    ensures same_value { IsTrue result ↔ (one.now ≡ other.now) }
{
    one == other
}

/// Which codepoints fragments have depends neither on their order nor on repetitions.
pub fn fragment_ecn_order()
    ensures order { (a b c : Ecn) → ecn_with (ecn_with a b) c ≡ ecn_with (ecn_with a c) b }
    ensures again { (a b : Ecn) → ecn_with (ecn_with a b) b ≡ ecn_with a b }
{}

/// The clone of an error is equal to it, and cloning never fails; so with those below.
pub fn ip_defrag_error_clone(error: &IpDefragError) -> Result<IpDefragError, AllocError>
    ensures same_value { result ≡ Ok error.now }
{
    error.clone()
}

/// The clone of an id.
pub fn ip_frag_id_clone(id: &IpFragId) -> Result<IpFragId, AllocError>
    ensures same_value { result ≡ Ok id.now }
{
    id.clone()
}

/// The clone of the fields of a packet.
pub fn ip_frag_version_spec_id_clone(
    fields: &IpFragVersionSpecId,
) -> Result<IpFragVersionSpecId, AllocError>
    ensures same_value { result ≡ Ok fields.now }
{
    fields.clone()
}

/// The clone of a state.
pub fn datagram_state_clone(state: &DatagramState) -> Result<DatagramState, AllocError>
    ensures same_value { result ≡ Ok state.now }
{
    state.clone()
}

/// The clone of what became of a fragment.
pub fn added_clone(added: &Added) -> Result<Added, AllocError>
    ensures same_value { result ≡ Ok added.now }
{
    added.clone()
}

/// The clone of the codepoints of fragments.
pub fn fragment_ecn_clone(ecn: &FragmentEcn) -> Result<FragmentEcn, AllocError>
    ensures same_value { result ≡ Ok ecn.now }
{
    ecn.clone()
}

/// The clone of a fragment.
pub fn ip_fragment_clone<'a>(fragment: &IpFragment<'a>) -> Result<IpFragment<'a>, AllocError>
    ensures same_value { result ≡ Ok fragment.now }
{
    Clone::clone(fragment)
}

/// When a pool is dropped, its slots are as they were.
pub fn ip_defrag_pool_drop(slots: &mut [IpDefragSlot], timeout: u64) -> u64
    ensures same_slots { slots.new ≡ slots.old }
{
    let pool = IpDefragPool { slots, timeout };
    pool.timeout
}
