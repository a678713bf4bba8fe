//! What became of a packet that was given to a pool, as numbers.

ghost use Rattle.std.specs.Prelude.{◌≡◌, ◌++◌, replicate};
ghost use Rattle.c_answers.specs.DefragAdded.{added_in_c, id_in_c, no_id, not_added, vlan_id_in_c};
ghost use Rattle.c_answers.specs.DefragAdded.{vlan_id_of};
ghost use Rattle.c_answers.specs.DefragAnswer.{state_in_c};

use crate::defrag_error::DefragError;
use packet_reassembly::ip_defrag_pool::{Added, DatagramState};
use packet_reassembly::ip_frag_id::{IpFragId, IpFragVersionSpecId};

/// Not all of the datagram has come.
pub const INCOMPLETE: u32 = 0;

/// All of it has.
pub const COMPLETE: u32 = 1;

/// It is discarded.
pub const DISCARDED: u32 = 2;

// There is none.
const NO_FRAGMENT: u32 = 3;

const NO_VLAN: u32 = 65536;

/// What all fragments of one packet have in common.
#[repr(C)]
#[derive(Drop)]
pub struct FragId {
    /// The VLAN identifier of the outer tag; 65536 if there is none.
    pub outer_vlan_id: u32,
    /// That of the inner tag.
    pub inner_vlan_id: u32,
    /// The number that the sender gave the packet.
    pub identification: u32,
    /// The version, 4 or 6; 0 if there is no packet.
    pub version: u8,
    /// The protocol of what was fragmented, in IPv4; 0 in IPv6.
    pub protocol: u8,
    /// The address of the sender; of IPv4 the first 4 bytes.
    pub source: [u8; 16],
    /// The address of the receiver.
    pub destination: [u8; 16],
}

/// What became of a packet.
#[repr(C)]
#[derive(Drop)]
pub struct DefragAdded {
    /// Why it was not added; its kind is 0 if it was, or if it is no fragment.
    pub error: DefragError,
    /// The slot of its datagram.
    pub slot: usize,
    /// What is known of the datagram: 0, 1 or 2 as of one datagram; 3 if there is none.
    pub state: u32,
    /// The datagram that was given up for it; its version is 0 if none was.
    pub given_up: FragId,
}

/// A packet that was written.
#[repr(C)]
#[derive(Drop)]
pub struct DefragWritten {
    /// Its length in bytes; 0 if there is none.
    pub len: usize,
    /// Why there is none, although the datagram is complete.
    pub error: DefragError,
}

/// The VLAN identifier that a number says, below 65536; a greater one says that there is none.
pub fn vlan_id(number: u32) -> Option<u16>
    ensures value { result ≡ vlan_id_of number }
{
    if number < NO_VLAN {
        Some(number as u16)
    } else {
        None
    }
}

// One that C gets.
fn vlan_number(id: Option<u16>) -> u32
    ensures value { result ≡ vlan_id_in_c id }
{
    match id {
        Some(id) => u32::from(id),
        None => NO_VLAN,
    }
}

// The number of a state.
fn state_number(state: DatagramState) -> u32
    ensures value { result ≡ state_in_c state }
{
    match state {
        DatagramState::Incomplete => INCOMPLETE,
        DatagramState::Complete => COMPLETE,
        DatagramState::Discarded => DISCARDED,
    }
}

impl DefragAdded {
    /// A packet that was added.
    pub fn of(added: &Added) -> DefragAdded
        ensures value { result ≡ added_in_c added.now }
    {
        DefragAdded {
            error: DefragError::of_kind(0),
            slot: added.slot,
            state: state_number(added.state),
            given_up: match added.given_up {
                Some(id) => FragId::of(id),
                None => FragId::none(),
            },
        }
    }

    /// One that was not.
    pub fn none(error: DefragError) -> DefragAdded
        ensures value { result ≡ not_added error }
    {
        DefragAdded {
            error,
            slot: 0,
            state: NO_FRAGMENT,
            given_up: FragId::none(),
        }
    }
}

impl FragId {
    // The id of a datagram.
    fn of(id: IpFragId) -> FragId
        ensures value { result ≡ id_in_c id }
    {
        let outer_vlan_id = vlan_number(id.outer_vlan_id);
        let inner_vlan_id = vlan_number(id.inner_vlan_id);
        match id.ip {
            IpFragVersionSpecId::Ipv4 {
                source,
                destination,
                protocol,
                identification,
            } => FragId {
                outer_vlan_id,
                inner_vlan_id,
                identification: u32::from(identification),
                version: 4,
                protocol,
                source: wide(source),
                destination: wide(destination),
            },
            IpFragVersionSpecId::Ipv6 {
                source,
                destination,
                identification,
            } => FragId {
                outer_vlan_id,
                inner_vlan_id,
                identification,
                version: 6,
                protocol: 0,
                source,
                destination,
            },
        }
    }

    // No datagram.
    fn none() -> FragId
        ensures value { result ≡ no_id }
    {
        FragId {
            outer_vlan_id: 0,
            inner_vlan_id: 0,
            identification: 0,
            version: 0,
            protocol: 0,
            source: [0; 16],
            destination: [0; 16],
        }
    }
}

// An address of IPv4 in the place of one of IPv6: 0 after it.
fn wide(address: [u8; 4]) -> [u8; 16]
    ensures value { result ≡ address ++ replicate 12 0 }
{
    let [a, b, c, d] = address;
    [a, b, c, d, 0, 0, 0, 0, 0, 0, 0, 0, 0, 0, 0, 0]
}
