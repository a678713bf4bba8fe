//! `etherparse` and the layers over it for C, and for every language that calls C functions: a
//! static library.
//!
//! `include/` has the header files that declare what is here. A slice is a pointer and a length. No
//! call keeps a pointer but those into memory that the caller lends for the state of reassembly, and
//! none allocates memory or makes a system call.
#![tactic(auto)]

pub mod checksum;
pub mod defrag_buf;
pub mod defrag_memory;
pub mod defrag_pool;
pub mod defrag_slots;
pub mod filter;
pub mod frame;
pub mod ipv4_header;
pub mod ipv4_view;
pub mod ipv6_header;
pub mod ipv6_view;
pub mod ipv6_walk;
pub mod packet_fields;
mod room;
pub mod text;
pub mod upper_checksum;

use c_answers::defrag_added::{DefragAdded, DefragWritten, FragId};
use c_answers::defrag_error::DefragError;
use c_answers::error::{Error, Rest};
use c_answers::filter_refusal::FilterRefusal;
use c_answers::frame::Frame;
use c_answers::packet_layers::{Packet, PacketIp, PacketLink, PacketTransport, Part, VlanTag};
use c_answers::rewriting::{ChecksumAnswer, ReachAnswer};
use defrag_buf::DefragBuf;
use defrag_memory::{DefragBufState, DefragPoolState, DefragSlot};
use defrag_pool::DefragPool;
use defrag_slots::Slots;
use ipv4_header::{
    Ipv4Bytes, Ipv4Fields, Ipv4HeaderChecksumAnswer, Ipv4LengthsAnswer, Ipv4NewAnswer,
    Ipv4ReadAnswer,
};
use ipv4_view::{Ipv4ViewAnswer, Ipv4ViewFields};
use ipv6_header::{Ipv6Bytes, Ipv6Fields, Ipv6ReadAnswer};
use ipv6_view::{Ipv6ViewAnswer, Ipv6ViewFields};
use ipv6_walk::Ipv6WalkAnswer;
use packet_filter::Filter;
use packet_reassembly::ip_defrag_buf::IpDefragBuf;
use packet_reassembly::ip_defrag_pool::IpDefragSlot;
use std::mem::{align_of, size_of};

// The sizes in bytes that the header files declare. First those of `include/etherparse.h`.
const _: () = prove!(size_of::<Error>() == 40 && size_of::<Rest>() == 16);

const _: () = prove!(size_of::<Ipv4Fields>() == 64 && size_of::<Ipv4ReadAnswer>() == 120);

const _: () = prove!(size_of::<Ipv4ViewFields>() == 24 && size_of::<Ipv4ViewAnswer>() == 80);

const _: () = prove!(size_of::<Ipv4NewAnswer>() == 104 && size_of::<Ipv4LengthsAnswer>() == 48);

const _: () = prove!(size_of::<Ipv4HeaderChecksumAnswer>() == 4 && size_of::<Ipv4Bytes>() == 61);

const _: () = prove!(size_of::<Ipv6Fields>() == 44 && size_of::<Ipv6ReadAnswer>() == 104);

const _: () = prove!(size_of::<Ipv6ViewFields>() == 44 && size_of::<Ipv6ViewAnswer>() == 104);

const _: () = prove!(size_of::<Ipv6Bytes>() == 41 && size_of::<Ipv6WalkAnswer>() == 64);

const _: () = prove!(size_of::<Part>() == 16 && size_of::<VlanTag>() == 4);

const _: () = prove!(size_of::<PacketLink>() == 56 && size_of::<PacketIp>() == 72);

const _: () = prove!(size_of::<PacketTransport>() == 48 && size_of::<Packet>() == 224);

const _: () = prove!(size_of::<Frame>() == 24 && size_of::<&[u8]>() == 16);

// Those of `include/etherparse_filter.h`, and the alignment of a filter.
const _: () = prove!(size_of::<Filter>() == 6176 && align_of::<Filter>() == 16);

const _: () = prove!(size_of::<FilterRefusal>() == 16);

// Those of `include/etherparse_rewriting.h`.
const _: () = prove!(size_of::<ChecksumAnswer>() == 8 && size_of::<ReachAnswer>() == 8);

// Those of `include/etherparse_reassembly.h`. In the states there is room for the library's values.
const _: () = prove!(size_of::<DefragError>() == 16 && size_of::<DefragWritten>() == 24);

const _: () = prove!(size_of::<FragId>() == 48 && size_of::<DefragAdded>() == 80);

const _: () = prove!(size_of::<DefragBuf>() == 8 && size_of::<DefragPool>() == 8);

const _: () = prove!(size_of::<DefragBufState>() == 64 && size_of::<IpDefragBuf>() == 64);

const _: () = prove!(size_of::<DefragPoolState>() == 24 && size_of::<Slots>() == 24);

const _: () = prove!(size_of::<DefragSlot>() == 168 && size_of::<IpDefragSlot>() == 168);
