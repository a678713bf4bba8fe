//! A reader of pcapng files, block by block (draft-ietf-opsawg-pcapng).

pub mod blocks;
pub mod interfaces;
pub mod packets;
pub mod times;
