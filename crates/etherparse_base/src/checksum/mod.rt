//! Checksums of the internet protocols: ones-complement sums of words of sixteen bits (RFC 1071).

mod end_around;
mod sum_16bit_words;
pub mod u32_16bit_word;
pub mod u64_16bit_word;
mod update;
mod wide_u64;
mod words;

pub use sum_16bit_words::Sum16BitWords;
pub use update::{
    update_2bytes, update_2bytes_with_no_zero, update_4bytes, update_4bytes_with_no_zero,
    update_16bytes, update_16bytes_with_no_zero,
};
