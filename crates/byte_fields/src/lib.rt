//! Numbers and bytes at places of a buffer, as the formats of an image lay them: each number little-endian.
//!
//! A writer says what stands up to the end of its field (`front`), and that all behind it stays (`rest`). So a row of
//! writers, each at the end of the one before, spells the bytes that a format's definition joins with `++`.
//!
//! Only tested: one row of known bytes.
#![tactic(auto)]

mod mapping;
mod read;
mod write;

pub use mapping::{put_mapping, read_mapping};
pub use read::{read_u8, read_u16, read_u32, read_u64};
pub use write::{put, put_u8, put_u16, put_u32, put_u64, put_zeros};
