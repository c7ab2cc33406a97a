//! Blocks of eight sectors that hold records, one list of them over all sectors.
//!
//! A sector has 512 bytes: a head of 32, then its records, each of one width, and zeros. A block's records fill sector
//! after sector. What heads and records a format has is said by `Format`; how they are laid out, written and read is
//! the same for each.
//!
//! Only tested: as part of the formats that use it.
#![tactic(auto)]

mod forms;
mod reader;
mod records;
mod writer;

pub use forms::Format;
pub use reader::{bytes_of_sector, is_sector, read_records};
pub use records::Records;
pub use writer::{put_block, put_sector};
