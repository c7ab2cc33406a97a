//! What every zone's step is made of: what it posts, which zone an address and a data block are of, and what its calls leave of the
//! device. The crates of the kinds of zone stand on it side by side.
//!
//! Only tested: as part of the core.
#![tactic(auto)]

mod homes;
mod posts;

pub use homes::{counts_of, home_of, physical_of};
pub use posts::Posts;
