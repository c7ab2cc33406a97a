//! Names of blocks by their content, and what a name leads to.
//!
//! Only tested: that `Murmur` is MurmurHash3 of the block: vectors that a second program computed.
#![tactic(auto)]

mod name;
mod namers;

pub use name::{Name, route, tag};
pub use namers::{ConstantName, Murmur, Namer};
