//! Whether a block that the index named is shared: only where it was read, and has exactly the bytes that are written.
//!
//! Only tested: two blocks that differ in their last byte, with claims of a slab.
#![tactic(auto)]

mod decision;
mod judged;
mod laws;
mod verdict;

pub use decision::{decide, judge};
pub use judged::Judged;
pub use laws::what_is_decided_is_one;
pub use verdict::Verdict;
