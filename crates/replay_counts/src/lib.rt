//! The stored counts of a whole image: of each data block what its counter, the slabs' journals and the window of the
//! recovery journal say together.
//!
//! What is asked for grows with the image: for each data block three bytes, for each sector of counters 40, and 16 for
//! each update that the journals hold.
//!
//! Only tested: updates below, at and above a commit point, out of order and twice; counts at 0 and 254, a counter past
//! it; a sector of another image; each read failing in turn.
//!
//! No rows yet: an accepted case of a count that leaves its range in each image that has what was read (`CountsFail`).
#![tactic(auto)]

mod forms;
mod replayed_counts;
mod window;

pub use forms::{RecoveredCounts, SectorPoints};
pub use replayed_counts::counts_with;
pub use window::counts;
