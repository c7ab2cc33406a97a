//! The layout of an image on its device: its superblock, and where the
//! entries of its recovery journal map an address.
//!
//! Only tested: vectors; all pairs of faults; the printed names; the ends of the ranges of a plan.
#![tactic(auto)]

mod fault;
mod planner;
mod superblock_reader;
mod superblock_writer;
mod values;

pub use fault::{Field, LayoutFault, SuperFault};
pub use planner::plan;
pub use superblock_reader::read_super;
pub use superblock_writer::write_super;
pub use values::mapping_at;
