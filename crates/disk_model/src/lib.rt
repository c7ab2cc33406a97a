//! A device by the log of its calls, what a stop may leave of it, and sources and sinks that count their faults.
//!
//! Two devices are in memory. `MemDisk` keeps its log, and fails as a plan or a fuse says; so tests and a copy that is cut
//! off run on it. `RamDisk` never fails, and its log is for contracts alone: so it takes no room for each call.
//!
//! Only tested: the countdown of planned faults, fuses and picked images, by tables.
#![tactic(auto)]

mod bent;
mod call;
mod disk;
mod faults;
mod fuse;
mod history;
mod images;
mod memory;
mod memory_streams;
mod numbers;
mod picks;
mod ram;
mod reads;
mod streams;

pub use bent::{BendAt, BentDisk};
pub use call::{Call, Failed};
pub use disk::Disk;
pub use faults::{CallKind, FaultAt, faults_of_a_plan};
pub use fuse::{Fuse, calls_that_a_fuse_cuts};
pub use images::{images_of_a_log, images_of_what_is_looked_at};
pub use memory::MemDisk;
pub use memory_streams::{MemSink, MemSource};
pub use numbers::{next_state, number_in};
pub use picks::a_picked_image_may_stand;
pub use ram::RamDisk;
pub use reads::{BlocksFault, read_block, read_blocks};
pub use streams::{OpenGate, Sink, Source, ZoneGate};
