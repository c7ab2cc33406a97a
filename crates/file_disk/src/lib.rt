//! A file as a device of blocks, and how it is opened. The device tells what its file tells: a file in memory its bytes and
//! its log, the system's file nothing.
//!
//! Only tested: that a file grows no further than it is written, and that a read or a write of the system's file that was
//! interrupted is carried on; on a real file, and on one that gives a few bytes at a time and fails. So is how a real file
//! is opened: alone to change it, shared and for reading to look at it, and never at the number of a standard stream; and
//! how large a file the system allows, by tables of its limits.
//!
//! Not there: any clause on what the system's calls on a file and those that open one do (`ByteFile`, `OpenCalls`): that is
//! the system's word. A file that tells is taken to lose, at a stop, whole sectors alone (`IsFileImage`).
#![tactic(auto)]

mod byte_file;
mod disk;
mod file_history;
mod history;
mod laws;
mod limits;
mod memory;
mod open_calls;
mod open_files;
mod places;
mod system_calls;
mod system_file;

pub use byte_file::ByteFile;
pub use disk::FileDisk;
pub use laws::files_as_devices;
pub use limits::{file_limit, largest_file};
pub use memory::MemFile;
pub use open_calls::{Attempt, FileKind, OpenCalls, OpenMode};
pub use open_files::{Access, open_disk, open_file};
pub use system_file::SystemFile;
