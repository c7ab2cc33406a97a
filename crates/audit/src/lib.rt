//! Whether the stored count of each data block of an image is the number of its mappings. It works on images that weren't
//! closed too, and writes nothing. The map and the counts that it compares can be read by themselves.
//!
//! What is asked for grows with the image: for each data block a byte, beside what its map and its counts take, and 16 bytes
//! for each block that differs. A data block that is mapped more than 255 times takes some more.
//!
//! Only tested: images with a window, a leaf and counters that are right, too great and too small; each read failing in
//! turn.
//!
//! Not there: that what the reads of an honest device gave is what its one image has; that no data blocks are read but
//! those of linked pages, and each of them once, so that of a device which gives two contents of one block nothing is
//! said.
#![tactic(auto)]

mod auditor;
mod comparison;
mod contents;
mod forms;
mod tallies;

pub use auditor::{audit, audit_with, report_of};
pub use comparison::count_used;
pub use contents::{contents_with, read_contents};
pub use forms::{Contents, Difference, Report};
pub use tallies::tally;
