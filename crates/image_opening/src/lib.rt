//! The superblock of a whole image, read from its device.
#![tactic(auto)]

mod laws;
mod superblock;

pub use laws::a_read_shows_the_superblock;
pub use superblock::read_head;
