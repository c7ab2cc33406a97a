//! What an image says of itself: whether its last session was closed and how many entries a recovery would find, how many
//! chapters its index has, how much of its space is used, and its logical size. It writes nothing.
//!
//! Only tested: an image that wasn't closed; and the command (`vdo_cli`).
#![tactic(auto)]

mod forms;
mod status_reader;

pub use forms::ImageStatus;
pub use status_reader::read_status;
