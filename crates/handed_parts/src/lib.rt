//! The parts of committed entries that the recovery journal handed out to zones, and how far each zone has handled them.
//!
//! A committed entry has a part in a logical zone, which sets a slot, and parts in physical zones, which count a block up or
//! down. A zone reports each part once it is handled, with its low point: from there on its changes aren't durable. Its
//! watermark is the least point of all this, of the half of an entry that adds: below it each part is handled and durable.
//!
//! All room is taken in the constructor: no later call can be refused for memory.
//!
//! Only tested: the watermarks of two zones over the parts of one entry.
#![tactic(auto)]

mod least;
mod part;
mod parts;

pub use part::Part;
pub use parts::HandedParts;
