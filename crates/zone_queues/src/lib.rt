//! The lists by which zones hand items to each other. An item goes to the outbox of its sender to its receiver, from
//! there with all others of that outbox to the receiver's inbox, and is taken there.
//!
//! All room is taken in the constructors: no later call can be refused for memory.
//!
//! Only tested: two rows.
#![tactic(auto)]

mod lane;
mod lanes;
mod ports;

pub use lane::Lane;
pub use lanes::Lanes;
pub use ports::Ports;
