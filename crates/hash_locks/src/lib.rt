//! Locks on names of blocks, by which equal blocks that are written at the same time are written once.
//!
//! Only tested: one row.
#![tactic(auto)]

mod held;
mod laws;
mod locks;
mod role;
mod waiter;

pub use laws::locks_stay_in_order;
pub use locks::HashLocks;
pub use role::Role;
pub use waiter::Waiter;
