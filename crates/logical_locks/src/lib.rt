//! Who holds an address of the logical device, and who waits for it.
//!
//! Only tested: one row.
#![tactic(auto)]

mod laws;
mod lock;
mod locks;
mod waiter;

pub use laws::locks_stay_in_order;
pub use lock::Lock;
pub use locks::Locks;
pub use waiter::Waiter;
