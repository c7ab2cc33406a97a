//! The device's zone: what it does with the item in front of its inbox. Each call of the device is made here.
//!
//! Only tested: as part of the core.
#![tactic(auto)]

mod block_work;
mod device_calls;
mod dispatch;
mod harms;
mod leaves;
mod requests;
mod start;
mod stop_notices;
mod superblock;

pub use dispatch::act;
pub use start::first;
