//! When a flush may be answered: once every write that was answered before it is done.
//!
//! Only tested: one row.
#![tactic(auto)]

mod gate;
mod waiters;

pub use gate::Gate;
pub use waiters::Waiting;
