//! The desk: what it does with the item in front of its inbox, and with none. Requests are begun and answered here.
//!
//! Only tested: as part of the core.
#![tactic(auto)]

mod beginnings;
mod dispatch;
mod replies;

pub use beginnings::{begin_next, may_begin};
pub use dispatch::act;
