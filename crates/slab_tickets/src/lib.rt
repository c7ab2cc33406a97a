//! The tickets of a physical zone that has no free block, and the receipts that tell so.
//!
//! A write that finds no free block in a zone takes a ticket there. While tickets are out, a block that becomes free goes to
//! the oldest one that has none. A ticket that has none when it is withdrawn becomes a receipt. The zone numbers its steps,
//! and knows the last one at whose end it had a free block; a receipt is right where that step was before the one that
//! asked. So a write with a right receipt of each zone met a moment at which no block was free.
//!
//! All room is taken in the constructor: no later call can be refused for memory.
//!
//! Whoever keeps it says at each step whether the one before ended with a free block: so that receipts are right is a
//! law of these calls alone.
//!
//! Only tested: of two tickets the older one is served.
#![tactic(auto)]

mod forms;
mod laws;
mod tickets;

pub use forms::{Waiting, Withdrawn};
pub use laws::{
    a_call_changes_one_ticket, a_call_has_one_result, a_ticket_is_out_until_it_is_withdrawn,
    every_receipt_is_right, tickets_ask_behind_the_last_free_step,
    tickets_have_numbers_of_their_own,
};
pub use tickets::Tickets;
