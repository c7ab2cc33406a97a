//! The recovery journal as it is filled, sealed, committed and reaped.
//!
//! Entries fill one block after the other, and a block is sealed to be written: a flush, the write, a flush. Then it is
//! committed, and its entries go out in order. A block's slot in the ring is written again only once no zone needs the
//! block that stands there: a block with sequence `m` is filled and sealed only where the head, the least sequence that
//! some zone still needs, is at least `m` + 2 − J, for a ring of J blocks.
//!
//! All room is taken in the constructor: no later call can be refused for memory.
//!
//! The entries that some zone still needs are kept, in room for J × 192. A watermark is a point of the half that adds,
//! and below it everything was handed out (`first_unhanded` says up to where); a lower one than before changes nothing.
//!
//! Only tested: a full ring that waits for its head.
#![tactic(auto)]

mod forms;
mod journal;
mod laws;
mod new_entry;
mod watermarks;

pub use forms::Place;
pub use journal::Journal;
pub use laws::no_needed_block_is_overwritten;
