//! The block map of one logical zone: what each address of its trees is mapped to, as the entries of the recovery journal
//! say that were applied.
//!
//! The pages of the trees that are no leaves are always in memory (`block_map_tree`); leaves are cached (`map_page_cache`).
//! Where a leaf isn't there, the caller reads its block and installs it. Entries change pages in memory: a page that one
//! changed is handed out to be written some time later, and reported when that write is durable. Of what isn't durable the
//! zone knows the least point.
//!
//! All room is taken in `MapZone::new`: no later call can be refused for memory.
//!
//! The map sees no device: that a leaf is read back as it was handed out last is a premise of its laws, on the list of
//! calls (`what_was_applied_is_shown`).
//!
//! Only tested: a leaf that is linked, installed, mapped, handed out and written.
#![tactic(auto)]

mod forms;
mod laws;
mod points;
mod zone;

pub use forms::{Applied, Looked, NotInstalled};
pub use laws::{
    a_call_has_one_result, a_page_is_out_until_it_is_written, links_are_those_that_were_applied,
    nothing_unwritten_is_below_the_low_point, what_was_applied_is_shown,
};
pub use zone::MapZone;
