//! Laws over definitions alone of parts that the core doesn't use yet: the watermarks of zones and the head of the recovery
//! journal that they leave; that the blocks of counters which a slab hands out have the counts of the entries that it took; and
//! that when nothing of a zone is being written, and nothing is due for a need, nothing is dirty for it.
//!
//! Each entry of the journal has a part in a logical zone, which sets a slot, and parts in physical zones, which count a block
//! up or down. The journal hands out the parts of committed entries, and each zone tells when a part is handled and from which
//! point on its changes aren't durable. What the journal kept of that (`handed_parts`) gives the watermark of each zone. The
//! head, which is the first block that a recovery needs, may rise to the least of them. A zone that answers that nothing is due,
//! and waits for no write, holds nothing back for which the journal waits.
#![tactic(auto)]

mod counted_blocks;
mod due_writes;
mod due_zones;
mod reaped_blocks;
mod watermarks;

pub use counted_blocks::{
    a_block_that_is_handed_out_is_counted, a_slab_takes_the_first_of_its_updates,
};
pub use due_writes::{
    no_block_is_full_when_none_is_due, no_page_is_dirty_when_none_is_due,
    no_update_is_dirty_when_none_is_due,
};
pub use due_zones::no_slab_is_dirty_when_none_is_due;
pub use reaped_blocks::{the_journal_goes_on_when_all_is_still, the_journal_reaps_what_is_handled};
pub use watermarks::{
    no_entry_waits_for_ever, the_head_may_rise_to_the_least_watermark, the_head_never_falls,
    the_journal_hears_in_order, the_watermarks_kept_are_those_of_the_trace,
    what_is_below_the_head_is_durable, what_waits_is_in_the_ring,
};
