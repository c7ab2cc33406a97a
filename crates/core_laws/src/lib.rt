//! The laws of the core: what every event keeps, and what follows of a legal core.
//!
//! A balance may be an inequality (`AtMost`): a stopped write whose entry was handed in has spent its claim, which stays
//! counted, so no more claims are held than are counted. A write is done when its slot is set, and answered when its
//! answer is said: the trace has a list for each.
//!
//! Not there: that a session can begin on an image that a stop leaves (`vdo_cli`).
#![tactic(auto)]

mod block_laws;
mod laws;

pub use block_laws::{
    a_claim_is_held_once, a_free_block_is_mapped_by_nobody,
    counters_have_the_updates_that_were_taken,
};
pub use laws::{
    a_fair_session_finds_no_damage, a_legal_core_goes_on, a_legal_core_is_in_order,
    a_legal_core_is_right_after_a_stop, a_legal_core_reads_right, a_legal_core_stops_at_a_failure,
    a_quiet_write_finds_no_space_in_a_full_image, a_sealed_block_has_all_that_wait,
    a_view_steps_as_its_zone, an_act_has_one_result, an_entry_says_what_it_replaces,
    entries_come_in_turn, every_event_keeps_a_core_legal, the_log_hands_out_what_is_committed,
    the_views_stand_for_a_core,
};
