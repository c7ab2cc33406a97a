//! The limits of the core: room of a fixed size, taken when a core begins, suffices for the whole session.
//!
//! Each list of a zone is bounded by what it counts: the desk's log has a Begin and an Answer for each request at most
//! (`proofs/StreamSums`); places and calls are at most the steps, of which each draws or makes one (`made_by`); locks,
//! the requests that wait and those in the block being filled are at most the requests under way; sealed blocks are at
//! most those of the journal; entries, slots and retired addresses at most the requests.
#![tactic(auto)]

mod laws;

pub use laws::{
    a_desk_log_is_bounded, a_desk_log_is_full_when_all_are_answered,
    a_legal_core_counts_within_limits, a_legal_core_has_room, a_legal_core_is_within_limits,
    a_legal_core_keeps_within_its_room, a_legal_core_that_is_still_is_done,
};
