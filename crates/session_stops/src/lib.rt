//! What a stop leaves of a whole image while a session goes on, and when it is closed: laws over definitions alone.
//!
//! `specs/Pages` says of the pages of the block map what each of their blocks may hold after a stop, `specs/Beginnings` has the
//! moment before anything is written but the superblock, `specs/Sessions` what stands of a session, at rest and while a block
//! of the recovery journal is under way, and `specs/Closings` its end. Which entries may come behind others, and what stands
//! of the counts, `count_laws` says.
//!
//! `SlotStands`, one slot of a page that says a mapping in each content of its block, is what a trace knows of a page
//! once a write of it was flushed. `IsBehind` is all that stands behind the journal, for images whose window begins at
//! a head or before it.
//!
//! Of the superblock of a session its bytes are said, not only what they decode to: the images of its close are mixes
//! of them and the closed one, and each half must be one that could have been there.
//!
//! Not there: that any core's log is of this kind, and the data of addresses. An image's blocks but those of the index are
//! taken to have one content when a session begins (`HasOneImageButIndex`).
#![tactic(auto)]

mod beginnings;
mod closings;
mod pages;
mod sessions;

pub use beginnings::a_session_begins_on_a_sound_image;
pub use closings::a_session_is_closed;
pub use pages::{
    images_show_the_pages_that_stand, linked_pages_are_on_the_device, what_keeps_pages_standing,
};
pub use sessions::{
    calls_that_keep_a_session_standing, each_stop_leaves_a_sound_image,
    the_counts_of_a_session_go_well, what_keeps_a_session_standing,
};
