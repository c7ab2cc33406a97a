//! What a stop leaves of a session of the core: a sound image, as laws over definitions alone.
//!
//! The core's own laws say what stands on the device at each moment of a fair session (`Shown`): its superblock, the blocks of
//! the journal, new pages as empty ones, and all that the session leaves as it was. Here that is what `session_stops` asks
//! of any session: the entries come in turn over the image that was opened, its pages and counts stand with the entries
//! as the window. So each image has no fault, each of its stored counts is the number of mappings, and the next session
//! finds its first sequence.
//!
//! Of any device, and of any image that was opened: nothing behind the image is written.
//!
//! And what one run leaves to the next: the laws by which its parts, the recovery, the opening and the session, fit together;
//! and that the end of a session is more than a stop: behind one flush nothing is lost that was answered Ok (`specs/Ends`).
//!
//! Not there: that an image is closed, as a session isn't yet; that a core's session is right after stops over such images.
#![tactic(auto)]

mod ends;
mod inside;
mod laws;
mod logs;
mod runs;
mod sequences;

pub use ends::an_end_is_more_than_a_stop;
pub use inside::nothing_behind_the_image_is_written;
pub use laws::each_stop_of_a_session_leaves_a_sound_image;
pub use logs::stops_over_the_whole_log;
pub use runs::{a_run_is_right_over_its_whole_log, nothing_shows_before_the_session};
pub use sequences::{a_run_leaves_what_the_next_one_needs, how_far_sequences_rise};
