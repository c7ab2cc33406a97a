//! What a stop leaves of a recovery journal whose blocks hold many entries: the laws over definitions alone.
//!
//! A session seals one block after the other, each with the head of that moment, and writes it: a flush, the write, a
//! flush. `specs/Sealed` has these blocks as plain data, with the ring rule; `specs/Rings` says what of them each block of
//! the journal may hold after a stop, at rest and while the next one is under way; `specs/Shown` which entries an image
//! then shows, and `specs/Mapped` what its map is.
#![tactic(auto)]

mod mapped;
mod ring;
mod shown;

pub use mapped::an_image_shows_its_entries;
pub use ring::{a_journal_begins_at_rest, the_blocks_from_the_head_on_stand};
pub use shown::a_stop_shows_committed_and_a_prefix;
