//! The counts of an image are set from its block map, whatever its counters and its slabs' journals hold, and the image is
//! closed: the way out where its stored counts differ from its mappings.
//!
//! An image that can be rebuilt needn't be sound (`specs/Rebuildable`): nothing is asked of its counters and its slabs'
//! journals, and none of their blocks is read. Read `specs/Kept` next, which says what stays, and `Forcing`, which says what
//! is promised. The proof has three parts: over images alone (`proofs/SoundLaws`), over the contents of one block
//! (`PutLaws`), and over logs (`StopLaws`, `MomentLaws`). The pages are written as in a recovery, from reads, by the code of
//! `rebuild`, and what they get is said there, from any start on (`Acts`); what the slabs and the superblock get is known
//! before, and said call by call (`specs/Calls`).
//!
//! That nothing in the recovery journal is from a later time isn't looked at: where something is, what is left may have a
//! window of its own. The last sequence is looked at whether the session was closed or not.
//!
//! Not there: which calls a device that isn't honest sees behind the reads; of `Device`, that the failed call is a write or a
//! read that the rebuild needs.
//!
//! No rows yet: what the parts of the code answer (`WritesAll`, `ForcesUnclosed`), and by the reads of any device
//! (`Answers`, `ForceFails`); of `IsRefusal` its kinds behind the superblock's, whose parts have rows in `image_model`.
#![tactic(auto)]

mod counted_map;
mod forced_rebuild;
mod forms;
mod laws;
mod slabs;

pub use forced_rebuild::force;
pub use forms::Forced;
pub use laws::a_rebuildable_image_is_accepted;
