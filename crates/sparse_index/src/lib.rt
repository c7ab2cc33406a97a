//! A sparse index of block names: an advisor over the same chapters and pages as `uds_index`, that lists fewer tags.
//!
//! The newest chapters, one for eight index blocks, are dense: all their tags are listed. The older ones are sparse: they
//! are found by their *hooks* alone, the names whose byte 8 is 0 modulo 32. A look goes over the open chapter, the two
//! newest dense chapters that have the name's tag, and the sparse chapters that are cached, the newest first. Where none
//! of them has the name and it is a hook, the newest sparse chapter that isn't cached and has a hook with its tag is read:
//! its four pages in order. Then it is cached, in place of the one that was used longest ago. Names that were stored
//! together are mostly looked for together, so one read of a chapter finds many.
//!
//! As in `uds_index` the records themselves are in memory, so other bytes than the chapter's change no answer.
//!
//! Only tested: looks and learning against a program apart, for indexes of 4 to 1,024 blocks.
//!
//! Not there: how long it takes to find a chapter or a record, which is by halving.
#![tactic(auto)]

mod hooks;
mod loader;
mod lookup;
mod recent;
mod sparse;
mod tag_lists;

pub use sparse::Sparse;
