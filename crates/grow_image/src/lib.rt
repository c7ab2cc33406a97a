//! An image grows: it gets more addresses and more slabs, each address keeps its value, and each data block its count.
//!
//! The counters and the journals of the new slabs are written as zeros, behind the image; then come a flush, the superblock
//! with the new sizes, and a flush. Until the superblock is written the image is as it was. Read `specs/Sizes`, `Kept`,
//! which says what stays, `Calls`, and `Growing`, which says what is promised. The proof has three parts: over images alone
//! (`proofs/GrownLaws`), over the contents of one block (`PutLaws`), and over logs (`MomentLaws`).
//!
//! A slot past the logical size may hold a mapping, and would give a new address an old value: so those are looked at before
//! anything is written (`specs/NewAddresses`). The window puts nothing there, and the leaves' blocks tell it by
//! themselves (`proofs/FreshLaws`).
//!
//! Not there: that what the reads of a device that isn't honest gave is what it has; of an image that isn't sound, what is
//! left of it; which calls are made behind the reads, but in a growth that succeeds.
//!
//! No rows yet: what the parts of the search answer over several leaves (`AreNewLeaves`, `AreAdded`, `AddsSlot`,
//! `IsLeastMapped`, `IsUnreadable`), and what is promised by the reads of any device (`Answers`, `GrowFails`) and as a whole
//! (`IsGrowing`, `LeavesGrown`); of `IsRefusal` the kinds of the opening have theirs in `rebuild`.
#![tactic(auto)]

mod address_range;
mod calls;
mod fault;
mod forms;
mod growth;
mod laws;
mod leaves;
mod search;
mod sizes;

pub use fault::GrowFault;
pub use forms::Grown;
pub use growth::grow;
pub use laws::an_image_grows_with_its_superblock;
