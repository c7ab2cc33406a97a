//! The block map of a whole image as its last session left it: its pages, with what the window of the recovery journal
//! puts into their slots (`image_model`, `specs/Maps`).
//!
//! A page's reads stand in front of those of the pages below it, and what two parts of a walk show holds together
//! (`proofs/ReadLaws`). A walk over some pages says of them that each linked one can be read and that what they give
//! was found (`HasWalked`): links and changes as sets, mapped blocks by how often. That the sums of all leaves, tree by
//! tree, are those of all addresses is a law on sums alone (`proofs/WholeSumLaws`).
//!
//! Only tested: that each linked page is read once; the order of links, changes and mapped blocks; trees of heights 2
//! and 3, a window that goes round the ring, each fault once, a read of each kind failing.
//!
//! Not there: that memory grows with what is used. That each data block has a stored count, which comes before shared
//! blocks, isn't looked at here.
#![tactic(auto)]

mod changes;
mod found;
mod found_map;
mod laws;
mod links;
mod pages;
mod recovered;
mod replayed_map;
mod shared_pages;
mod taken_pages;
mod tree_walk;

pub use changes::{Changes, SlotId};
pub use found::SlotChange;
pub use laws::reads_show_the_map;
pub use links::{Link, links_of};
pub use pages::read_page;
pub use recovered::RecoveredMap;
pub use replayed_map::{replay, replay_changes, replay_with};
