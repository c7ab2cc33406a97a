//! The index of block names on the device: where blocks were stored last, in chapters that stand in the index blocks of an
//! image.
//!
//! Nothing rests on what the index says: a block that it names is read and compared before it is shared. The newest
//! records stand in the open chapter. A full one is closed under the next number; its place in the index blocks is that
//! number modulo the number of places, in place of what stood there, and its four pages are to be written. While pages
//! of earlier chapters wait and the open chapter is full, what is learnt is forgotten.
//!
//! A look goes over the open chapter and then the four newest chapters that have the name's tag, its first four bytes.
//! For each of these it asks for the page on which the name stands, or would stand, unless that is cached or was given
//! in this look. The records themselves are in memory, so other bytes than the chapter's change no answer. When an
//! image is opened each index block is read once. A page counts where its numbers name its place; of a name the lowest
//! page of a chapter counts. Nothing else of the index is kept anywhere, so an index block that is lost costs only
//! records.
//!
//! One sorted list has the tags of all kept chapters, each with its chapter's number and the newer chapter first.
//! Closing a chapter goes through it once, in 680 names: what stood at its place is left out, and its own tags are
//! merged in, with no memory asked for. A tree would make closing cheaper but ask for memory.
//!
//! Only tested: chapters that are full, closed early, loaded again, and at another's place.
//!
//! Not there: how long it takes to find a chapter or a record, which is by halving.
#![tactic(auto)]

mod index_search;
mod kept_pages;
mod loader;
mod page;
mod tags;
mod uds;
mod volume;

pub use index_search::Region;
pub use kept_pages::chapter_of;
pub use loader::load_volume;
pub use tags::{TagList, Tagged};
pub use uds::Uds;
pub use volume::{Volume, is_same_place, list_all};
