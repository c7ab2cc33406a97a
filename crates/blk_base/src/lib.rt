//! What every crate shares: blocks, places on the device, points of the journal, the layout of an image, requests and
//! their answers.
//!
//! Only tested: the table of the default image.
#![tactic(auto)]

mod block;
mod boxed_block;
mod default_sizes;
mod filled;
mod geometry;
mod has_block;
mod journal_entry;
mod layout;
mod mappings;
mod opened;
mod page_tree;
mod place;
mod point;
mod request;
mod sizes;

pub use block::Block;
pub use boxed_block::BoxedBlock;
pub use default_sizes::default_sizes_are_within_limits;
pub use filled::{repeated, repeated_with};
pub use geometry::{Geometry, Super};
pub use has_block::HasBlock;
pub use journal_entry::{CommittedEntry, Entry, Update};
pub use layout::{CounterPlace, DataPlace, Layout, regions_are_apart};
pub use mappings::Mappings;
pub use opened::{Opened, OpenedPage};
pub use place::{Lba, Mapping, PageId, Pbn, ZoneId};
pub use point::{Half, Point, raise};
pub use request::{Answer, Request, Writer};
pub use sizes::{COUNT_LIMIT, JOURNAL_ENTRIES, PAGE_SLOTS, SECTOR_COUNTERS, TREES};
