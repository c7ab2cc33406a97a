//! The trees of the block map that one zone has: their pages that are no leaves, held in memory.
//!
//! Each of the 60 trees is of the zone whose number is that of the tree modulo the number of zones. It has a root, which
//! stands at a block of its own from the start. A page has 812 slots. The slots of a leaf are those of addresses, and
//! those of a page above lead to the pages below it. A page that nothing leads to isn't there yet. Leaves have level 0,
//! roots the level height - 1.
//!
//! Of an address `a`, with p = `a` / 812 and q = p / 60:
//!
//! | | |
//! |---|---|
//! | tree | p mod 60 |
//! | page of level `l` | number q / 812^l on that level of the tree |
//! | slots from the root down | the height - 1 digits of q in base 812, the highest first |
//! | slot in the leaf | `a` mod 812 |
//!
//! Only tested: the paths of four addresses; opened pages, and a changed one that is written.
#![tactic(auto)]

mod forms;
mod laws;
mod nodes;
mod numbers;
mod opened_pages;
mod paths;
mod slots;

pub use forms::{Forest, Found, Path};
pub use laws::{
    a_call_has_one_result, a_link_adds_one_page, a_missing_page_may_be_linked,
    a_page_is_out_until_it_is_written, a_walk_finds_one_thing, an_image_is_opened_by_zones,
    no_link_is_lost,
};
pub use nodes::TreeNodes;
pub use paths::path;
pub use slots::Slots;
