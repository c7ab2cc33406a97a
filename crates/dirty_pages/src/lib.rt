//! Which pages were changed and aren't on the device yet.
//!
//! Entries of the recovery journal change pages in memory. A page that was changed is written some time later, and the
//! journal may drop the entries of a page only once that write is durable. So each page has up to two points:
//!
//! | Point | From where on changes of the page aren't durable |
//! |---|---|
//! | dirty | the least point of the changes since the page was last handed out to be written |
//! | writing | the dirty point with which it was handed out, until that write is durable |
//!
//! A page is clean where it has neither. The page that is handed out next, and the least point of all pages, are found in
//! as many steps as the logarithm of the number of pages.
#![tactic(auto)]

mod dirty_points;
mod laws;
mod minima;
mod numbered;
mod table;

pub use dirty_points::DirtyPoints;
pub use laws::{
    a_page_is_being_written_until_it_is_written, no_change_is_lost, the_next_page_to_write_is_one,
};
pub use minima::Minima;
pub use table::DirtyPages;
