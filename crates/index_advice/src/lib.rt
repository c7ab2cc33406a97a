//! What the index advises: where a block with some name may be stored already.
//!
//! An advisor is trusted for nothing. What it names is read, and compared with what is written, before it is shared. An
//! advisor may tell its *book*: the chapters that it keeps, the records of its open chapter, and the pages that are to be
//! written. Then each of its answers is what the book says, and each call leads from the book before to the one after.
//!
//! A book has no number of its open chapter: it is one more than that of the newest kept chapter, and 0 where none is
//! kept. Behind 4,294,967,294 there is no number: nothing is learnt, and nothing is closed; the record that the last
//! chapter was closed for is not learnt.
//!
//! Only tested: both advisors that tell no book, on a few names.
#![tactic(auto)]

mod advice;
mod advisor;
mod laws;
mod liar;
mod look;
mod table;

pub use advice::Advice;
pub use advisor::Advisor;
pub use laws::{
    advice_joins, advice_leads_to_one_book, books_stay_in_order, what_is_learnt_is_found,
};
pub use liar::Liar;
pub use look::Look;
pub use table::Table;
