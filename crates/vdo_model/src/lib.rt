//! What a run of requests is, for every crate that speaks of one: requests, the desk log, places, histories, and the
//! report of a run. The definitions of what is right of them stand in `specs/`, with the laws of what a stop leaves of a
//! history. Where the newest answer of a request stands in a desk log, and its place, is noted in one pass.
//!
//! The writes and discards of all addresses are one list of histories, with their addresses; the report holds the
//! requests, so that the call that prints needs no other copy. It lists places zone by zone, since no code has them in
//! the order in which they were drawn. A request lacks its place only where it reached no zone.
//!
//! Only tested: one row each of its lists and notes.
#![tactic(auto)]

mod histories;
mod notes;
mod report;
mod report_list;
mod requests;
mod zone_order;

pub use histories::the_histories_after_a_stop;
pub use notes::{note_answers, note_places};
pub use report::{
    Damage, DeskLine, FlushMark, HistoryEntry, Mark, NoSpaceReceipt, Placed, RunReport,
};
pub use report_list::ReportList;
pub use requests::Requests;
pub use zone_order::zones_may_be_listed_in_any_order;
