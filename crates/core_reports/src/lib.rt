//! The report of a core that is done, from its zones, with no memory asked for: its room is taken when the core begins.
//!
//! The requests, the desk log, the marks and the receipts are moved out of the desk, and the places of the zones are
//! listed one zone's behind the other's: in a legal core the logical zones stand behind the desk, in the order of their
//! numbers (`proofs/ReportLaws`). For the histories the newest answer of each request is noted, in one pass through the
//! desk log for each stream (`note_answers`), and whether its entry was handed in, in one pass through the entries. The
//! code doesn't ask whether the core is legal: what its functions give is said by what of that they need (`HasDesk`,
//! `HasEntered`, `AreFound`).
//!
//! Only tested: as part of the core.
//!
//! Not there: anything of the report of a core that isn't legal, or isn't done, but that there is one.
#![tactic(auto)]

mod entered;
mod histories;
mod lists;
mod marks;
mod notes;
mod reports;
mod room;

pub use reports::report;
pub use room::ReportRoom;
