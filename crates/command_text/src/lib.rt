//! What each command prints: from the results of a command, as plain values, to lines that are put to a sink.
//!
//! Only tested: the texts, as the program prints them (`cases/`), and those with numbers that no image of the cases has, and
//! of `sectors` (`run_tests`).
//!
//! Not there: a command that prints `sectors` by these texts.
#![tactic(auto)]

mod audits;
mod crashes;
mod faults;
mod formats;
mod grown;
mod layouts;
mod parts;
mod pieces;
mod rebuilt;
mod runs;
mod sectors;
mod statuses;
mod tallies;
mod workloads;

pub use audits::{put_audit, put_differs};
pub use crashes::{AddressValue, Crash, CrashStop, put_crash, put_crash_stop};
pub use faults::put_image_fault;
pub use formats::put_formatted;
pub use grown::{put_grow_fault, put_grown};
pub use layouts::put_layout_fault;
pub use parts::{DamagedPlace, Space, put_recovered, put_recovery};
pub use pieces::{Line, Piece, put_lines};
pub use rebuilt::put_rebuilt;
pub use runs::{RunNotes, put_run};
pub use sectors::{SectorAnswer, SectorAsked, SectorLine, put_sector_lines, put_sectors};
pub use statuses::put_status;
pub use tallies::Tally;
pub use workloads::{Summary, put_summary};
