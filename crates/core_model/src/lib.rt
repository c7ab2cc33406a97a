//! The core as plain data: zones that pass items to each other, what one step of a zone is, what happens in a session, and
//! which states are legal.
//!
//! As yet a session seals each block of the journal with its first sequence as the head (`sealed_with`), so no block is
//! let go of.
//!
//! `Phases` of `data_vio` and the files `..Rules` are the rules; `Trace`, `RightTraces` what happens and may happen; `Tokens`,
//! `Facts`, `Legal` the invariant; `Sessions`, `Start`, `Limits` what a session is; `Views`, `Streams` what threads
//! know of zones. What is of one zone stands in the files that begin with its name: `LogicalData`, `LogicalRules`,
//! `LogicalFacts`, `LogicalLimits`; `RequestFacts` has what a request carries in whichever zone it is.
//!
//! No rows yet: but through the definitions that use them: `Carries` in most phases; `IsSession` and `Shown`;
//! `GivesValues` and `report_of`; `first_log`; the tokens. A legal core is in the rows of `core_laws`.
#![tactic(auto)]

mod counts;
mod desk;
mod journal;
mod logical;
mod map_tree;
mod page_list;
mod ports;
mod scripts;
mod slots;
mod zone_set;
mod zones;

pub use desk::{Desk, DeskReport};
pub use journal::JournalZone;
pub use logical::LogicalZone;
pub use map_tree::MapTree;
pub use page_list::PageList;
pub use ports::Ports;
pub use scripts::is_limited;
pub use slots::Slots;
pub use zone_set::ZoneSet;
pub use zones::{DeviceZone, PhysicalZone, SuperblockStage, Zone, ZoneData};
