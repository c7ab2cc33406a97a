//! The core: its zones, and each event of it. A zone steps, or what it posted moves to another.
//! Each function does what the relation of `core_model` says; what a zone does itself stands in its crate.
//!
//! Only tested (`core_tests`): tables of sessions that events lead in given orders, of one stream and of several over one
//! to four zones, with a journal that is used up, blocks that are let go and used again, and none free; for what there is
//! work before the first event and behind the last one; a core taken apart and made again within a session.
#![tactic(auto)]

mod cores;
mod dispatch;
mod events;
mod lanes;
mod laws;
mod moves;
mod notes;
mod numbers;
mod start;
mod stepped;
mod steps;
mod tools;
mod work;
mod zones;

pub use cores::{Core, CoreZones, Setup};
pub use events::Event;
pub use laws::{
    a_legal_core_can_step, a_legal_core_is_done_when_all_are_answered,
    a_legal_core_without_work_is_done, a_view_can_step_as_its_zone,
};
pub use numbers::MOST_ZONES;
pub use stepped::Stepped;
pub use steps::step_zone;
pub use tools::Tools;
pub use zones::Zones;
