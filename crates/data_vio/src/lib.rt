//! A request under way, as the zones pass it on: what it asked, how far it has come, its box, and the lists with room in
//! which zones keep such boxes.
//!
//! `specs/Phases` has a line for each phase, `specs/Zones` the zones by their names and numbers, `specs/Vios` what becomes
//! of a request, `specs/Beginnings` how it begins, `specs/AnswerRooms` where the bytes of its answer stand.
//!
//! Only tested: as part of the core.
#![tactic(auto)]

mod answer_boxes;
mod begun;
mod boxed;
mod fifo;
mod held_tickets;
mod items;
mod limits;
mod logged;
mod register;
mod sizes;

pub use answer_boxes::AnswerBoxes;
pub use begun::Begun;
pub use boxed::BoxedVio;
pub use fifo::Fifo;
pub use held_tickets::HeldTickets;
pub use items::{Asks, Item, Phase, SealedBlock, Stage, Vio};
pub use limits::{
    BLOCK_ENTRIES, ENTRY_ROOM, LANE_ROOM, LOCK_ROOM, MAKING_ROOM, MOST_DEPTH, MOST_ENTRIES,
    MOST_ITEMS, MOST_NOTICES, MOST_REQUESTS, MOST_STREAMS, MOST_UNDER_WAY, MOST_ZONES, POST_ROOM,
    REQUEST_ROOM,
};
pub use logged::{Logged, NewPage, Remapping};
pub use register::Register;
pub use sizes::Sizes;
