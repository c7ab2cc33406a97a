//! Orders of the events of a core: one made from a number, until the core is done, and one that is given.
//!
//! The events of a core are numbered: first the steps of its zones, then the moves by sender and receiver. `AreReady`
//! (`specs/Turns`) is the list of those for which there is work; there is one for each core, so a turn is fixed by the
//! core and the state of the row of numbers. `Drives` is a list of turns, none of a core that is done, with the trace
//! that they make. What the turns do, their events do (`Plays` of `vdo_core`), with the same trace.
//!
//! Only tested (`core_tests`): the first number of a row that chooses, computed apart; sessions by several schedules, of
//! one to sixteen streams with up to sixteen requests under way, over one to four zones, on trees of both heights: without
//! a fault, with calls that fail, and stopped, with what the image shows then, judged by a plain checker of reads, values
//! and counts; and 1,280 writes and discards of sixteen streams where blocks are scarce, each write that finds none judged
//! by a plain checker.
//!
//! Not there: that `drive` returns, and, in a law of this crate, that a core that isn't done has a turn.
#![tactic(auto)]

mod driver;
mod events;
mod laws;
mod player;
mod turns;

pub use driver::drive;
pub use laws::{a_played_list_is_a_first_part, a_schedule_plays_events, a_turn_takes_one_event};
pub use player::play;
pub use turns::Schedule;
