//! Guards: functions that call what the core, its texts and the program do, and promise what a wrong body would break.
//! Nothing stands on this crate.
#![tactic(auto)]

mod acts;
mod cores;
mod runs;
mod texts;
