//! Guards: functions that call what the parts of a session do, and promise what a wrong body would break. Nothing stands
//! on this crate.
#![tactic(auto)]

mod chapters;
mod counts;
mod journals;
mod lanes;
mod maps;
mod slabs;
mod sparse;
