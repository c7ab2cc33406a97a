//! The top call: what the program does with its words, a device, a script and a place for its output.
//!
//! Only tested: what each command prints and its status, as 857 cases have it (`cases/`): sizes, images with bytes changed in
//! each region, scripts and runs one after the other, refusals, and stops by `crash`; calls of the device, the source and
//! the sink that fail, blocks that read otherwise, how many calls are made, and scripts and commands stopped at each call,
//! with the last write old, new, and torn in some sectors, and done again (`run_tests`); and on real files, with texts and
//! statuses as a plain program finds them (`tools/image_files.sh`, `tools/whole_image.py`, `tools/two_calls.py`).
//!
//! Not there: that a session closes its image. Of an image that isn't sound, or of which a block's last write failed, those
//! of the index aside, a session says nothing of values, nor of stops.
//!
//! No rows yet: but through the definitions that use them: `IsReady`, `PlayedOut`, `EndsAs` and `IsCrashTold`; that a
//! script's answers are put behind `recovered 30 entries`.
#![tactic(auto)]

mod crash;
mod crash_end;
mod crash_laws;
mod endings;
mod fault;
mod laws;
mod new_image;
mod ready;
mod runner;
mod seeded;
mod session;
mod words;

pub use crash_laws::{a_crash_shows_a_sound_image, a_crash_without_faults_is_complete};
pub use endings::put_fault;
pub use fault::Fault;
pub use laws::{
    a_run_behind_a_run, a_run_without_faults_is_complete, any_setup_serves_what_another_left,
    runs_go_on, what_a_run_leaves_can_be_run,
};
pub use runner::{Ended, run};
pub use words::Words;
