//! The text of a run: a script is read from a source of bytes, and the answers of a run are put to a sink.
//!
//! Only tested: scripts and their answers, as the program prints them, the lines that are refused and why, and a script of
//! 65,536 requests and of one more (`cases/scripts.case`, `cases/refused_scripts.case`); the requests of two seeds, as
//! another program draws them (`cases/workloads.case`); the instructions that this takes (docs/PERFORMANCE.md).
#![tactic(auto)]

mod added_lines;
mod answers;
mod asked;
mod blocks;
mod cuts;
mod lines;
mod numbers;
mod puts;
mod random_requests;
mod refusal;
mod runs;
mod script_reader;
mod streams;

pub use answers::{AnswerRoom, put_answers};
pub use random_requests::workload;
pub use refusal::{LineFault, ReadScript, ScriptFault};
pub use runs::put_runs;
pub use script_reader::read_script;
