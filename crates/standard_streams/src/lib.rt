//! Streams of bytes as the source and the sink of a run: standard input and output, which tell nothing, and any stream that
//! tells its bytes, as those in memory do.
//!
//! Not there: that standard input gives the bytes that were sent, and that standard output takes those that it is given.
//! That is the system's word. Its calls are the standard library's `Read` and `Write`.
#![tactic(auto)]

mod input;
mod output;
mod writes;

pub use input::{InputSource, KnownInput, StandardInput};
pub use output::{KnownOutput, OutputSink};
