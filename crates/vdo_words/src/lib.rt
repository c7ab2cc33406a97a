//! The words of a command line: which command they are, with what options.
//!
//! The first word is the command. Then come its options and flags, in any order, each at most once. An option is
//! written `--name value` or `--name=value`; a value is 1 to 20 decimal digits.
//!
//! Only tested: what the program says of command lines, and of those that are refused (`cases/usage.case`).
//!
//! Not there: a program that serves `run --threads`, or `--hash-zones` and `--cache` with other numbers than their defaults.
#![tactic(auto)]

mod clap_matches;
mod command_reader;
mod commands;
mod given;
mod line;
mod option_names;
mod options;
mod rules;

pub use command_reader::{first_refused, read_command};
pub use commands::{
    Command, CoreOptions, CrashOptions, DEFAULT_CORE, Drive, FormatOptions, GrowOptions,
    RunOptions, Usage, WorkloadOptions,
};
