ghost use Rattle.std.specs.Prelude.{◌≡◌, IfOk, map, option_map, string_bytes};
ghost use Rattle.vdo_words.specs.Given.{given};
ghost use Rattle.vdo_words.specs.Options.{number_or};
ghost use Rattle.vdo_words.specs.Ranges.{IsCommandWithin};
ghost use Rattle.vdo_words.specs.declared.option_names.OptionName.TheVariants.{Schedule};
ghost use Rattle.vdo_words.specs.Commands.{bare_command, command_named, core_of, crash_of, format_of, grow_of, read, run_of, workload_of, drive_of};
ghost use Rattle.vdo_words.specs.Refused.{first_refused, names_of};

use crate::commands::{
    Command, CoreOptions, CrashOptions, DEFAULT_CORE, Drive, FormatOptions, GrowOptions,
    RunOptions, Usage, WorkloadOptions,
};
use crate::line::Line;
use crate::option_names::OptionName;
use crate::options::{is_given, number, wide};
use crate::rules::{are_right, first_wrong};
use std::alloc::Global;

const FORMAT: [OptionName; 8] = [
    OptionName::Logical,
    OptionName::Slabs,
    OptionName::SlabBlocks,
    OptionName::Journal,
    OptionName::Index,
    OptionName::SlabJournal,
    OptionName::Height,
    OptionName::Nonce,
];

const GROW: [OptionName; 2] = [OptionName::Logical, OptionName::Slabs];

const RUN: [OptionName; 7] = [
    OptionName::Schedule,
    OptionName::Threads,
    OptionName::Depth,
    OptionName::LogicalZones,
    OptionName::PhysicalZones,
    OptionName::HashZones,
    OptionName::Cache,
];

const CRASH: [OptionName; 8] = [
    OptionName::Schedule,
    OptionName::Depth,
    OptionName::LogicalZones,
    OptionName::PhysicalZones,
    OptionName::HashZones,
    OptionName::Cache,
    OptionName::After,
    OptionName::Image,
];

const WORKLOAD: [OptionName; 9] = [
    OptionName::Schedule,
    OptionName::Depth,
    OptionName::LogicalZones,
    OptionName::PhysicalZones,
    OptionName::HashZones,
    OptionName::Cache,
    OptionName::Seed,
    OptionName::Requests,
    OptionName::Streams,
];

// Long to prove: eight options are read by name.
fn format(alloc: Global, words: &[String]) -> Option<FormatOptions>
    ensures { result ≡ format_of (given (map string_bytes words.now)) }
{
    if !are_right(&FORMAT, words) {
        return None;
    }
    let line = Line::new(alloc, &FORMAT, words);
    Some(FormatOptions {
        logical: number(OptionName::Logical, 1000, &line),
        slabs: number(OptionName::Slabs, 1, &line),
        slab_blocks: number(OptionName::SlabBlocks, 64, &line),
        journal: number(OptionName::Journal, 8, &line),
        index: number(OptionName::Index, 16, &line),
        slab_journal: number(OptionName::SlabJournal, 4, &line),
        height: number(OptionName::Height, 2, &line),
        nonce: wide(OptionName::Nonce, 1, &line),
    })
}

fn grow(alloc: Global, words: &[String]) -> Option<GrowOptions>
    ensures { result ≡ grow_of (given (map string_bytes words.now)) }
{
    if !are_right(&GROW, words)
        || !is_given(OptionName::Logical, words)
        || !is_given(OptionName::Slabs, words)
    {
        return None;
    }
    let line = Line::new(alloc, &GROW, words);
    Some(GrowOptions {
        logical: number(OptionName::Logical, 1000, &line),
        slabs: number(OptionName::Slabs, 1, &line),
    })
}

fn core(line: &Line<'_>) -> CoreOptions
    ensures { result ≡ core_of line.now }
{
    CoreOptions {
        depth: number(OptionName::Depth, DEFAULT_CORE.depth, line),
        logical_zones: number(OptionName::LogicalZones, DEFAULT_CORE.logical_zones, line),
        physical_zones: number(OptionName::PhysicalZones, DEFAULT_CORE.physical_zones, line),
        hash_zones: number(OptionName::HashZones, DEFAULT_CORE.hash_zones, line),
        cache: number(OptionName::Cache, DEFAULT_CORE.cache, line),
    }
}

fn schedule(line: &Line<'_>) -> u64
    ensures { result ≡ number_or 0 Schedule line.now }
{
    wide(OptionName::Schedule, 0, line)
}

fn drive(words: &[String], line: &Line<'_>) -> Drive
    requires { line.now ≡ given (map string_bytes words.now) }
    ensures { result ≡ drive_of line.now }
{
    if is_given(OptionName::Threads, words) {
        Drive::Threads
    } else {
        Drive::Schedule(schedule(line))
    }
}

// Long to prove: eight options are read by name.
fn run(alloc: Global, words: &[String]) -> Option<RunOptions>
    ensures { result ≡ run_of (given (map string_bytes words.now)) }
{
    if !are_right(&RUN, words)
        || (is_given(OptionName::Schedule, words) && is_given(OptionName::Threads, words))
    {
        return None;
    }
    let line = Line::new(alloc, &RUN, words);
    Some(RunOptions {
        drive: drive(words, &line),
        core: core(&line),
    })
}

fn crash(alloc: Global, words: &[String]) -> Option<CrashOptions>
    ensures { result ≡ crash_of (given (map string_bytes words.now)) }
{
    if !are_right(&CRASH, words)
        || !is_given(OptionName::After, words)
        || !is_given(OptionName::Image, words)
    {
        return None;
    }
    let line = Line::new(alloc, &CRASH, words);
    Some(CrashOptions {
        schedule: schedule(&line),
        core: core(&line),
        after: wide(OptionName::After, 0, &line),
        image: wide(OptionName::Image, 0, &line),
    })
}

fn workload(alloc: Global, words: &[String]) -> Option<WorkloadOptions>
    ensures { result ≡ workload_of (given (map string_bytes words.now)) }
{
    if !are_right(&WORKLOAD, words) {
        return None;
    }
    let line = Line::new(alloc, &WORKLOAD, words);
    Some(WorkloadOptions {
        schedule: schedule(&line),
        core: core(&line),
        seed: wide(OptionName::Seed, 0, &line),
        requests: number(OptionName::Requests, 1000, &line),
        streams: number(OptionName::Streams, 4, &line),
    })
}

// The command of this name with these options.
fn named(alloc: Global, name: &str, words: &[String]) -> Option<Command>
    ensures { result ≡ command_named name.now (given (map string_bytes words.now)) }
{
    match name {
        "format" => Some(Command::Format(format(alloc, words)?)),
        "run" => Some(Command::Run(run(alloc, words)?)),
        "recover" => bare(Command::Recover, words),
        "force-rebuild" => bare(Command::ForceRebuild, words),
        "grow" => Some(Command::Grow(grow(alloc, words)?)),
        "audit" => bare(Command::Audit, words),
        "status" => bare(Command::Status, words),
        "crash" => Some(Command::Crash(crash(alloc, words)?)),
        "workload" => Some(Command::Workload(workload(alloc, words)?)),
        _ => None,
    }
}

// A command without options.
fn bare(command: Command, words: &[String]) -> Option<Command>
    ensures { result ≡ bare_command command (given (map string_bytes words.now)) }
{
    are_right(&[], words).then_some(command)
}

// The options of the command of this name.
fn names_of(name: &str) -> Option<&'static [OptionName]>
    ensures { option_map (λ names. names.now) result ≡ names_of name.now }
{
    match name {
        "format" => Some(&FORMAT),
        "run" => Some(&RUN),
        "grow" => Some(&GROW),
        "crash" => Some(&CRASH),
        "workload" => Some(&WORKLOAD),
        "recover" | "force-rebuild" | "audit" | "status" => Some(&[]),
        _ => None,
    }
}

/// The first word that is refused where it stands: the name of no command, or of an option that isn't the command's, stands
/// again behind, or has no value or one that it may not have. None where only a word is missing, or two options exclude each
/// other.
pub fn first_refused(words: &[String]) -> Option<&str>
    ensures { option_map (λ word. word.now) result ≡ first_refused (map string_bytes words.now) }
{
    let [name, rest @ ..] = words else {
        return None;
    };
    match names_of(name.as_str()) {
        Some(names) => first_wrong(names, rest),
        None => Some(name.as_str()),
    }
}

/// The command that the words are; of one that runs a core every number is within its range.
///
/// They are refused where there is no word, where the first is no command's name, where an option isn't the command's,
/// stands twice, or has no value or one that isn't 1 to 20 decimal digits within its range, where `--threads` has a value
/// or stands beside `--schedule`, where `crash` lacks `--after` or `--image`, and where `grow` lacks `--logical` or `--slabs`. Want of memory changes no answer.
pub fn read_command(alloc: Global, words: &[String]) -> Result<Command, Usage>
    ensures exact { result ≡ read (map string_bytes words.now) }
    ensures within { IfOk result IsCommandWithin }
{
    let [name, rest @ ..] = words else {
        return Err(Usage);
    };
    named(alloc, name.as_str(), rest).ok_or(Usage)
}
