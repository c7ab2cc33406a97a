//! The program: it makes an image, recovers, rebuilds or grows one, looks at one, or serves a script on one. The image is
//! on a file, or in memory, where it is a new one.
//!
//! Only tested: the stored run; which device and command the words name, a file that can't be opened or written, what is
//! told on standard error of that and of words that aren't served, scripts one after the other on a file, and runs on it
//! that are killed (`tools/image_files.sh`); the instructions of a run (docs/PERFORMANCE.md).
//!
//! Not there: what the operating system's calls do on streams and files, which device and command `main` takes from the words of
//! the program, what it prints before it calls `run`, that memory is found, how long a call takes, and that `drive`
//! returns. A source, a sink or a device may tell nothing of its bytes, as standard input and output do: then the
//! clauses on bytes say nothing, and those on causes stay.
#![tactic(auto)]

mod arguments;
mod causes;

use arguments::{ArgumentsFault, CommandLine, Device, command_line};
use causes::{tell_unopened, tell_unserved};
use disk_model::{Disk, OpenGate, RamDisk};
use file_disk::open_disk;
use standard_streams::{InputSource, OutputSink, StandardInput};
use std::alloc::AllocError;
use std::io;
use std::io::Printer;
use std::process::ExitCode;
use std::sync::Wait;
use std::thread::Threads;
use vdo_cli::{Ended, Fault, Words, run};

/// The standard streams.
#[derive(Drop)]
struct Streams<'r> {
    source: InputSource<StandardInput>,
    sink: OutputSink<Printer<'r, HostRuntime>>,
}

impl<'r> Streams<'r> {
    fn open(rt: &'r HostRuntime) -> Result<Streams<'r>, ArgumentsFault> {
        // The one thing that can fail is the memory in which output is collected.
        let Ok(sink) = OutputSink::new(rt.alloc(), io::writer(rt)) else {
            return Err(ArgumentsFault::Memory);
        };
        Ok(Streams {
            source: InputSource::new(StandardInput::new(rt.clone()?)),
            sink,
        })
    }

    /// A command on a device.
    fn run<R: Threads + Wait + Sync, D: Disk + Send + Drop>(
        &mut self,
        rt: &R,
        words: &Words,
        device: D,
    ) -> Ended<D> {
        run(
            rt,
            words,
            device,
            &mut self.source,
            &mut self.sink,
            &OpenGate,
        )
    }
}

/// The status of a command that ended. Words that aren't served are told.
fn status_of<D: Drop>(rt: &HostRuntime, ended: Ended<D>) -> u8 {
    if let Some(Fault::Usage) = &ended.fault {
        tell_unserved(rt);
    }
    ended.status
}

/// A command on a device in memory, on which an image of the default sizes is made first; where that fails, its status.
fn run_in_memory<R: Threads + Wait + Sync>(
    threads: &R,
    rt: &HostRuntime,
    words: &Words,
    blocks: u32,
    streams: &mut Streams<'_>,
) -> Result<u8, AllocError> {
    let mut format = Words::new(rt.alloc());
    format.push("format")?;
    let device = RamDisk::zeroed(rt.alloc(), blocks)?;
    let made = streams.run(threads, &format, device);
    if made.status != 0 {
        return Ok(made.status);
    }
    Ok(status_of(rt, streams.run(threads, words, made.device)))
}

/// A command on its device. Threads are started by `threads`, and files opened by `rt`. A file that another program holds
/// can't be opened.
fn run_on<R: Threads + Wait + Sync>(
    threads: &R,
    rt: &HostRuntime,
    line: CommandLine,
    streams: &mut Streams<'_>,
) -> Result<u8, ArgumentsFault> {
    let CommandLine { device, words } = line;
    match device {
        Device::Memory(blocks) => { Ok(run_in_memory(threads, rt, &words, blocks, streams)?) }
        Device::File {
            path,
            blocks,
            access,
        } => match open_disk(rt, path.as_str(), blocks, access) {
            Ok(file) => Ok(status_of(rt, streams.run(threads, &words, file))),
            Err(error) => {
                tell_unopened(rt, path.as_str(), &error);
                Err(ArgumentsFault::Device)
            },
        },
    }
}

// The last of standard output is written when the run has returned.
/// The status of the program where a run ended with this one, and the last of its output was written or not: a sink that
/// failed comes before `Full`, and behind all else.
fn status_at_end(status: u8, written: bool) -> u8 {
    if !written && status <= 1 { 7 } else { status }
}

/// The command that the words ask for, and its status.
fn serve<R: Threads + Wait + Sync>(threads: &R, rt: &HostRuntime) -> Result<u8, ArgumentsFault> {
    let line = command_line(rt)?;
    let mut streams = Streams::open(rt)?;
    let status = run_on(threads, rt, line, &mut streams)?;
    Ok(status_at_end(status, streams.sink.finish().is_ok()))
}

fn main(rt: HostRuntime) -> ExitCode {
    let (text, status) = match serve(&rt, &rt) {
        Ok(status) => return ExitCode::from(status),
        Err(ArgumentsFault::Usage) => {
            tell_unserved(&rt);
            ("usage", 2)
        },
        Err(ArgumentsFault::Device) => ("device fault", 3),
        Err(ArgumentsFault::Memory) => ("no memory", 5),
    };
    let _printed = println!(rt; "{text}");
    ExitCode::from(status)
}
