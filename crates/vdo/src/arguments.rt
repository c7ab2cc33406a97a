use blk_base::{Geometry, Layout};
use file_disk::Access;
use std::alloc::{AllocError, Global};
use std::{env, io};
use vdo_cli::Words;

/// Why the program can't begin.
#[derive(Drop)]
pub(crate) enum ArgumentsFault {
    /// The words name no device and no command, or one isn't UTF-8.
    Usage,
    /// The file can't be opened.
    Device,
    /// Memory ran out.
    Memory,
}

impl From<AllocError> for ArgumentsFault {
    fn from(_error: AllocError) -> ArgumentsFault {
        ArgumentsFault::Memory
    }
}

/// A device on which a command is done.
#[derive(Drop)]
pub(crate) enum Device {
    /// In memory, with so many blocks.
    Memory(u32),
    /// A file as a device.
    File {
        path: String,
        /// How many blocks it has.
        blocks: u32,
        access: Access,
    },
}

/// A command line: a device, and the words of a command.
#[derive(Drop)]
pub(crate) struct CommandLine {
    pub(crate) device: Device,
    pub(crate) words: Words,
}

/// A command of these words.
fn words_of(alloc: Global, texts: &[String]) -> Result<Words, AllocError> {
    let mut words = Words::new(alloc);
    for text in texts {
        words.push(text.as_str())?;
    }
    Ok(words)
}

/// A number in decimal digits, without a sign.
pub(crate) fn number_of(text: &str) -> Option<u32> {
    if text.starts_with('+') {
        return None;
    }
    text.parse().ok()
}

/// What a command does to the blocks of its device: an audit, a crash and a status look at them alone.
fn access_of(command: &[String]) -> Access {
    match command.first().map(String::as_str) {
        Some("audit" | "crash" | "status") => Access::Look,
        _ => Access::Change,
    }
}

// A file that was made for words that are refused behind its name stays, empty: the device is opened before the command
// is looked at.
fn device_of(
    alloc: Global,
    image: &str,
    blocks: u32,
    access: Access,
) -> Result<Device, AllocError> {
    if image == "-" {
        return Ok(Device::Memory(blocks));
    }
    Ok(Device::File {
        path: String::from_str(alloc, image)?,
        blocks,
        access,
    })
}

/// `run` in memory, on as many blocks as an image of the default sizes needs.
fn default_line(alloc: Global) -> Result<CommandLine, AllocError> {
    let mut words = Words::new(alloc);
    words.push("run")?;
    Ok(CommandLine {
        device: Device::Memory(Layout::of(&Geometry::DEFAULT).needed()),
        words,
    })
}

// A word that isn't UTF-8 is a faulty command line.
/// A command line is nothing, which is `- 154 run`, or `IMAGE BLOCKS` and a command.
fn line_of(alloc: Global, texts: &[String]) -> Result<CommandLine, ArgumentsFault> {
    if texts.is_empty() {
        return Ok(default_line(alloc)?);
    }
    let [image, blocks, command @ ..] = texts else {
        return Err(ArgumentsFault::Usage);
    };
    let Some(blocks) = number_of(blocks.as_str()) else {
        return Err(ArgumentsFault::Usage);
    };
    if command.is_empty() {
        return Err(ArgumentsFault::Usage);
    }
    let words = words_of(alloc, command)?;
    Ok(CommandLine {
        device: device_of(alloc, image.as_str(), blocks, access_of(command))?,
        words,
    })
}

/// The words behind the program's name.
pub(crate) fn texts_of(rt: &HostRuntime) -> Result<Vec<String>, ArgumentsFault> {
    let arguments = match env::args(rt) {
        Ok(arguments) => arguments,
        Err(error) if error.kind() == io::ErrorKind::OutOfMemory => return Err(
            ArgumentsFault::Memory,
        ),
        Err(_) => return Err(ArgumentsFault::Usage),
    };
    let mut texts = Vec::new(rt.alloc());
    for text in arguments.skip(1) {
        let Ok(()) = texts.push(text) else {
            return Err(ArgumentsFault::Memory);
        };
    }
    Ok(texts)
}

/// What the words behind the program's name ask for.
pub(crate) fn command_line(rt: &HostRuntime) -> Result<CommandLine, ArgumentsFault> {
    line_of(rt.alloc(), &texts_of(rt)?)
}
