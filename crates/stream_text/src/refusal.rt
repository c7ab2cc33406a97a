use thiserror::Error;

/// What is wrong with a line of a script.
#[derive(Clone, Copy, Debug, PartialEq, Eq, Error)]
pub enum LineFault {
    /// The line has more than 32,768 bytes, or the script has more than 134,217,728 and the first one beyond is of it.
    #[error("too long")]
    TooLong,
    /// The number of words, the command or the form of the runs is another.
    #[error("word")]
    Word,
    /// A stream, an address, a count or the length of a run isn't one or more decimal digits.
    #[error("number")]
    Number,
    /// The stream is above 15.
    #[error("stream")]
    Stream,
    /// An address is above 4,294,967,295, or a count isn't 1 to 65,536, or the length of a run isn't 1 to 4096.
    #[error("range")]
    Range,
    /// The runs don't add up to 4096 bytes.
    #[error("block length")]
    BlockLength,
    /// With this line the script has more than 65,536 requests.
    #[error("too many")]
    TooMany,
}

/// Why a script is refused: its first line with a fault, from 1, and the first fault of that line.
#[derive(Clone, Copy, Debug, PartialEq, Eq, Error)]
#[error("script line {line}: {fault}")]
pub struct ScriptFault {
    pub line: u64,
    pub fault: LineFault,
}

/// Why a line adds nothing to the requests.
#[derive(Clone, Copy, PartialEq, Eq)]
pub enum AddFault {
    /// The line has this fault.
    Fault(LineFault),
    /// Memory ran out.
    Memory,
}

/// Why the requests of a script could not be read.
#[derive(Clone, Copy, Debug, PartialEq, Eq, Error)]
pub enum ReadScript {
    /// The script is refused.
    #[error("{0}")]
    Script(ScriptFault),
    /// The source failed.
    #[error("read fault")]
    Read,
    /// Memory ran out.
    #[error("no memory")]
    Memory,
}
