use thiserror::Error;

/// What a command line asks for.
#[derive(Clone, Copy, Debug, PartialEq, Eq)]
pub enum Command {
    /// Write an empty image.
    Format(FormatOptions),
    /// Run a script.
    Run(RunOptions),
    /// Recover the image.
    Recover,
    /// Set the counts from the block map, and close the image.
    ForceRebuild,
    /// Give the image more addresses and more slabs.
    Grow(GrowOptions),
    /// Compare the counts with the mappings.
    Audit,
    /// Print the mode and the counts.
    Status,
    /// Run a script on a copy of the device up to a stop, and recover and audit what the stop left.
    Crash(CrashOptions),
    /// Run a generated script.
    Workload(WorkloadOptions),
}

/// The sizes of an image, in blocks where nothing else is said. Any numbers: the layout judges them.
#[derive(Clone, Copy, Debug, PartialEq, Eq)]
pub struct FormatOptions {
    /// How many addresses the image has.
    pub logical: u32,
    /// How many slabs.
    pub slabs: u32,
    /// Data blocks of a slab.
    pub slab_blocks: u32,
    pub journal: u32,
    pub index: u32,
    /// Journal blocks of a slab.
    pub slab_journal: u32,
    /// Levels of a tree of the block map.
    pub height: u32,
    pub nonce: u64,
}

/// How large an image is to be. Any numbers: the image and the layout judge them.
#[derive(Clone, Copy, Debug, PartialEq, Eq)]
pub struct GrowOptions {
    /// How many addresses.
    pub logical: u32,
    /// How many slabs.
    pub slabs: u32,
}

/// How a core is set up.
#[derive(Clone, Copy, Debug, PartialEq, Eq)]
pub struct CoreOptions {
    /// Requests of a stream that are under way at once, 1 to 16.
    pub depth: u32,
    /// 1 to 4.
    pub logical_zones: u32,
    /// 1 to 4.
    pub physical_zones: u32,
    /// 1 to 4.
    pub hash_zones: u32,
    /// Leaf pages of a logical zone that are kept, 4 to 4,096.
    pub cache: u32,
}

/// How a core is set up without options.
pub const DEFAULT_CORE: CoreOptions = CoreOptions {
    depth: 1,
    logical_zones: 1,
    physical_zones: 1,
    hash_zones: 1,
    cache: 16,
};

/// What drives a core.
#[derive(Clone, Copy, Debug, PartialEq, Eq)]
pub enum Drive {
    /// One thread, by the schedule of this number.
    Schedule(u64),
    /// A thread for each zone.
    Threads,
}

/// The options of `run`.
#[derive(Clone, Copy, Debug, PartialEq, Eq)]
pub struct RunOptions {
    pub drive: Drive,
    pub core: CoreOptions,
}

/// The options of `crash`.
#[derive(Clone, Copy, Debug, PartialEq, Eq)]
pub struct CrashOptions {
    pub schedule: u64,
    pub core: CoreOptions,
    /// How many calls of the device go on before the stop.
    pub after: u64,
    /// The number of the image that the stop leaves.
    pub image: u64,
}

/// The options of `workload`.
#[derive(Clone, Copy, Debug, PartialEq, Eq)]
pub struct WorkloadOptions {
    pub schedule: u64,
    pub core: CoreOptions,
    pub seed: u64,
    /// 1 to 65,536.
    pub requests: u32,
    /// 1 to 16.
    pub streams: u32,
}

/// The words are no command line.
#[derive(Clone, Copy, Debug, PartialEq, Eq, Error)]
#[error("usage")]
pub struct Usage;
