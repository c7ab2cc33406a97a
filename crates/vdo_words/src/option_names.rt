ghost use Rattle.std.specs.Prelude.{◌≡◌};
ghost use Rattle.vdo_words.specs.Options.{spelling, least, greatest};

/// The options of all commands, and the flag.
#[derive(Clone, Copy)]
pub(crate) enum OptionName {
    Logical,
    Slabs,
    SlabBlocks,
    Journal,
    Index,
    SlabJournal,
    Height,
    Nonce,
    Schedule,
    Threads,
    Depth,
    LogicalZones,
    PhysicalZones,
    HashZones,
    Cache,
    After,
    Image,
    Seed,
    Requests,
    Streams,
}

impl OptionName {
    // Long to prove: twenty spellings are compared.
    /// The word that names it.
    pub(crate) fn spelling(self) -> &'static str
        ensures { result.now ≡ spelling self }
    {
        match self {
            OptionName::Logical => "--logical",
            OptionName::Slabs => "--slabs",
            OptionName::SlabBlocks => "--slab-blocks",
            OptionName::Journal => "--journal",
            OptionName::Index => "--index",
            OptionName::SlabJournal => "--slab-journal",
            OptionName::Height => "--height",
            OptionName::Nonce => "--nonce",
            OptionName::Schedule => "--schedule",
            OptionName::Threads => "--threads",
            OptionName::Depth => "--depth",
            OptionName::LogicalZones => "--logical-zones",
            OptionName::PhysicalZones => "--physical-zones",
            OptionName::HashZones => "--hash-zones",
            OptionName::Cache => "--cache",
            OptionName::After => "--after",
            OptionName::Image => "--image",
            OptionName::Seed => "--seed",
            OptionName::Requests => "--requests",
            OptionName::Streams => "--streams",
        }
    }

    /// The least value.
    pub(crate) fn least(self) -> u64
        ensures { result ≡ least self }
    {
        match self {
            OptionName::Cache => 4,
            OptionName::Depth
            | OptionName::LogicalZones
            | OptionName::PhysicalZones
            | OptionName::HashZones
            | OptionName::Requests
            | OptionName::Streams => 1,
            _ => 0,
        }
    }

    /// The greatest value.
    pub(crate) fn greatest(self) -> u64
        ensures { result ≡ greatest self }
    {
        match self {
            OptionName::LogicalZones | OptionName::PhysicalZones | OptionName::HashZones => 4,
            OptionName::Depth | OptionName::Streams => 16,
            OptionName::Cache => 4096,
            OptionName::Requests => 65_536,
            OptionName::Nonce
            | OptionName::Schedule
            | OptionName::Seed
            | OptionName::After
            | OptionName::Image => u64::MAX,
            _ => u64::from(u32::MAX),
        }
    }
}
