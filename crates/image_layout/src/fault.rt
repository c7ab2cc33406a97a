ghost use Rattle.std.specs.Prelude.{◌≡◌};
ghost use Rattle.image_layout.specs.Faults.{field_name};

use std::fmt;
use thiserror::Error;

/// A field of the superblock, as a fault names it.
#[derive(Clone, Copy, Debug, PartialEq, Eq)]
pub enum Field {
    Height,
    Nonce,
    Logical,
    Slabs,
    SlabBlocks,
    Journal,
    Index,
    SlabJournal,
    Clean,
    /// Bytes that have to be zeros.
    Reserved,
    Start,
    /// The blocks of the device, which are fewer than the sizes need.
    Blocks,
}

impl Field {
    /// The name as it is printed.
    pub fn name(self) -> &'static str
        ensures { result.now ≡ field_name self }
    {
        match self {
            Field::Height => "height",
            Field::Nonce => "nonce",
            Field::Logical => "logical",
            Field::Slabs => "slabs",
            Field::SlabBlocks => "slab-blocks",
            Field::Journal => "journal",
            Field::Index => "index",
            Field::SlabJournal => "slab-journal",
            Field::Clean => "clean",
            Field::Reserved => "reserved",
            Field::Start => "start",
            Field::Blocks => "blocks",
        }
    }
}

impl fmt::Display for Field {
    fn fmt<W: fmt::Write>(&self, f: &mut fmt::Formatter<W>) -> fmt::Result {
        write!(f, "{}", self.name())
    }
}

/// Why a block is no superblock. Its text is `super_fault_text` of it, in `specs/Faults`.
#[derive(Clone, Copy, Debug, PartialEq, Eq, Error)]
pub enum SuperFault {
    /// The first 8 bytes are others.
    #[error("not an image")]
    NotAnImage,
    /// The version that was found isn't 1.
    #[error("version {0}")]
    Version(u32),
    /// A field is out of its range.
    #[error("field {0}")]
    BadField(Field),
}

/// Why an image of these sizes can't be had. Its text is `layout_fault_text` of it, in `specs/PossibleSizes`.
#[derive(Clone, Copy, Debug, PartialEq, Eq, Error)]
pub enum LayoutFault {
    /// The device has fewer blocks than the sizes need.
    #[error("needs {needed} blocks, has {has}")]
    TooSmall { needed: u32, has: u32 },
    /// The logical size is above the limit of its height.
    #[error("logical too large")]
    LogicalTooLarge,
    /// A size is outside its limits; of the logical size that it is 0.
    #[error("size {0}")]
    Size(Field),
    /// The device has more blocks than a stop is tried on.
    #[error("too large to crash")]
    TooLargeToCrash { has: u32 },
}
