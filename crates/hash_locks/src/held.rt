ghost use Rattle.std.specs.Prelude.{◌≡◌};
ghost use Rattle.std.specs.Str.{bytes_eq};

use blk_base::Block;
use block_names::Name;
use lane_kernels::equal;
use std::marker::Model;

// A lock that is held: its name, and a copy of its agent's bytes.
#[derive(Drop)]
pub(crate) struct Held {
    name: Name,
    bytes: Box<Block>,
}

impl Model for Held {
    ghost use Rattle.hash_locks.specs.LockedNames.{Lock};

    ghost Value = { Lock };

    ghost view = { λ h. record { name = h.name; bytes = h.bytes.value } };
}

impl Held {
    // The lock of a name, which takes over the bytes of this block.
    pub(crate) fn new(name: Name, room: Box<Block>, block: &Block) -> Held
        ensures { result ≡ record { name = name; bytes = block.now } }
    {
        let mut bytes = room;
        bytes.copy_from(block);
        Held { name, bytes }
    }

    pub(crate) fn is_of(&self, name: &Name) -> bool
        ensures { result ≡ bytes_eq self.now.name name.now }
    {
        self.name == *name
    }

    pub(crate) fn has(&self, block: &Block) -> bool
        ensures { result ≡ bytes_eq self.now.bytes block.now }
    {
        equal(&self.bytes, block)
    }

    // The room of the block.
    pub(crate) fn into_room(self) -> Box<Block> {
        let Held { name: _, bytes } = self;
        bytes
    }
}
