ghost use Rattle.std.specs.Prelude.{◌≡◌, length};
ghost use Rattle.blk_base.specs.Sectors.{zero_block};

use std::marker::Model;

/// A block of a device: 4096 bytes, which a contract sees as a list.
#[derive(Drop)]
pub struct Block {
    pub bytes: [u8; 4096],
}

impl Model for Block {
    ghost use Rattle.std.specs.Prelude.{List, ℕ};

    ghost Value = { List ℕ };

    ghost view = { λ block. block.bytes };
}

impl Block {
    /// The block of zeros.
    #[tactic(auto, unfolding(crate::specs::Sectors::zero_block))]
    pub fn zero() -> Block
        ensures { result ≡ zero_block }
    {
        Block { bytes: [0; 4096] }
    }

    /// Each byte becomes 0, where the block stands.
    #[tactic(auto, unfolding(crate::specs::Sectors::zero_block))]
    pub fn clear(&mut self)
        ensures { self.new ≡ zero_block }
    {
        self.bytes = [0; 4096];
    }

    /// Takes over the bytes of another block.
    pub fn copy_from(&mut self, other: &Block)
        ensures same { self.new ≡ other.now }
        ensures whole { length self.new ≡ 4096 }
    {
        self.bytes = other.bytes;
    }
}
