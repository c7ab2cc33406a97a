ghost use Rattle.std.specs.Prelude.{◌≡◌, IfOk};

use crate::Block;
use std::alloc::{AllocError, Global};
use std::marker::Model;

/// A block in a box: what holds it is moved without its bytes. A contract sees the block.
#[derive(Drop)]
pub struct BoxedBlock {
    block: Box<Block>,
}

impl Model for BoxedBlock {
    ghost use Rattle.std.specs.Prelude.{List, ℕ};

    ghost Value = { List ℕ };

    ghost view = { λ b. b.block.value };
}

impl BoxedBlock {
    /// A box with this block. It fails where memory runs out.
    pub fn new(alloc: Global, block: Block) -> Result<BoxedBlock, AllocError>
        ensures { IfOk result (λ boxed. boxed ≡ block) }
    {
        Ok(BoxedBlock {
            block: Box::new(alloc, block)?,
        })
    }

    /// The box of a block as it is: nothing is copied.
    pub fn of_box(block: Box<Block>) -> BoxedBlock
        ensures { result ≡ block.value }
    {
        BoxedBlock { block }
    }

    /// The block.
    pub fn get(&self) -> &Block
        ensures { result.now ≡ self.now }
    {
        &self.block
    }

    /// Takes over the bytes of another block, in the same box.
    pub fn copy_from(&mut self, other: &Block)
        ensures { self.new ≡ other.now }
    {
        self.block.copy_from(other);
    }
}
